//! Numerals: texts of 1 to 19 ASCII digits, which fractions and integers are written with.
//! The bound keeps the number of each within 64 bits.
#![tactic(auto)]

ghost use Rattle.std.specs.Prelude.{◌≡◌};
ghost use Rattle.std.specs.Char.{is_ascii_digit};
ghost use Rattle.std.specs.List.{list_all};
ghost use Rattle.numerals.specs.Numerals.{is_short_numeral};

/// The most digits of a numeral.
pub const MAX_DIGITS: usize = 19;

/// Whether the text is 1 to 19 digits and nothing else.
pub fn is_short_numeral(text: &[u8]) -> bool
    ensures { result ≡ is_short_numeral text.now }
{
    0 < text.len() && text.len() <= MAX_DIGITS && are_digits(text)
}

fn are_digits(text: &[u8]) -> bool
    ensures { result ≡ list_all is_ascii_digit text.now }
{
    text.iter().all(|byte| byte.is_ascii_digit())
}
