//! Numbers of the command line.
ghost use Rattle.std.specs.Prelude.{◌≡◌};
ghost use Rattle.program_words.specs.Numbers.{begins_from_one, number_up_to};

/// The number from 1 to `most` that the text is in decimal digits, without a sign or a leading zero.
pub(crate) fn number_up_to(most: u64, text: &str) -> Option<u64>
    ensures { result ≡ number_up_to most text.now }
{
    if !begins_from_one(text) {
        return None;
    }
    let number = text.parse::<u64>().ok()?;
    (number <= most).then_some(number)
}

/// Whether the text begins with a digit other than 0.
fn begins_from_one(text: &str) -> bool
    ensures { result ≡ begins_from_one text.now }
{
    matches!(text.as_bytes().first(), Some(b'1'..=b'9'))
}
