//! Checked fractions: exact arithmetic on reduced pairs of 64-bit numbers.
//!
//! Each call works out the exact rational number, and answers it or says that it is out of range:
//! the numerator of a fraction, without its sign, and the denominator are below 2^62.
#![tactic(auto)]

ghost use Rattle.std.specs.Prelude.{IfOk, IsTrue, IsUtf8, OnErr, OnOk, int_div, pos, position, string_bytes, unsigned_abs, ◌*ℤ◌, ◌*◌, ◌++◌, ◌<◌, ◌==◌, ◌^◌, ◌↔◌, ◌≡◌, ◌≢◌};
ghost use Rattle.std.specs.Cmp.{partial_equiv_from_equiv, partial_order_from_total};
ghost use Rattle.std.specs.Ordering.{as_partial_cmp, eq_by_cmp};
ghost use Rattle.std.specs.Str.Parse.{digits_value};
ghost use Rattle.std.proofs.Common.{refl};
ghost use Rattle.std.proofs.lemmas.Cmp.{eq_by_cmp_equiv};
ghost use Rattle.ratios.specs.Gcd.{gcd};
ghost use Rattle.ratios.specs.Range.{InRange, checked};
ghost use Rattle.ratios.specs.Ratio.{IsReduced, one_ratio, ratio, ratio_abs, ratio_add, ratio_cmp, ratio_div, ratio_floor_units, ratio_half, ratio_mul, ratio_neg, ratio_sub, zero_ratio};
ghost use Rattle.ratios.proofs.Order.{ratio_cmp_total};
ghost use Rattle.numerals.specs.Numerals.{is_short_numeral};
ghost use Rattle.frac_core.specs.Quotient.{quotient_of};
ghost use Rattle.frac_core.specs.Text.{decimal_of, decimal_or_whole, digits_of, ratio_text, signed_quotient, unsigned_of, weight_of};

use numerals::is_short_numeral;
pub use std::alloc::AllocError as Memory;
use std::alloc::Global;
use std::cmp::Ordering;
use std::marker::Model;

/// Why two numbers, or a text, give no fraction.
#[derive(Clone, Copy, PartialEq, Eq, Debug, thiserror::Error)]
pub enum FracFault {
    /// The text has none of the forms of a fraction.
    #[error("the text is no fraction")]
    BadText,
    /// The denominator is 0.
    #[error("the denominator is 0")]
    ZeroDenominator,
    /// A part of the reduced fraction is 2^62 or more, the numerator without its sign.
    #[error("the fraction is out of range")]
    OutOfRange,
}

/// A reduced fraction: a numerator below 2^62 without its sign, and a positive denominator below 2^62.
#[derive(Clone, Copy, Debug)]
pub struct Frac {
    num: i64,
    den: u64,
}

impl Model for Frac {
    ghost use Rattle.std.specs.Prelude.{◌<◌, ◌^◌, pos, unsigned_abs};
    ghost use Rattle.std.proofs.Common.{ap₂};
    ghost use Rattle.ratios.specs.Code.{ratio_code};
    ghost use Rattle.ratios.specs.Ratio.{IsReduced, Ratio, ratio};
    ghost use Rattle.ratios.proofs.Parts.{ratio-den-reduced, ratio-num-reduced};

    ghost Value = { Ratio };

    ghost coded = { ratio_code };

    ghost view = { λ f. ratio f.num (pos f.den) };

    ghost invariant = { λ f. IsReduced f.num f.den × (unsigned_abs f.num < 2 ^ 62) × (f.den < 2 ^ 62) };

    ghost inverse = { λ q. record { num = q.num; den = q.den } };

    ghost inverse_ok = { λ f h. ap₂ (λ n d. record { num = n; den = d }) (ratio-num-reduced f.num f.den h.0) (ratio-den-reduced f.num f.den h.0) };
}

// Reduced fractions are equal just where their parts are.
impl PartialEq for Frac {
    ghost eq = { eq_by_cmp ratio_cmp };

    ghost laws = { partial_equiv_from_equiv (eq_by_cmp_equiv ratio_cmp_total) };

    fn eq(&self, other: &Frac) -> bool {
        self.num == other.num && self.den == other.den
    }
}

impl Eq for Frac {
    ghost laws = { eq_by_cmp_equiv ratio_cmp_total };
}

impl PartialOrd for Frac {
    ghost partial_cmp = { as_partial_cmp ratio_cmp };

    ghost laws = { partial_order_from_total ratio_cmp_total };

    fn partial_cmp(&self, other: &Frac) -> Option<Ordering> {
        Some(self.cmp(other))
    }
}

// Fractions are ordered by their values.
impl Ord for Frac {
    ghost cmp = { ratio_cmp };

    ghost total = { ratio_cmp_total };

    ghost matches_partial_cmp = { λ x y. refl };

    ghost matches_eq = { λ x y. refl };

    fn cmp(&self, other: &Frac) -> Ordering {
        cross(*self, *other).cmp(&cross(*other, *self))
    }
}

// The first number that neither part of a fraction reaches.
const LIMIT: u128 = 1 << 62;

// The greatest number of 64 bits.
const WORD_MAX: u128 = u64::MAX as u128;

// How many units make 1.
const UNITS: i128 = 1 << 20;

// The greatest common divisor, by Euclid's algorithm.
fn greatest_common_divisor(a: u64, b: u64) -> u64
    ensures { result ≡ gcd a b }
{
    // Whole numbers are the usual case, and a remainder takes long.
    if b == 1 {
        return 1;
    }
    let mut x = a;
    let mut y = b;
    while y != 0 {
        let rest = x % y;
        x = y;
        y = rest;
    }
    x
}

// The same of wider numbers, whose slower remainders are taken only until 64 bits are enough.
fn wide_greatest_common_divisor(a: u128, b: u128) -> u128
    ensures { result ≡ gcd a b }
{
    if b == 1 {
        return 1;
    }
    let mut x = a;
    let mut y = b;
    while y > WORD_MAX {
        let rest = x % y;
        x = y;
        y = rest;
    }
    if y == 0 {
        return x;
    }
    u128::from(greatest_common_divisor(y as u64, (x % y) as u64))
}

// `n / g`, rounded toward 0.
fn divided(n: i128, g: u128) -> i128
    requires positive { 0 < g }
    requires small { g < 2 ^ 127 }
    ensures { result ≡ int_div n (pos g) }
{
    n / g as i128
}

// The fraction of two parts that are reduced, where they are in range.
fn within_range(num: i128, den: u128) -> Option<Frac>
    requires { IsReduced num den }
    ensures { result ≡ checked (ratio num (pos den)) }
{
    if num.unsigned_abs() >= LIMIT || den >= LIMIT {
        return None;
    }
    Some(Frac {
        num: num as i64,
        den: den as u64,
    })
}

// A reduced fraction with parts of 128 bits.
#[derive(Drop)]
struct Wide {
    num: i128,
    den: u128,
}

impl Model for Wide {
    ghost use Rattle.std.specs.Prelude.{◌<◌, ◌^◌, pos};
    ghost use Rattle.ratios.specs.Code.{ratio_code};
    ghost use Rattle.ratios.specs.Ratio.{IsReduced, Ratio, ratio};

    ghost Value = { Ratio };

    ghost coded = { ratio_code };

    ghost view = { λ f. ratio f.num (pos f.den) };

    ghost invariant = { λ f. IsReduced f.num f.den × (f.den < 2 ^ 127) };
}

// `n / d`, reduced.
fn lowest(n: i128, d: u128) -> Wide
    requires positive { 0 < d }
    requires small { d < 2 ^ 127 }
    ensures { result ≡ ratio n (pos d) }
{
    let divisor = wide_greatest_common_divisor(n.unsigned_abs(), d);
    if divisor == 1 {
        return Wide { num: n, den: d };
    }
    let num = divided(n, divisor);
    let den = d / divisor;
    Wide { num, den }
}

// `n / d`, reduced, where it is in range.
fn reduce(n: i128, d: u128) -> Option<Frac>
    requires positive { 0 < d }
    requires small { d < 2 ^ 127 }
    ensures { result ≡ checked (ratio n (pos d)) }
{
    let lowest = lowest(n, d);
    within_range(lowest.num, lowest.den)
}

// The same of numbers of either sign.
fn reduce_signed(n: i128, d: i128) -> Option<Frac>
    requires nonzero { d ≢ pos 0 }
    requires small_n { unsigned_abs n < 2 ^ 126 }
    requires small_d { unsigned_abs d < 2 ^ 126 }
    ensures { result ≡ checked (ratio n d) }
{
    if d < 0 {
        reduce(-n, d.unsigned_abs())
    } else {
        reduce(n, d.unsigned_abs())
    }
}

// `n / d`, reduced, of numbers that are in range themselves.
fn reduce_small(n: i64, d: u64) -> Frac
    requires positive { 0 < d }
    requires small_n { unsigned_abs n < 2 ^ 62 }
    requires small_d { d < 2 ^ 62 }
    ensures { result ≡ ratio n (pos d) }
{
    let divisor = greatest_common_divisor(n.unsigned_abs(), d);
    if divisor == 1 {
        return Frac { num: n, den: d };
    }
    let num = n / divisor as i64;
    let den = d / divisor;
    Frac { num, den }
}

// The fraction `n / d`, or the fault that keeps it out.
fn quotient(n: i128, d: i128) -> Result<Frac, FracFault>
    requires small_n { unsigned_abs n < 2 ^ 126 }
    requires small_d { unsigned_abs d < 2 ^ 126 }
    ensures { result ≡ quotient_of n d }
{
    if d == 0 {
        return Err(FracFault::ZeroDenominator);
    }
    reduce_signed(n, d).ok_or(FracFault::OutOfRange)
}

// The numerator of `a` times the denominator of `b`.
fn cross(a: Frac, b: Frac) -> i128
    ensures value { result ≡ a.num *ℤ pos b.den }
    ensures small { unsigned_abs result < 2 ^ 124 }
{
    i128::from(a.num) * i128::from(b.den)
}

// The product of the numerators.
fn numerators(a: Frac, b: Frac) -> i128
    ensures { result ≡ a.num *ℤ b.num }
{
    i128::from(a.num) * i128::from(b.num)
}

// The product of the denominators.
fn denominators(a: Frac, b: Frac) -> u128
    ensures value { result ≡ a.den * b.den }
    ensures positive { 0 < result }
    ensures small { result < 2 ^ 124 }
{
    u128::from(a.den) * u128::from(b.den)
}

// The product, whose parts may be out of range.
fn product(a: Frac, b: Frac) -> Wide
    ensures { result ≡ ratio_mul a b }
{
    // With each numerator reduced by the other denominator, the product is reduced.
    let first = reduce_small(a.num, b.den);
    let second = reduce_small(b.num, a.den);
    let num = numerators(first, second);
    let den = denominators(first, second);
    Wide { num, den }
}

// The number that the digits write.
fn numeral(digits: &[u8]) -> u64
    requires { IsTrue (is_short_numeral digits.now) }
    ensures { result ≡ digits_value 10 digits.now }
{
    let mut value = 0u64;
    for b in digits {
        value = value * 10 + u64::from(*b - b'0');
    }
    value
}

// 1 to 19 digits, as their number.
fn digits(text: &[u8]) -> Option<u64>
    ensures { result ≡ digits_of text.now }
{
    if is_short_numeral(text) {
        Some(numeral(text))
    } else {
        None
    }
}

// The first place of the byte.
fn first_place(text: &[u8], byte: u8) -> Option<usize>
    ensures { result ≡ position (λ b. b == byte) text.now }
{
    text.iter().position(|b| *b == byte)
}

// The numbers of the digits before and after a point.
fn decimal(whole: &[u8], fraction: &[u8]) -> Option<(u64, u64)>
    ensures { result ≡ decimal_of whole.now fraction.now }
{
    if !is_short_numeral(whole)
        || !is_short_numeral(fraction)
        || whole.len() + fraction.len() > 18
    {
        return None;
    }
    let scale = 10u64.pow(fraction.len() as u32);
    Some((numeral(whole) * scale + numeral(fraction), scale))
}

// The numbers of a text with no sign and no slash.
fn no_slash(text: &[u8]) -> Option<(u64, u64)>
    ensures { result ≡ decimal_or_whole text.now }
{
    match first_place(text, b'.') {
        Some(at) => decimal(&text[..at], &text[at + 1..]),
        None => {
            let n = digits(text)?;
            Some((n, 1))
        }
    }
}

// The numbers of a text with no sign.
fn unsigned(text: &[u8]) -> Option<(u64, u64)>
    ensures { result ≡ unsigned_of text.now }
{
    match first_place(text, b'/') {
        Some(at) => {
            let n = digits(&text[..at])?;
            let d = digits(&text[at + 1..])?;
            Some((n, d))
        }
        None => no_slash(text),
    }
}

// The fraction of a text with no sign, negated at true.
fn signed(text: &[u8], negative: bool) -> Result<Frac, FracFault>
    ensures { result ≡ signed_quotient negative (unsigned_of text.now) }
{
    let Some((n, d)) = unsigned(text) else {
        return Err(FracFault::BadText);
    };
    if negative {
        quotient(-i128::from(n), i128::from(d))
    } else {
        quotient(i128::from(n), i128::from(d))
    }
}

impl Frac {
    /// 0.
    pub fn zero() -> Frac
        ensures { result ≡ zero_ratio }
    {
        Frac { num: 0, den: 1 }
    }

    /// 1.
    pub fn one() -> Frac
        ensures { result ≡ one_ratio }
    {
        Frac { num: 1, den: 1 }
    }

    /// The numerator of the reduced fraction, with its sign.
    pub fn numer(self) -> i64
        ensures value { result ≡ self.num }
        ensures in_range { InRange self }
    {
        self.num
    }

    /// The denominator of the reduced fraction, which is positive.
    pub fn denom(self) -> i64
        ensures value { result ≡ pos self.den }
        ensures in_range { InRange self }
    {
        self.den as i64
    }

    /// The fraction `n / d`: `ZeroDenominator` where `d` is 0, else `OutOfRange` where the reduced
    /// fraction is out of range.
    pub fn new(n: i64, d: i64) -> Result<Frac, FracFault>
        ensures { result ≡ quotient_of n d }
    {
        quotient(i128::from(n), i128::from(d))
    }

    /// The exact sum, or `None` where it is out of range.
    pub fn add(self, other: Frac) -> Option<Frac>
        ensures { result ≡ checked (ratio_add self other) }
    {
        let num = cross(self, other) + cross(other, self);
        reduce(num, denominators(self, other))
    }

    /// The exact difference, or `None` where it is out of range.
    pub fn sub(self, other: Frac) -> Option<Frac>
        ensures { result ≡ checked (ratio_sub self other) }
    {
        let num = cross(self, other) - cross(other, self);
        reduce(num, denominators(self, other))
    }

    /// The exact product, or `None` where it is out of range.
    pub fn mul(self, other: Frac) -> Option<Frac>
        ensures { result ≡ checked (ratio_mul self other) }
    {
        let product = product(self, other);
        within_range(product.num, product.den)
    }

    /// The exact quotient, or `None` where it is out of range; `other` is not 0.
    pub fn div(self, other: Frac) -> Option<Frac>
        requires { other ≢ zero_ratio }
        ensures { result ≡ checked (ratio_div self other) }
    {
        self.mul(other.reciprocal())
    }

    /// The exact value of `self * by / over`, or `None` where it is out of range; `over` is not 0.
    pub fn mul_div(self, by: Frac, over: Frac) -> Option<Frac>
        requires { over ≢ zero_ratio }
        ensures { result ≡ checked (ratio_div (ratio_mul self by) over) }
    {
        // Each numerator is reduced by each denominator, so that a product of more than 128 bits is out of range.
        let inverse = over.reciprocal();
        let product = product(self, by);
        let first = lowest(product.num, u128::from(inverse.den));
        let second = lowest(i128::from(inverse.num), product.den);
        let num = first.num.checked_mul(second.num)?;
        let den = first.den.checked_mul(second.den)?;
        within_range(num, den)
    }

    // 1 over the fraction.
    fn reciprocal(self) -> Frac
        requires { self ≢ zero_ratio }
        ensures { result ≡ ratio (pos self.den) self.num }
    {
        let num = self.den as i64;
        let den = self.num.unsigned_abs();
        if self.num < 0 {
            return Frac { num: -num, den };
        }
        Frac { num, den }
    }

    /// The exact half, or `None` where it is out of range.
    pub fn half(self) -> Option<Frac>
        ensures { result ≡ checked (ratio_half self) }
    {
        self.mul(Frac { num: 1, den: 2 })
    }

    /// The greatest whole number that is at most the value times 2^20.
    pub fn floor_units(self) -> i128
        ensures { result ≡ ratio_floor_units self }
    {
        (i128::from(self.num) * UNITS).div_euclid(i128::from(self.den))
    }

    /// The same fraction with the other sign, which is never out of range.
    pub fn neg(self) -> Frac
        ensures { result ≡ ratio_neg self }
    {
        Frac {
            num: -self.num,
            den: self.den,
        }
    }

    /// The absolute value, which is never out of range.
    pub fn abs(self) -> Frac
        ensures { result ≡ ratio_abs self }
    {
        if self.num < 0 { self.neg() } else { self }
    }

    /// The fraction of a weight's text. After an optional `+` or `-` it is 1 to 19 digits; or 1 to 19
    /// digits, a slash and 1 to 19 digits; or one or more digits, a point and one or more digits, at
    /// most 18 digits in all. `BadText` where the text has none of these forms, else `ZeroDenominator`
    /// where the denominator is 0, else `OutOfRange` where the reduced fraction is out of range.
    pub fn read(text: &[u8]) -> Result<Frac, FracFault>
        ensures { result ≡ weight_of text.now }
    {
        if text.is_empty() {
            return Err(FracFault::BadText);
        }
        if text[0] == b'-' {
            signed(&text[1..], true)
        } else if text[0] == b'+' {
            signed(&text[1..], false)
        } else {
            signed(text, false)
        }
    }

    /// Appends the text: `n` where the denominator is 1, else `n/d`, with a leading `-` where the
    /// fraction is negative.
    pub fn write(self, alloc: Global, into: &mut Vec<u8>) -> Result<(), Memory>
        ensures ok { OnOk result (into.new.items ≡ into.old.items ++ ratio_text self) }
        ensures err { OnErr result (into.new.items ≡ into.old.items) }
        ensures reads_back { weight_of (ratio_text self) ≡ Ok self }
        ensures utf8 { OnOk result (IsUtf8 (ratio_text self)) }
    {
        let text = self.text(alloc)?;
        into.extend_from_slice(text.as_str().as_bytes())
    }

    fn text(self, alloc: Global) -> Result<String, Memory>
        ensures text { IfOk result (λ s. string_bytes s ≡ ratio_text self) }
        ensures in_range { InRange self }
    {
        let num = self.numer();
        let den = self.denom();
        if den == 1 {
            format!(in alloc; "{num}")
        } else {
            format!(in alloc; "{num}/{den}")
        }
    }
}
