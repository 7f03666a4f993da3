//! Tests of `frac_core`.
use crate::orders::misplaced;
use frac_core::{Frac, FracFault, Memory};
use std::alloc::Global;
use std::test::Fail;

// The numerator and the denominator.
type Parts = (i64, i64);

fn parts(fraction: Frac) -> Parts {
    (fraction.numer(), fraction.denom())
}

fn new(n: i64, d: i64) -> Result<Parts, FracFault> {
    Ok(parts(Frac::new(n, d)?))
}

#[test]
fn a_new_fraction_is_reduced_before_its_range_is_tested(rt: HostRuntime) {
    let rows = [
        (6, -4, Ok((-3, 2))),
        (0, -7, Ok((0, 1))),
        (i64::MIN, i64::MIN, Ok((1, 1))),
        (i64::MIN, 4, Ok((-2305843009213693952, 1))),
        (i64::MIN, 2, Err(FracFault::OutOfRange)),
        (1, i64::MIN, Err(FracFault::OutOfRange)),
        (4611686018427387903, 1, Ok((4611686018427387903, 1))),
        (4611686018427387904, 1, Err(FracFault::OutOfRange)),
        (1, 0, Err(FracFault::ZeroDenominator)),
        (0, 0, Err(FracFault::ZeroDenominator)),
    ];
    for (n, d, answer) in rows {
        assert_eq!(rt; new(n, d), answer, "{n} / {d}");
    }
}

fn read(text: &str) -> Result<Parts, FracFault> {
    Ok(parts(Frac::read(text.as_bytes())?))
}

#[test]
fn a_text_is_read_by_its_form(rt: HostRuntime) {
    let rows = [
        ("0", (0, 1)),
        ("-0", (0, 1)),
        ("007", (7, 1)),
        ("+2/4", (1, 2)),
        ("-3/2", (-3, 2)),
        ("0000000000000000001/2", (1, 2)),
        ("9999999999999999999/9999999999999999999", (1, 1)),
        ("0.5", (1, 2)),
        ("-012.50", (-25, 2)),
        ("0.00000000000000001", (1, 100000000000000000)),
        ("123456789.123456789", (123456789123456789, 1000000000)),
    ];
    for (text, answer) in rows {
        assert_eq!(rt; read(text), Ok(answer), "{text}");
    }
}

#[test]
fn a_text_of_no_form_is_refused(rt: HostRuntime) {
    let texts = [
        "",
        "-",
        "x",
        "/2",
        "1/",
        "1/2/3",
        "1/+2",
        "+-1",
        " 1",
        "12345678901234567890",
        "1/12345678901234567890",
        "x/0",
        ".",
        ".5",
        "1.",
        "1.2.3",
        "1.5/2",
        "1/2.5",
        "1.000000000000000000",
    ];
    for text in texts {
        assert_eq!(rt; read(text), Err(FracFault::BadText), "{text}");
    }
}

#[test]
fn a_denominator_is_tested_before_the_range(rt: HostRuntime) {
    let rows = [
        ("1/0", FracFault::ZeroDenominator),
        ("9223372036854775807/0", FracFault::ZeroDenominator),
        ("9223372036854775807", FracFault::OutOfRange),
        ("4611686018427387904", FracFault::OutOfRange),
        ("1/4611686018427387904", FracFault::OutOfRange),
    ];
    for (text, fault) in rows {
        assert_eq!(rt; read(text), Err(fault), "{text}");
    }
}

fn sum(first: &str, second: &str) -> Result<Option<Parts>, FracFault> {
    let first = Frac::read(first.as_bytes())?;
    let second = Frac::read(second.as_bytes())?;
    Ok(first.add(second).map(parts))
}

#[test]
fn sums_are_exact_or_refused_where_they_are_out_of_range(rt: HostRuntime) {
    let rows = [
        ("1/2", "1/3", Some((5, 6))),
        ("1/2", "-1/2", Some((0, 1))),
        ("4611686018427387903", "-1", Some((4611686018427387902, 1))),
        (
            "1/4611686018427387903",
            "1/4611686018427387903",
            Some((2, 4611686018427387903)),
        ),
        ("4611686018427387903", "1", None),
        ("1/2305843009213693951", "1/2305843009213693950", None),
    ];
    for (first, second, answer) in rows {
        assert_eq!(rt; sum(first, second), Ok(answer), "{first} {second}");
    }
}

fn difference(first: &str, second: &str) -> Result<Option<Parts>, FracFault> {
    let first = Frac::read(first.as_bytes())?;
    let second = Frac::read(second.as_bytes())?;
    Ok(first.sub(second).map(parts))
}

#[test]
fn differences_are_exact_or_refused_where_they_are_out_of_range(rt: HostRuntime) {
    let rows = [
        ("1/2", "1/3", Some((1, 6))),
        ("1/3", "1/2", Some((-1, 6))),
        ("1/2", "1/2", Some((0, 1))),
        ("-4611686018427387903", "1", None),
    ];
    for (first, second, answer) in rows {
        assert_eq!(rt; difference(first, second), Ok(answer), "{first} {second}");
    }
}

// The product, and the quotient by a fraction that is not 0.
fn product_and_quotient(
    first: &str,
    second: &str,
) -> Result<(Option<Parts>, Option<Parts>), FracFault> {
    let first = Frac::read(first.as_bytes())?;
    let second = Frac::read(second.as_bytes())?;
    if second == Frac::zero() {
        return Err(FracFault::ZeroDenominator);
    }
    Ok((first.mul(second).map(parts), first.div(second).map(parts)))
}

#[test]
fn products_and_quotients_are_reduced_before_their_range_is_tested(rt: HostRuntime) {
    let rows = [
        ("3/4", "-2/9", (Some((-1, 6)), Some((-27, 8)))),
        ("-3/2", "-1/2", (Some((3, 4)), Some((3, 1)))),
        ("0", "-5/7", (Some((0, 1)), Some((0, 1)))),
        (
            "4611686018427387903",
            "1/4611686018427387903",
            (Some((1, 1)), None),
        ),
        ("2147483648", "2147483648", (None, Some((1, 1)))),
        (
            "-2147483648",
            "2147483647",
            (
                Some((-4611686016279904256, 1)),
                Some((-2147483648, 2147483647)),
            ),
        ),
        ("1/2147483648", "-2147483648", (Some((-1, 1)), None)),
    ];
    for (first, second, answer) in rows {
        assert_eq!(rt;
            product_and_quotient(first, second),
            Ok(answer),
            "{first} {second}"
        );
    }
}

// The product of two fractions over a third that is not 0.
fn product_over(first: &str, second: &str, third: &str) -> Result<Option<Parts>, FracFault> {
    let first = Frac::read(first.as_bytes())?;
    let second = Frac::read(second.as_bytes())?;
    let third = Frac::read(third.as_bytes())?;
    if third == Frac::zero() {
        return Err(FracFault::ZeroDenominator);
    }
    Ok(first.mul_div(second, third).map(parts))
}

#[test]
fn a_product_is_divided_before_its_range_is_tested(rt: HostRuntime) {
    const MAX: &str = "4611686018427387903";
    const ONE_OVER_MAX: &str = "1/4611686018427387903";
    let rows = [
        ("2/3", "-3/4", "1/2", Some((-1, 1))),
        ("0", "5", "-7/2", Some((0, 1))),
        // The second over the third is 1/2^62.
        (
            "3145728",
            "1/1099511627776",
            "4194304",
            Some((3, 4398046511104)),
        ),
        (MAX, MAX, MAX, Some((4611686018427387903, 1))),
        (
            ONE_OVER_MAX,
            "1/4611686018427387902",
            ONE_OVER_MAX,
            Some((1, 4611686018427387902)),
        ),
        (MAX, "-1", "1/2", None),
        // Products of more than 128 bits.
        (MAX, MAX, ONE_OVER_MAX, None),
        (ONE_OVER_MAX, ONE_OVER_MAX, MAX, None),
    ];
    for (first, second, third, answer) in rows {
        assert_eq!(rt;
            product_over(first, second, third),
            Ok(answer),
            "{first} {second} {third}"
        );
    }
}

// The half, and the units rounded down.
fn half_and_units(text: &str) -> Result<(Option<Parts>, i128), FracFault> {
    let fraction = Frac::read(text.as_bytes())?;
    Ok((fraction.half().map(parts), fraction.floor_units()))
}

#[test]
fn halves_are_exact_or_refused_and_units_are_rounded_down(rt: HostRuntime) {
    let rows = [
        ("1/3", (Some((1, 6)), 349525)),
        ("-1/3", (Some((-1, 6)), -349526)),
        ("9/19", (Some((9, 38)), 496693)),
        ("9/56", (Some((9, 112)), 168521)),
        ("3/2", (Some((3, 4)), 1572864)),
        ("-6", (Some((-3, 1)), -6291456)),
        ("1/2305843009213693952", (None, 0)),
        ("-1/2305843009213693952", (None, -1)),
    ];
    for (text, answer) in rows {
        assert_eq!(rt; half_and_units(text), Ok(answer), "{text}");
    }
}

// A fraction with the other sign, and its absolute value.
fn signs(text: &str) -> Result<(Parts, Parts), FracFault> {
    let fraction = Frac::read(text.as_bytes())?;
    Ok((parts(fraction.neg()), parts(fraction.abs())))
}

#[test]
fn signs_and_absolute_values_are_never_out_of_range(rt: HostRuntime) {
    let most = (4611686018427387903, 1);
    assert_eq!(rt; signs("1/2"), Ok(((-1, 2), (1, 2))));
    assert_eq!(rt; signs("-4611686018427387903"), Ok((most, most)));
}

fn read_all(alloc: Global, texts: &[&str]) -> Result<Vec<Frac>, Fail> {
    let mut fractions = Vec::new(alloc);
    for text in texts {
        fractions.push(Frac::read(text.as_bytes())?)?;
    }
    Ok(fractions)
}

#[test]
fn fractions_are_ordered_by_value(rt: HostRuntime) -> Result<(), Fail> {
    let ordered = ["-3/2", "-1", "-1/2", "0", "1/3", "0.4", "1/2", "2/3"];
    let fractions = read_all(rt.alloc(), &ordered)?;
    assert_eq!(rt; misplaced(fractions.as_slice()), None);
    Ok(())
}

fn appended(alloc: Global, fraction: Frac) -> Result<Vec<u8>, Memory> {
    let mut into = b"= ".to_vec(alloc)?;
    fraction.write(alloc, &mut into)?;
    Ok(into)
}

#[test]
fn a_fraction_is_written_in_its_shortest_form_after_what_is_there(
    rt: HostRuntime,
) -> Result<(), Fail> {
    let rows = [
        (Frac::zero(), "= 0"),
        (Frac::one(), "= 1"),
        (Frac::new(-6, 4)?, "= -3/2"),
        (Frac::new(15, 18)?, "= 5/6"),
    ];
    for (fraction, text) in rows {
        let written = appended(rt.alloc(), fraction)?;
        assert_eq!(rt; written.as_slice(), text.as_bytes());
    }
    Ok(())
}
