//! Tests of `prim_table`.
ghost use Rattle.std.specs.Prelude.{◌≡◌, IfOk};
ghost use Rattle.record_text.specs.KindLists.{kind_of};

use prim_table::{
    Atom, Kind, Memory, ONE, PrimId, THREE, TWO, apply1, apply2, apply3, find, row1, row2, row3,
};
use record_text::{ShortText, TextFault};
use std::alloc::Global;
use std::test::Fail;

fn text(alloc: Global, bytes: &str) -> Result<Atom, TextFault>
    ensures { IfOk result (λ atom. kind_of atom ≡ Kind.Text) }
{
    Ok(Atom::Text(ShortText::new(alloc, bytes)?))
}

// The number that was answered.
fn number(answer: Result<Atom, Memory>) -> Option<i64> {
    match answer {
        Ok(Atom::Int(number)) => Some(number),
        _ => None,
    }
}

fn negated(a: i64) -> Option<i64> {
    number(apply1(0, &Atom::Int(a)))
}

fn divided(a: i64, b: i64) -> Option<i64> {
    number(apply2(3, &Atom::Int(a), &Atom::Int(b)))
}

fn rest(a: i64, b: i64) -> Option<i64> {
    number(apply2(4, &Atom::Int(a), &Atom::Int(b)))
}

fn picked(alloc: Global, a: i64, b: i64, c: i64) -> Option<i64> {
    number(apply3(alloc, 0, &Atom::Int(a), &Atom::Int(b), &Atom::Int(c)))
}

#[test]
fn numbers_at_the_edges_are_those_of_the_table(rt: HostRuntime) {
    assert_eq!(rt; negated(i64::MIN), Some(i64::MAX));
    assert_eq!(rt; picked(rt.alloc(), -1, 2, 3), Some(2));
    let rows = [
        (-7, 2, -4, 1),
        (7, -2, -3, 1),
        (i64::MIN, -1, i64::MAX, 0),
        (5, 0, 0, 0),
    ];
    for (a, b, quotient, remainder) in rows {
        assert_eq!(rt; divided(a, b), Some(quotient), "{a} div {b}");
        assert_eq!(rt; rest(a, b), Some(remainder), "{a} mod {b}");
    }
}

fn int_of(alloc: Global, bytes: &str) -> Result<Option<i64>, Fail> {
    let whole = text(alloc, bytes)?;
    Ok(number(apply1(5, &whole)))
}

#[test]
fn a_text_is_a_number_or_0(rt: HostRuntime) -> Result<(), Fail> {
    for (bytes, answer) in [("+07", 7), ("7.0", 0), ("", 0)] {
        assert_eq!(rt; int_of(rt.alloc(), bytes)?, Some(answer), "{bytes}");
    }
    Ok(())
}

fn starts(alloc: Global, bytes: &str, front: &str) -> Result<Option<i64>, Fail> {
    let whole = text(alloc, bytes)?;
    let front = text(alloc, front)?;
    Ok(number(apply2(17, &whole, &front)))
}

#[test]
fn each_text_starts_with_the_empty_one(rt: HostRuntime) -> Result<(), Fail> {
    for bytes in ["Åsa", ""] {
        assert_eq!(rt; starts(rt.alloc(), bytes, "")?, Some(1), "{bytes}");
    }
    Ok(())
}

// Whether the part of a text, counted in characters, is this one.
fn has_part(
    alloc: Global,
    bytes: &str,
    left_out: i64,
    kept: i64,
    answer: &str,
) -> Result<bool, Fail> {
    let whole = text(alloc, bytes)?;
    let part = apply3(alloc, 1, &whole, &Atom::Int(left_out), &Atom::Int(kept))?;
    Ok(part == text(alloc, answer)?)
}

#[test]
fn parts_are_counted_in_characters(rt: HostRuntime) -> Result<(), Fail> {
    for (bytes, left_out, answer) in [("Åsa", 1, "s"), ("ab", 5, "")] {
        assert!(rt;
            has_part(rt.alloc(), bytes, left_out, 1, answer)?,
            "{bytes}"
        );
    }
    Ok(())
}

fn place(name: &str) -> Option<PrimId> {
    find(name.as_bytes())
}

#[test]
fn names_are_found_where_a_table_has_them(rt: HostRuntime) {
    let rows = [
        ("int_of", Some(PrimId::One(5))),
        ("starts", Some(PrimId::Two(17))),
        ("part", Some(PrimId::Three(1))),
        ("Neg", None),
        ("", None),
    ];
    for (name, answer) in rows {
        assert_eq!(rt; place(name), answer, "{name}");
    }
}

#[test]
fn tables_have_a_row_for_each_primitive(rt: HostRuntime) {
    assert_eq!(rt; ONE.len() + TWO.len() + THREE.len(), 26);
    assert_eq!(rt; row1(4).name, "len");
    assert_eq!(rt; row1(4).args, [Kind::Text]);
    assert_eq!(rt; row2(0).result, Kind::Int);
    assert_eq!(rt; row3(1).result, Kind::Text);
}
