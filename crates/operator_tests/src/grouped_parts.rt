//! Tests of group, key by key.
ghost use Rattle.std.specs.Prelude.{◌≡◌, ◌<◌, All, IfOk, IsTrue, true};
ghost use Rattle.plan_model.specs.Acceptance.{have_kinds};
ghost use Rattle.op_groupby.specs.Group.{reads_within};
ghost use Rattle.operator_tests.specs.Keys.{IsOfKey};
ghost use Rattle.trial_rows.specs.Columns.{two_ints};
ghost use Rattle.weighted_set.specs.Parts.{IsListed};

use frac_core::Frac;
use op_groupby::GroupOp;
use op_parts::made_row;
use plan_model::{Exprs, Reducer};
use record_text::{Atom, Row};
use std::alloc::Global;
use std::marker::Brand;
use std::process::Abort;
use std::sync::ledger::{Blank, Ledger};
use steps::Steps;
use trial_rows::{is_row, only_second_column, pair, ratio, row, two_ints};
use weighted_set::{Memory, OpFault, PartOp, PartStore, Side, View, Weighted};

// The part of the key 7: rows of these numbers and 7, with weights.
fn part<L: Ledger>(
    alloc: Global,
    rows: &[(i64, i64, i64)],
    steps: &mut Steps<L>,
) -> Result<Vec<Weighted>, Memory>
    ensures { IfOk result (λ list. IsListed list.items) }
{
    let key = row(alloc, 7)?;
    let mut store = PartStore::new(alloc);
    for (first, numer, denom) in rows {
        let input = pair(alloc, *first, 7)?;
        store.put_pending(&key, &input, ratio((*numer, *denom)), steps)?;
    }
    let mut list = Vec::new(alloc);
    store.read_part(&key, View::Pending, &mut list, steps)?;
    Ok(list)
}

// Whether the rows of a part have two numbers, and the key that expressions make of them.
fn are_of_key(alloc: Global, exprs: &Exprs, key: &Row, part: &[Weighted]) -> Result<bool, Memory>
    requires { have_kinds two_ints exprs.now ≡ true }
    ensures { IfOk result (λ are. are ≡ true → All (λ e. IsOfKey exprs.now key.now e.row) part.now) }
{
    for entry in part {
        if !entry.row.fits(two_ints()) {
            return Ok(false);
        }
        if made_row(alloc, exprs, &entry.row)? != *key {
            return Ok(false);
        }
    }
    Ok(true)
}

// Whether rows of two numbers have the column that a reducer reads.
fn reads(reduce: Reducer) -> bool
    ensures { IsTrue result → IsTrue (reads_within two_ints reduce) }
{
    match reduce {
        Reducer::Count => true,
        Reducer::Min(col) | Reducer::Max(col) | Reducer::Sum(col) => col < 2,
    }
}

// What the part of the key 7 gives.
fn grouped<L: Ledger>(
    alloc: Global,
    reduce: Reducer,
    left: &[Weighted],
    steps: &mut Steps<L>,
) -> Result<Vec<Weighted>, OpFault>
    requires { IsListed left.now }
{
    let key = row(alloc, 7)?;
    let exprs = only_second_column(alloc)?;
    let mut out = Vec::new(alloc);
    if !reads(reduce) || !are_of_key(alloc, &exprs, &key, left)? {
        return Ok(out);
    }
    let op = GroupOp::new(exprs, reduce, two_ints());
    op.part_out(&key, left, &[], &mut out, steps)?;
    Ok(out)
}

// Whether the row is the key 7 and a number.
fn is_output(row: &Row, number: i64) -> bool {
    row.len() == 2 && *row.atom(0) == Atom::Int(7) && *row.atom(1) == Atom::Int(number)
}

// Whether the rows are the key 7 and these numbers, with these weights.
fn are_outputs(list: &[Weighted], wanted: &[(i64, i64, i64)]) -> bool {
    if list.len() != wanted.len() {
        return false;
    }
    for (found, (number, numer, denom)) in list.iter().zip(wanted) {
        if !is_output(&found.row, *number) || found.weight != ratio((*numer, *denom)) {
            return false;
        }
    }
    true
}

// Groups parts by reducers.
fn group_parts<L: Ledger>(rt: &impl Abort, alloc: Global, blank: Blank) -> Result<(), OpFault>
    requires name { blank.name ≡ L.name }
    requires parts { blank.parts ≡ L.parts }
    requires some { 0 < blank.parts }
{
    let mut steps: Steps<L> = Steps::new(blank);
    let odd: &[(i64, i64, i64)] = &[(1, 3, 4), (3, 1, 1)];
    let tied: &[(i64, i64, i64)] = &[(1, 1, 1), (3, 1, 1)];
    let large: &[(i64, i64, i64)] = &[(1, 1, 2), (i64::MAX, 1, 1)];
    let small: &[(i64, i64, i64)] = &[(i64::MIN, 1, 1), (-1, 1, 2)];
    let cases: [(&[(i64, i64, i64)], Reducer, &[(i64, i64, i64)]); 11] = [
        (&[], Reducer::Count, &[]),
        (&[(2, 2, 1)], Reducer::Count, &[(1, 1, 1)]),
        (&[(2, 2, 1)], Reducer::Max(0), &[(2, 1, 1)]),
        (odd, Reducer::Count, &[(1, 1, 8), (2, 3, 8)]),
        (odd, Reducer::Max(0), &[(3, 1, 2)]),
        (odd, Reducer::Min(0), &[(1, 3, 8), (3, 1, 8)]),
        (odd, Reducer::Sum(0), &[(3, 1, 8), (4, 3, 8)]),
        (tied, Reducer::Count, &[(2, 1, 2)]),
        (tied, Reducer::Sum(0), &[(4, 1, 2)]),
        (large, Reducer::Sum(0), &[(i64::MAX, 1, 2)]),
        (small, Reducer::Sum(0), &[(i64::MIN, 1, 2)]),
    ];
    for (rows, reduce, wanted) in cases {
        let left = part(alloc, rows, &mut steps)?;
        let found = grouped(alloc, reduce, left.as_slice(), &mut steps)?;
        assert!(rt; are_outputs(found.as_slice(), wanted));
    }
    Ok(())
}

#[test]
fn rows_of_a_key_are_reduced_at_each_level(rt: HostRuntime) {
    assert_eq!(rt;
        group_parts::<Brand>(&rt, rt.alloc(), Blank::new(1)),
        Ok(())
    );
}

// Groups parts whose gap, half gap and running sum is out of range, and one whose sums are in range.
fn refuse_parts<L: Ledger>(rt: &impl Abort, alloc: Global, blank: Blank) -> Result<(), Memory>
    requires name { blank.name ≡ L.name }
    requires parts { blank.parts ≡ L.parts }
    requires some { 0 < blank.parts }
{
    let mut steps: Steps<L> = Steps::new(blank);
    let apart: &[(i64, i64, i64)] = &[(1, 1, 2305843009213693951), (2, 1, 2305843009213693950)];
    let fine: &[(i64, i64, i64)] = &[(1, 1, 2305843009213693953)];
    let mixed: &[(i64, i64, i64)] = &[
        (1, 2147483649, 2147483648),
        (5, 2, 1),
        (9, 4294967295, 2147483647),
    ];
    let cases: [(&[(i64, i64, i64)], Reducer, Result<usize, OpFault>); 4] = [
        (apart, Reducer::Count, Err(OpFault::Range)),
        (fine, Reducer::Count, Err(OpFault::Range)),
        (mixed, Reducer::Max(0), Err(OpFault::Range)),
        (mixed, Reducer::Count, Ok(3)),
    ];
    for (rows, reduce, wanted) in cases {
        let left = part(alloc, rows, &mut steps)?;
        let found = grouped(alloc, reduce, left.as_slice(), &mut steps);
        assert_eq!(rt; found.map(|list| list.len()), wanted);
    }
    Ok(())
}

#[test]
fn parts_out_of_range_are_refused(rt: HostRuntime) {
    assert_eq!(rt;
        refuse_parts::<Brand>(&rt, rt.alloc(), Blank::new(1)),
        Ok(())
    );
}

// Whether the only key of a row of two numbers is that of its second number, and the right has none.
fn has_second_as_key(alloc: Global, second: i64) -> Result<bool, Memory> {
    let input = pair(alloc, 3, second)?;
    if !input.fits(two_ints()) {
        return Ok(false);
    }
    let op = GroupOp::new(only_second_column(alloc)?, Reducer::Count, two_ints());
    let mut keys = Vec::new(alloc);
    op.touch(Side::Left, &input, &mut keys)?;
    let is_key = match keys.first() {
        Some(key) => keys.len() == 1 && is_row(&key.row, second) && key.weight == Frac::one(),
        None => false,
    };
    op.touch(Side::Right, &input, &mut keys)?;
    Ok(is_key && keys.is_empty())
}

#[test]
fn key_is_what_the_expressions_make(rt: HostRuntime) {
    assert_eq!(rt; has_second_as_key(rt.alloc(), 7), Ok(true));
}
