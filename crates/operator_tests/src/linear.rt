//! Tests of filter and select, key by key.
ghost use Rattle.std.specs.Prelude.{◌≡◌, ◌<◌, IfOk};
ghost use Rattle.weighted_set.specs.Parts.{IsListed};

use op_linear::{FilterOp, SelectOp};
use std::alloc::Global;
use std::marker::Brand;
use std::process::Abort;
use std::sync::ledger::{Blank, Ledger};
use steps::Steps;
use trial_rows::{MOST, is_row, only_second_column, pair, row, second_column, two_ints, whole};
use weighted_set::{Memory, OpFault, PartOp, PartStore, Side, View, Weighted};

// How many rows the part of a row of two numbers gives, once it is tested for its second number.
fn kept<L: Ledger>(alloc: Global, second: i64, steps: &mut Steps<L>) -> Result<usize, OpFault> {
    let input = pair(alloc, 3, second)?;
    if !input.fits(two_ints()) {
        return Ok(0);
    }
    let op = FilterOp::new(second_column(), two_ints());
    let mut left = Vec::new(alloc);
    op.touch(Side::Left, &input, &mut left)?;
    let mut out = Vec::new(alloc);
    op.part_out(&input, left.as_slice(), &[], &mut out, steps)?;
    Ok(out.len())
}

// Keeps the rows whose second number isn't 0.
fn keep_rows<L: Ledger>(rt: &impl Abort, alloc: Global, blank: Blank)
    requires name { blank.name ≡ L.name }
    requires parts { blank.parts ≡ L.parts }
    requires some { 0 < blank.parts }
{
    let mut steps: Steps<L> = Steps::new(blank);
    for (second, count) in [(7, 1), (0, 0), (-1, 1)] {
        assert_eq!(rt; kept(alloc, second, &mut steps), Ok(count));
    }
}

#[test]
fn rows_that_pass_are_kept(rt: HostRuntime) {
    keep_rows::<Brand>(&rt, rt.alloc(), Blank::new(1));
}

/// A part: rows of two numbers, these first ones and 7, with whole weights.
pub fn part<L: Ledger>(
    alloc: Global,
    pairs: &[(i64, i64)],
    steps: &mut Steps<L>,
) -> Result<Vec<Weighted>, Memory>
    ensures { IfOk result (λ list. IsListed list.items) }
{
    let key = row(alloc, 7)?;
    let mut store = PartStore::new(alloc);
    for (first, weight) in pairs {
        let input = pair(alloc, *first, 7)?;
        store.put_pending(&key, &input, whole(*weight), steps)?;
    }
    let mut list = Vec::new(alloc);
    store.read_part(&key, View::Pending, &mut list, steps)?;
    Ok(list)
}

// The whole weight of the row that a part gives, 0 where it gives none.
fn summed<L: Ledger>(alloc: Global, left: &[Weighted], steps: &mut Steps<L>) -> Result<i64, OpFault>
    requires { IsListed left.now }
{
    let key = row(alloc, 7)?;
    let op = SelectOp::new(only_second_column(alloc)?, two_ints(), alloc);
    let mut out = Vec::new(alloc);
    op.part_out(&key, left, &[], &mut out, steps)?;
    match out.first() {
        Some(entry) => Ok(entry.weight.numer()),
        None => Ok(0),
    }
}

// Sums the weights of parts.
fn sum_parts<L: Ledger>(rt: &impl Abort, alloc: Global, blank: Blank) -> Result<(), Memory>
    requires name { blank.name ≡ L.name }
    requires parts { blank.parts ≡ L.parts }
    requires some { 0 < blank.parts }
{
    let mut steps: Steps<L> = Steps::new(blank);
    let cases: [(&[(i64, i64)], Result<i64, OpFault>); 4] = [
        (&[(1, 2), (2, 3)], Ok(5)),
        (&[(1, 2), (2, -2)], Ok(0)),
        (&[(1, MOST), (2, 1), (3, -1)], Err(OpFault::Range)),
        (&[(1, MOST), (2, -1), (3, 1)], Ok(MOST)),
    ];
    for (pairs, sum) in cases {
        let left = part(alloc, pairs, &mut steps)?;
        assert_eq!(rt; summed(alloc, left.as_slice(), &mut steps), sum);
    }
    Ok(())
}

#[test]
fn weights_of_one_row_are_summed(rt: HostRuntime) {
    assert_eq!(rt; sum_parts::<Brand>(&rt, rt.alloc(), Blank::new(1)), Ok(()));
}

// Whether the only key of a row of two numbers is that of its second number.
fn has_second_as_key(alloc: Global, second: i64) -> Result<bool, Memory> {
    let input = pair(alloc, 3, second)?;
    if !input.fits(two_ints()) {
        return Ok(false);
    }
    let op = SelectOp::new(only_second_column(alloc)?, two_ints(), alloc);
    let mut keys = Vec::new(alloc);
    op.touch(Side::Left, &input, &mut keys)?;
    match keys.first() {
        Some(key) => Ok(keys.len() == 1 && is_row(&key.row, second)),
        None => Ok(false),
    }
}

#[test]
fn key_is_the_row_that_is_made(rt: HostRuntime) {
    assert_eq!(rt; has_second_as_key(rt.alloc(), 7), Ok(true));
}
