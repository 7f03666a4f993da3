//! Tests of many, shave and the set operators, key by key.
ghost use Rattle.std.specs.Prelude.{◌≡◌, ◌<◌};
ghost use Rattle.trial_rows.specs.Columns.{two_ints};
ghost use Rattle.weighted_set.specs.Parts.{IsListed};

use crate::linear::part;
use op_linear::ManyOp;
use op_setwise::SetOp;
use op_shave::ShaveOp;
use plan_model::SetKind;
use std::alloc::Global;
use std::marker::Brand;
use std::process::Abort;
use std::sync::ledger::{Blank, Ledger};
use steps::Steps;
use trial_rows::{one_item, only_second_column, pair, row, two_ints, two_pieces};
use weighted_set::{Memory, OpFault, PartOp, Side, Weighted};

// The numerator and the denominator of the weight of the first row, of 0 where there is none.
fn first_weight(list: &[Weighted]) -> (i64, i64) {
    match list.first() {
        Some(entry) => (entry.weight.numer(), entry.weight.denom()),
        None => (0, 1),
    }
}

// What a set operator makes of a row that weighs 1 on both sides.
fn combined<L: Ledger>(
    alloc: Global,
    kind: SetKind,
    steps: &mut Steps<L>,
) -> Result<(i64, i64), OpFault> {
    let input = pair(alloc, 3, 7)?;
    if !input.fits(two_ints()) {
        return Ok((0, 0));
    }
    let op = SetOp::new(kind, two_ints());
    let mut left = Vec::new(alloc);
    op.touch(Side::Left, &input, &mut left)?;
    let mut right = Vec::new(alloc);
    op.touch(Side::Right, &input, &mut right)?;
    let mut out = Vec::new(alloc);
    op.part_out(&input, left.as_slice(), right.as_slice(), &mut out, steps)?;
    Ok(first_weight(out.as_slice()))
}

// Combines the weights of one row.
fn combine<L: Ledger>(rt: &impl Abort, alloc: Global, blank: Blank)
    requires name { blank.name ≡ L.name }
    requires parts { blank.parts ≡ L.parts }
    requires some { 0 < blank.parts }
{
    let mut steps: Steps<L> = Steps::new(blank);
    for (kind, weight) in [
        (SetKind::Union, (1, 1)),
        (SetKind::Intersect, (1, 1)),
        (SetKind::Concat, (2, 1)),
        (SetKind::Except, (0, 1)),
    ] {
        assert_eq!(rt; combined(alloc, kind, &mut steps), Ok(weight));
    }
}

#[test]
fn two_weights_of_a_row_are_combined(rt: HostRuntime) {
    combine::<Brand>(&rt, rt.alloc(), Blank::new(1));
}

// How many pieces a row of weight 1 has, of the two.
fn shaved<L: Ledger>(alloc: Global, steps: &mut Steps<L>) -> Result<usize, OpFault> {
    let input = pair(alloc, 3, 7)?;
    if !input.fits(two_ints()) {
        return Ok(0);
    }
    let op = ShaveOp::new(two_pieces(alloc)?, two_ints());
    let mut left = Vec::new(alloc);
    op.touch(Side::Left, &input, &mut left)?;
    let mut out = Vec::new(alloc);
    op.part_out(&input, left.as_slice(), &[], &mut out, steps)?;
    Ok(out.len())
}

// Cuts the weight of a row.
fn shave<L: Ledger>(rt: &impl Abort, alloc: Global, blank: Blank)
    requires name { blank.name ≡ L.name }
    requires parts { blank.parts ≡ L.parts }
    requires some { 0 < blank.parts }
{
    let mut steps: Steps<L> = Steps::new(blank);
    assert_eq!(rt; shaved(alloc, &mut steps), Ok(1));
}

#[test]
fn pieces_end_with_the_weight(rt: HostRuntime) {
    shave::<Brand>(&rt, rt.alloc(), Blank::new(1));
}

// The factor of a row at the row of its second number.
fn factor(op: &ManyOp, alloc: Global) -> Result<(i64, i64), Memory>
    requires { op.now.cols ≡ two_ints }
{
    let input = pair(alloc, 3, 7)?;
    if !input.fits(two_ints()) {
        return Ok((0, 0));
    }
    let mut keys = Vec::new(alloc);
    op.touch(Side::Left, &input, &mut keys)?;
    Ok(first_weight(keys.as_slice()))
}

// What the rows of a part weigh together.
fn gathered<L: Ledger>(
    op: &ManyOp,
    alloc: Global,
    left: &[Weighted],
    steps: &mut Steps<L>,
) -> Result<(i64, i64), OpFault>
    requires { IsListed left.now }
{
    let key = row(alloc, 7)?;
    let mut out = Vec::new(alloc);
    op.part_out(&key, left, &[], &mut out, steps)?;
    Ok(first_weight(out.as_slice()))
}

// Spreads a row over a row, and gathers the weights of another.
fn spread<L: Ledger>(rt: &impl Abort, alloc: Global, blank: Blank) -> Result<(), Memory>
    requires name { blank.name ≡ L.name }
    requires parts { blank.parts ≡ L.parts }
    requires some { 0 < blank.parts }
{
    let mut steps: Steps<L> = Steps::new(blank);
    let op = ManyOp::new(4, one_item(alloc)?, two_ints(), alloc);
    assert_eq!(rt; factor(&op, alloc), Ok((3, 4)));
    let left = part(alloc, &[(1, 2), (2, 3)], &mut steps)?;
    assert_eq!(rt;
        gathered(&op, alloc, left.as_slice(), &mut steps),
        Ok((5, 1))
    );
    Ok(())
}

#[test]
fn a_row_is_spread_by_shares(rt: HostRuntime) {
    assert_eq!(rt; spread::<Brand>(&rt, rt.alloc(), Blank::new(1)), Ok(()));
}
