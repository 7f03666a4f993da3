//! Each operator in both engines, which list the same changes as the inputs of either side change.
ghost use Rattle.std.specs.Prelude.{◌≡◌, ◌<◌};
ghost use Rattle.datasets.specs.Dataset.{empty};
ghost use Rattle.engine_tests.specs.Trials.{Serves};

use crate::turns::{Turn, follow_all};
use engines::{Keyed, Whole};
use op_linear::{FilterOp, ManyOp, SelectOp};
use op_setwise::SetOp;
use op_shave::ShaveOp;
use plan_model::SetKind;
use std::alloc::Global;
use std::marker::Brand;
use std::process::Abort;
use std::sync::ledger::{Blank, Ledger};
use steps::Steps;
use trial_rows::{
    Added, MOST, Shown, one_item, only_second_column, second_column, two_ints, two_pieces,
};
use weighted_set::{AddFault, Operator};

/// Takes two engines of one operator through the same turns.
pub fn follow_both<W: Operator, K: Operator, L: Ledger>(
    rt: &impl Abort,
    alloc: Global,
    whole: &mut W,
    keyed: &mut K,
    turns: &[Turn],
    steps: &mut Steps<L>,
) -> Result<(), AddFault>
    requires whole { Serves W.standing whole.old empty empty }
    requires keyed { Serves K.standing keyed.old empty empty }
{
    follow_all(rt, alloc, whole, turns, steps)?;
    follow_all(rt, alloc, keyed, turns, steps)
}

/// A turn of the left input alone.
pub fn on_left<'a>(left: &'a [Added], is_kept: bool, listed: Option<&'a [Shown<'a>]>) -> Turn<'a> {
    Turn {
        left,
        right: &[],
        is_kept,
        listed,
    }
}

// The rows whose second number isn't 0.
fn filter<L: Ledger>(rt: &impl Abort, alloc: Global, blank: Blank) -> Result<(), AddFault>
    requires name { blank.name ≡ L.name }
    requires parts { blank.parts ≡ L.parts }
    requires some { 0 < blank.parts }
{
    let turns = [
        on_left(
            &[(1, 7, 2, 1), (2, 0, 3, 1)],
            true,
            Some(&[(&[1, 7], (0, 1), (2, 1))]),
        ),
        on_left(
            &[(1, 7, -2, 1), (3, 7, 1, 1)],
            false,
            Some(&[(&[1, 7], (2, 1), (0, 1)), (&[3, 7], (0, 1), (1, 1))]),
        ),
        on_left(&[(1, 7, -1, 1)], true, Some(&[(&[1, 7], (2, 1), (1, 1))])),
        on_left(&[(2, 0, 1, 1)], true, Some(&[])),
    ];
    let mut steps: Steps<L> = Steps::new(blank);
    let filter = FilterOp::new(second_column(), two_ints());
    let mut whole = Whole::new(filter, alloc);
    let other = FilterOp::new(second_column(), two_ints());
    let mut keyed = Keyed::new(other, alloc);
    follow_both(rt, alloc, &mut whole, &mut keyed, &turns, &mut steps)
}

#[test]
fn rows_that_pass_are_followed(rt: HostRuntime) {
    assert_eq!(rt; filter::<Brand>(&rt, rt.alloc(), Blank::new(1)), Ok(()));
}

// The second numbers of rows.
fn select<L: Ledger>(rt: &impl Abort, alloc: Global, blank: Blank) -> Result<(), AddFault>
    requires name { blank.name ≡ L.name }
    requires parts { blank.parts ≡ L.parts }
    requires some { 0 < blank.parts }
{
    let turns = [
        on_left(
            &[(1, 7, 2, 1), (2, 7, 3, 1), (3, 8, 1, 1)],
            true,
            Some(&[(&[7], (0, 1), (5, 1)), (&[8], (0, 1), (1, 1))]),
        ),
        on_left(&[(4, 7, MOST, 1)], true, None),
        on_left(&[(1, 7, -2, 1)], false, Some(&[(&[7], (5, 1), (3, 1))])),
        on_left(&[(1, 7, -2, 1), (2, 7, 2, 1)], true, Some(&[])),
        on_left(
            &[(3, 8, -1, 1), (5, 9, 1, 1)],
            true,
            Some(&[(&[8], (1, 1), (0, 1)), (&[9], (0, 1), (1, 1))]),
        ),
        on_left(&[(2, 7, -5, 1)], false, Some(&[(&[7], (5, 1), (0, 1))])),
        on_left(&[], true, Some(&[])),
        on_left(
            &[(2, 7, -5, 1), (4, 7, MOST, 1)],
            true,
            Some(&[(&[7], (5, 1), (MOST, 1))]),
        ),
    ];
    let mut steps: Steps<L> = Steps::new(blank);
    let select = SelectOp::new(only_second_column(alloc)?, two_ints(), alloc);
    let mut whole = Whole::new(select, alloc);
    let other = SelectOp::new(only_second_column(alloc)?, two_ints(), alloc);
    let mut keyed = Keyed::new(other, alloc);
    follow_both(rt, alloc, &mut whole, &mut keyed, &turns, &mut steps)
}

#[test]
fn sums_of_rows_are_followed(rt: HostRuntime) {
    assert_eq!(rt; select::<Brand>(&rt, rt.alloc(), Blank::new(1)), Ok(()));
}

// The second numbers of rows, by a factor of 3/4.
fn many<L: Ledger>(rt: &impl Abort, alloc: Global, blank: Blank) -> Result<(), AddFault>
    requires name { blank.name ≡ L.name }
    requires parts { blank.parts ≡ L.parts }
    requires some { 0 < blank.parts }
{
    let turns = [
        on_left(
            &[(1, 7, 2, 1), (2, 7, 3, 1)],
            true,
            Some(&[(&[7], (0, 1), (15, 4))]),
        ),
        on_left(&[(1, 7, -2, 1)], false, Some(&[(&[7], (15, 4), (9, 4))])),
        on_left(&[(4, 7, MOST, 1)], true, None),
        on_left(&[(4, 9, 1, 1)], true, Some(&[(&[9], (0, 1), (3, 4))])),
        on_left(&[(2, 7, -3, 1)], true, Some(&[(&[7], (15, 4), (3, 2))])),
    ];
    let mut steps: Steps<L> = Steps::new(blank);
    let many = ManyOp::new(4, one_item(alloc)?, two_ints(), alloc);
    let mut whole = Whole::new(many, alloc);
    let other = ManyOp::new(4, one_item(alloc)?, two_ints(), alloc);
    let mut keyed = Keyed::new(other, alloc);
    follow_both(rt, alloc, &mut whole, &mut keyed, &turns, &mut steps)
}

#[test]
fn shares_of_rows_are_followed(rt: HostRuntime) {
    assert_eq!(rt; many::<Brand>(&rt, rt.alloc(), Blank::new(1)), Ok(()));
}

// The first two pieces of 1 of the weights of rows.
fn shave<L: Ledger>(rt: &impl Abort, alloc: Global, blank: Blank) -> Result<(), AddFault>
    requires name { blank.name ≡ L.name }
    requires parts { blank.parts ≡ L.parts }
    requires some { 0 < blank.parts }
{
    let turns = [
        on_left(
            &[(1, 7, 3, 1)],
            true,
            Some(&[(&[1, 7, 0], (0, 1), (1, 1)), (&[1, 7, 1], (0, 1), (1, 1))]),
        ),
        on_left(
            &[(1, 7, -2, 1)],
            false,
            Some(&[(&[1, 7, 1], (1, 1), (0, 1))]),
        ),
        on_left(
            &[(1, 7, -3, 1), (2, 7, 1, 1)],
            true,
            Some(&[
                (&[1, 7, 0], (1, 1), (0, 1)),
                (&[1, 7, 1], (1, 1), (0, 1)),
                (&[2, 7, 0], (0, 1), (1, 1)),
            ]),
        ),
        on_left(
            &[(2, 7, -2, 1)],
            true,
            Some(&[(&[2, 7, 0], (1, 1), (0, 1))]),
        ),
    ];
    let mut steps: Steps<L> = Steps::new(blank);
    let shave = ShaveOp::new(two_pieces(alloc)?, two_ints());
    let mut whole = Whole::new(shave, alloc);
    let other = ShaveOp::new(two_pieces(alloc)?, two_ints());
    let mut keyed = Keyed::new(other, alloc);
    follow_both(rt, alloc, &mut whole, &mut keyed, &turns, &mut steps)
}

#[test]
fn pieces_of_rows_are_followed(rt: HostRuntime) {
    assert_eq!(rt; shave::<Brand>(&rt, rt.alloc(), Blank::new(1)), Ok(()));
}

// A set operator on rows with weights on both sides; each turn has what is listed.
fn set<L: Ledger>(
    rt: &impl Abort,
    alloc: Global,
    kind: SetKind,
    listed: [Option<&[Shown]>; 4],
    blank: Blank,
) -> Result<(), AddFault>
    requires name { blank.name ≡ L.name }
    requires parts { blank.parts ≡ L.parts }
    requires some { 0 < blank.parts }
{
    let turns = [
        Turn {
            left: &[(1, 7, 2, 1)],
            right: &[(1, 7, 3, 1), (2, 7, 1, 1)],
            is_kept: true,
            listed: listed[0],
        },
        Turn {
            left: &[],
            right: &[(1, 7, -3, 1)],
            is_kept: false,
            listed: listed[1],
        },
        Turn {
            left: &[(2, 7, 4, 1)],
            right: &[(2, 7, -1, 1)],
            is_kept: true,
            listed: listed[2],
        },
        on_left(&[(1, 7, MOST - 2, 1)], true, listed[3]),
    ];
    let mut steps: Steps<L> = Steps::new(blank);
    let set = SetOp::new(kind, two_ints());
    let mut whole = Whole::new(set, alloc);
    let other = SetOp::new(kind, two_ints());
    let mut keyed = Keyed::new(other, alloc);
    follow_both(rt, alloc, &mut whole, &mut keyed, &turns, &mut steps)
}

#[test]
fn unions_are_followed(rt: HostRuntime) {
    let listed: [Option<&[Shown]>; 4] = [
        Some(&[(&[1, 7], (0, 1), (3, 1)), (&[2, 7], (0, 1), (1, 1))]),
        Some(&[(&[1, 7], (3, 1), (2, 1))]),
        Some(&[(&[2, 7], (1, 1), (4, 1))]),
        Some(&[(&[1, 7], (3, 1), (MOST, 1))]),
    ];
    assert_eq!(rt;
        set::<Brand>(&rt, rt.alloc(), SetKind::Union, listed, Blank::new(1)),
        Ok(())
    );
}

#[test]
fn intersections_are_followed(rt: HostRuntime) {
    let listed: [Option<&[Shown]>; 4] = [
        Some(&[(&[1, 7], (0, 1), (2, 1))]),
        Some(&[(&[1, 7], (2, 1), (0, 1))]),
        Some(&[]),
        Some(&[(&[1, 7], (2, 1), (3, 1))]),
    ];
    assert_eq!(rt;
        set::<Brand>(&rt, rt.alloc(), SetKind::Intersect, listed, Blank::new(1)),
        Ok(())
    );
}

#[test]
fn sums_of_inputs_are_followed(rt: HostRuntime) {
    let listed: [Option<&[Shown]>; 4] = [
        Some(&[(&[1, 7], (0, 1), (5, 1)), (&[2, 7], (0, 1), (1, 1))]),
        Some(&[(&[1, 7], (5, 1), (2, 1))]),
        Some(&[(&[2, 7], (1, 1), (4, 1))]),
        None,
    ];
    assert_eq!(rt;
        set::<Brand>(&rt, rt.alloc(), SetKind::Concat, listed, Blank::new(1)),
        Ok(())
    );
}

#[test]
fn differences_of_inputs_are_followed(rt: HostRuntime) {
    let listed: [Option<&[Shown]>; 4] = [
        Some(&[(&[1, 7], (0, 1), (-1, 1)), (&[2, 7], (0, 1), (-1, 1))]),
        Some(&[(&[1, 7], (-1, 1), (2, 1))]),
        Some(&[(&[2, 7], (-1, 1), (4, 1))]),
        Some(&[(&[1, 7], (-1, 1), (MOST - 3, 1))]),
    ];
    assert_eq!(rt;
        set::<Brand>(&rt, rt.alloc(), SetKind::Except, listed, Blank::new(1)),
        Ok(())
    );
}
