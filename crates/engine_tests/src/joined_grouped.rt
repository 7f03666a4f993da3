//! Joins and groups in both engines, which list the same changes as rows of either side come and go.
ghost use Rattle.std.specs.Prelude.{◌≡◌, ◌<◌};

use crate::both_engines::{follow_both, on_left};
use crate::turns::Turn;
use engines::{Keyed, Whole};
use op_groupby::GroupOp;
use op_join::JoinOp;
use plan_model::Reducer;
use std::alloc::Global;
use std::marker::Brand;
use std::process::Abort;
use std::sync::ledger::{Blank, Ledger};
use steps::Steps;
use trial_rows::{MOST, Shown, only_first_column, only_second_column, two_ints};
use weighted_set::AddFault;

// Each row of the left with each of the right whose first number is its second.
fn join<L: Ledger>(
    rt: &impl Abort,
    alloc: Global,
    turns: &[Turn],
    blank: Blank,
) -> Result<(), AddFault>
    requires name { blank.name ≡ L.name }
    requires parts { blank.parts ≡ L.parts }
    requires some { 0 < blank.parts }
{
    let mut steps: Steps<L> = Steps::new(blank);
    let left_key = only_second_column(alloc)?;
    let right_key = only_first_column(alloc)?;
    let join = JoinOp::new(left_key, right_key, two_ints(), two_ints(), alloc);
    let mut whole = Whole::new(join, alloc);
    let left_key = only_second_column(alloc)?;
    let right_key = only_first_column(alloc)?;
    let other = JoinOp::new(left_key, right_key, two_ints(), two_ints(), alloc);
    let mut keyed = Keyed::new(other, alloc);
    follow_both(rt, alloc, &mut whole, &mut keyed, turns, &mut steps)
}

// Edges of both sides come and go: every pair of the changed key has another weight then.
#[test]
fn pairs_are_followed(rt: HostRuntime) {
    let turns = [
        Turn {
            left: &[(1, 7, 1, 1), (2, 7, 1, 1)],
            right: &[(7, 5, 2, 1)],
            is_kept: true,
            listed: Some(&[
                (&[1, 7, 7, 5], (0, 1), (1, 2)),
                (&[2, 7, 7, 5], (0, 1), (1, 2)),
            ]),
        },
        on_left(
            &[(1, 7, -1, 1)],
            false,
            Some(&[
                (&[1, 7, 7, 5], (1, 2), (0, 1)),
                (&[2, 7, 7, 5], (1, 2), (2, 3)),
            ]),
        ),
        Turn {
            left: &[],
            right: &[(7, 5, -2, 1), (8, 6, 1, 1)],
            is_kept: true,
            listed: Some(&[
                (&[1, 7, 7, 5], (1, 2), (0, 1)),
                (&[2, 7, 7, 5], (1, 2), (0, 1)),
            ]),
        },
        Turn {
            left: &[(3, 8, 3, 1)],
            right: &[(7, 5, 1, 1)],
            is_kept: true,
            listed: Some(&[
                (&[1, 7, 7, 5], (0, 1), (1, 3)),
                (&[2, 7, 7, 5], (0, 1), (1, 3)),
                (&[3, 8, 8, 6], (0, 1), (3, 4)),
            ]),
        },
        on_left(&[(4, 9, 1, 1)], true, Some(&[])),
    ];
    assert_eq!(rt;
        join::<Brand>(&rt, rt.alloc(), &turns, Blank::new(1)),
        Ok(())
    );
}

// A running sum of a norm, the sum of both norms or a pair may be out of range, on keys with rows on both sides alone.
#[test]
fn norms_of_paired_keys_are_in_range(rt: HostRuntime) {
    let turns = [
        on_left(&[(1, 7, MOST, 1), (2, 7, 1, 1)], true, Some(&[])),
        Turn {
            left: &[],
            right: &[(7, 3, 1, 1)],
            is_kept: true,
            listed: None,
        },
        on_left(&[(2, 7, -1, 1)], true, Some(&[])),
        Turn {
            left: &[],
            right: &[(7, 3, 1, 1)],
            is_kept: true,
            listed: None,
        },
        Turn {
            left: &[(1, 7, -MOST, 1), (1, 1, 3145728, 1)],
            right: &[
                (1, 1, 1, 1099511627776),
                (1, 3, 1152921504606846975, 1099511627776),
            ],
            is_kept: true,
            listed: Some(&[
                (&[1, 1, 1, 1], (0, 1), (3, 4398046511104)),
                (&[1, 1, 1, 3], (0, 1), (3458764513820540925, 4398046511104)),
            ]),
        },
    ];
    assert_eq!(rt;
        join::<Brand>(&rt, rt.alloc(), &turns, Blank::new(1)),
        Ok(())
    );
}

// How many rows each second number has, by the levels of their weights.
fn group<L: Ledger>(rt: &impl Abort, alloc: Global, blank: Blank) -> Result<(), AddFault>
    requires name { blank.name ≡ L.name }
    requires parts { blank.parts ≡ L.parts }
    requires some { 0 < blank.parts }
{
    let turns = [
        on_left(
            &[(1, 7, 2, 1), (2, 7, 1, 1), (3, 8, 1, 1)],
            true,
            Some(&[
                (&[7, 1], (0, 1), (1, 2)),
                (&[7, 2], (0, 1), (1, 2)),
                (&[8, 1], (0, 1), (1, 2)),
            ]),
        ),
        on_left(
            &[(2, 7, 1, 1)],
            false,
            Some(&[(&[7, 1], (1, 2), (0, 1)), (&[7, 2], (1, 2), (1, 1))]),
        ),
        on_left(&[(1, 7, -2, 1)], true, Some(&[(&[7, 2], (1, 2), (0, 1))])),
        on_left(&[], true, Some(&[])),
        on_left(&[(3, 8, 1, 4)], true, Some(&[(&[8, 1], (1, 2), (5, 8))])),
        on_left(&[(4, 9, 1, 2305843009213693952)], true, None),
    ];
    let mut steps: Steps<L> = Steps::new(blank);
    let group = GroupOp::new(only_second_column(alloc)?, Reducer::Count, two_ints());
    let mut whole = Whole::new(group, alloc);
    let other = GroupOp::new(only_second_column(alloc)?, Reducer::Count, two_ints());
    let mut keyed = Keyed::new(other, alloc);
    follow_both(rt, alloc, &mut whole, &mut keyed, &turns, &mut steps)
}

#[test]
fn levels_are_followed(rt: HostRuntime) {
    assert_eq!(rt; group::<Brand>(&rt, rt.alloc(), Blank::new(1)), Ok(()));
}
