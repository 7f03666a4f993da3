//! Tests of stores of weights by key.
ghost use Rattle.std.specs.Prelude.{◌≡◌, ◌<◌};

use frac_core::Frac;
use std::alloc::Global;
use std::marker::Brand;
use std::process::Abort;
use std::sync::ledger::{Blank, Ledger};
use steps::Steps;
use trial_rows::{are_weights, row, whole};
use weighted_set::{Memory, PartStore, View};

// Makes whole weights pending, each of a key and a row of one number.
fn put_weights<L: Ledger>(
    alloc: Global,
    store: &mut PartStore,
    puts: &[(i64, i64, i64)],
    steps: &mut Steps<L>,
) -> Result<(), Memory> {
    for (key, number, weight) in puts {
        let key = row(alloc, *key)?;
        let row = row(alloc, *number)?;
        store.put_pending(&key, &row, whole(*weight), steps)?;
    }
    Ok(())
}

// Commits or drops what is pending, or leaves it.
fn settle(store: &mut PartStore, is_kept: Option<bool>) {
    match is_kept {
        Some(true) => store.commit(),
        Some(false) => store.abort(),
        None => {}
    }
}

// Whether a key's rows of one number and their whole weights in a view are these.
fn has_part<L: Ledger>(
    alloc: Global,
    store: &PartStore,
    key: i64,
    view: View,
    wanted: &[(i64, i64)],
    steps: &mut Steps<L>,
) -> Result<bool, Memory> {
    let key = row(alloc, key)?;
    let mut part = Vec::new(alloc);
    store.read_part(&key, view, &mut part, steps)?;
    Ok(are_weights(part.as_slice(), wanted))
}

// The weight of a row of one number at a key.
fn weight_of<L: Ledger>(
    alloc: Global,
    store: &PartStore,
    key: i64,
    number: i64,
    steps: &mut Steps<L>,
) -> Result<Frac, Memory> {
    let key = row(alloc, key)?;
    let row = row(alloc, number)?;
    Ok(store.weight(&key, &row, steps))
}

// Puts weights in turns; each has what is put, whether it is kept, and a key with its part in a view.
fn turn_parts<L: Ledger>(
    rt: &impl Abort,
    alloc: Global,
    store: &mut PartStore,
    steps: &mut Steps<L>,
) -> Result<(), Memory> {
    let turns: [(&[(i64, i64, i64)], Option<bool>, i64, View, &[(i64, i64)]); 6] = [
        (
            &[(1, 5, 3), (2, 5, 8), (1, -5, 1)],
            None,
            1,
            View::Committed,
            &[],
        ),
        (&[], None, 1, View::Pending, &[(-5, 1), (5, 3)]),
        (&[], Some(true), 1, View::Committed, &[(-5, 1), (5, 3)]),
        (
            &[(1, 5, 0), (2, 5, 0)],
            Some(false),
            2,
            View::Pending,
            &[(5, 8)],
        ),
        (
            &[(1, 5, 0), (2, 5, 0)],
            Some(true),
            1,
            View::Committed,
            &[(-5, 1)],
        ),
        (&[], None, 2, View::Committed, &[]),
    ];
    for (puts, is_kept, key, view, part) in turns {
        put_weights(alloc, store, puts, steps)?;
        settle(store, is_kept);
        assert!(rt; has_part(alloc, store, key, view, part, steps)?);
    }
    Ok(())
}

fn change_parts<L: Ledger>(rt: &impl Abort, alloc: Global, blank: Blank) -> Result<(), Memory>
    requires name { blank.name ≡ L.name }
    requires parts { blank.parts ≡ L.parts }
    requires some { 0 < blank.parts }
{
    let mut steps: Steps<L> = Steps::new(blank);
    let mut store = PartStore::new(alloc);
    turn_parts(rt, alloc, &mut store, &mut steps)?;
    for (key, number, weight) in [(1, -5, 1), (2, 5, 0)] {
        assert_eq!(rt;
            weight_of(alloc, &store, key, number, &mut steps),
            Ok(whole(weight))
        );
    }
    Ok(())
}

#[test]
fn parts_are_changed_by_key(rt: HostRuntime) {
    assert_eq!(rt;
        change_parts::<Brand>(&rt, rt.alloc(), Blank::new(1)),
        Ok(())
    );
}
