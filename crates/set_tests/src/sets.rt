//! Tests of sets of weights, and of lists of sets.
use frac_core::Frac;
use std::alloc::Global;
use std::test::Fail;
use trial_rows::{MOST, are_changes, are_weights, is_row, row, weights, whole};
use weighted_set::{AddFault, HeldSet, Memory, SourceSet, WSet, law_changes};

// Adds whole weights to rows of one number, and then commits or drops the changes. Answers how many there were.
fn add(
    set: &mut HeldSet,
    alloc: Global,
    pairs: &[(i64, i64)],
    signed: bool,
    is_kept: bool,
) -> Result<usize, AddFault> {
    // Nothing is pending.
    set.abort();
    let added = weights(alloc, pairs)?;
    let changes = set.changes_of(added.as_slice(), signed)?;
    law_changes();
    set.prepare(changes.as_slice())?;
    if is_kept {
        set.commit();
    } else {
        set.abort();
    }
    Ok(changes.len())
}

// Whether the committed rows are these of one number, with these whole weights.
fn holds(set: &HeldSet, wanted: &[(i64, i64)]) -> bool {
    if set.len() != wanted.len() {
        return false;
    }
    for (at, (number, weight)) in wanted.iter().enumerate() {
        let (row, held) = set.entry(at);
        if !is_row(row, *number) || held != whole(*weight) || set.weight(row) != held {
            return false;
        }
    }
    true
}

#[test]
fn weights_are_added_or_refused_as_a_whole(rt: HostRuntime) -> Result<(), Fail> {
    let batches: [(&[(i64, i64)], bool, Result<usize, AddFault>); 9] = [
        (&[(7, 1), (7, -1)], false, Ok(0)),
        (&[(3, 2), (1, 1), (-4, 5)], false, Ok(3)),
        (&[(3, -1), (3, 2)], false, Ok(1)),
        (&[(5, -1), (5, 2)], false, Ok(1)),
        (&[(8, 1), (1, -2)], false, Err(AddFault::Negative { at: 1 })),
        (&[(1, -2), (1, 1)], false, Ok(1)),
        (
            &[(9, MOST), (9, 1), (9, -5)],
            false,
            Err(AddFault::Range { at: 1 }),
        ),
        (
            &[(1, -5), (9, MOST), (9, 1)],
            false,
            Err(AddFault::Range { at: 2 }),
        ),
        (&[(6, -3), (-4, -5)], true, Ok(2)),
    ];
    let mut set = HeldSet::new(rt.alloc());
    for (pairs, signed, answer) in batches {
        assert_eq!(rt; add(&mut set, rt.alloc(), pairs, signed, true), answer);
    }
    assert!(rt; holds(&set, &[(3, 3), (5, 1), (6, -3)]));
    assert_eq!(rt; set.weight(&row(rt.alloc(), 1)?), Frac::zero());
    Ok(())
}

#[test]
fn changes_list_each_row_once(rt: HostRuntime) -> Result<(), Fail> {
    let mut set = HeldSet::new(rt.alloc());
    let added = weights(rt.alloc(), &[(2, 1), (1, 4), (2, 1)])?;
    let changes = set.changes_of(added.as_slice(), false)?;
    let wanted = [(1, 0, 4), (2, 0, 2)];
    assert!(rt; are_changes(changes.as_slice(), &wanted));
    law_changes();
    set.prepare(changes.as_slice())?;
    assert!(rt; holds(&set, &[]));
    set.commit();
    assert!(rt; are_changes(set.all_changes()?.as_slice(), &wanted));
    Ok(())
}

#[test]
fn changes_are_committed_or_aborted(rt: HostRuntime) {
    let batches: [(&[(i64, i64)], bool, usize, &[(i64, i64)]); 4] = [
        (&[(2, 1), (1, 4), (2, 1)], false, 2, &[]),
        (&[(2, 1), (1, 4), (2, 1)], true, 2, &[(1, 4), (2, 2)]),
        (&[(1, -4)], false, 1, &[(1, 4), (2, 2)]),
        (&[(1, -4)], true, 1, &[(2, 2)]),
    ];
    let mut set = HeldSet::new(rt.alloc());
    for (pairs, is_kept, count, rows) in batches {
        assert_eq!(rt; add(&mut set, rt.alloc(), pairs, false, is_kept), Ok(count));
        assert!(rt; holds(&set, rows));
    }
}

// Whether the sets of a list have these numbers of rows.
fn have_lens(sources: &SourceSet, lens: &[usize]) -> bool {
    if sources.len() != lens.len() {
        return false;
    }
    for (at, len) in lens.iter().enumerate() {
        if sources.at(at).len() != *len {
            return false;
        }
    }
    true
}

#[test]
fn a_list_keeps_its_sets_in_order(rt: HostRuntime) -> Result<(), Fail> {
    let mut sources = SourceSet::new(rt.alloc());
    sources.push(HeldSet::new(rt.alloc()))?;
    sources.push(HeldSet::new(rt.alloc()))?;
    let added = add(
        sources.at_mut(1),
        rt.alloc(),
        &[(2, 1), (1, 4)],
        false,
        true,
    );
    assert_eq!(rt; added, Ok(2));
    assert!(rt; have_lens(&sources, &[0, 2]));
    assert_eq!(rt; sources.len(), 2);
    sources.drop_last();
    assert!(rt; have_lens(&sources, &[0]));
    Ok(())
}

// A set of rows of one number, with whole weights.
fn set_of(alloc: Global, pairs: &[(i64, i64)]) -> Result<WSet, Memory> {
    let mut set = WSet::new(alloc);
    for (number, weight) in pairs {
        set.set(row(alloc, *number)?, whole(*weight))?;
    }
    Ok(set)
}

// Whether the rows are these of one number, with these whole weights.
fn has(set: &WSet, wanted: &[(i64, i64)]) -> bool {
    if set.len() != wanted.len() {
        return false;
    }
    for (at, (number, weight)) in wanted.iter().enumerate() {
        let (row, held) = set.entry(at);
        if !is_row(row, *number) || held != whole(*weight) || set.weight(row) != held {
            return false;
        }
    }
    true
}

#[test]
fn a_set_holds_the_weights_that_were_set(rt: HostRuntime) -> Result<(), Fail> {
    let set = set_of(rt.alloc(), &[(3, 1), (7, 2), (-1, -2), (3, 4), (7, 0)])?;
    assert!(rt; has(&set, &[(-1, -2), (3, 4)]));
    assert_eq!(rt; set.weight(&row(rt.alloc(), 7)?), Frac::zero());
    Ok(())
}

#[test]
fn a_set_moves_its_rows_behind_a_list(rt: HostRuntime) -> Result<(), Fail> {
    let set = set_of(rt.alloc(), &[(3, 4), (-1, -2)])?;
    let mut list = weights(rt.alloc(), &[(9, 9)])?;
    set.append_to(&mut list)?;
    assert!(rt; are_weights(list.as_slice(), &[(9, 9), (-1, -2), (3, 4)]));
    Ok(())
}

// The numerator and the denominator.
fn parts(weight: Option<Frac>) -> Option<(i64, i64)> {
    match weight {
        Some(weight) => Some((weight.numer(), weight.denom())),
        None => None,
    }
}

fn norm_of(alloc: Global, pairs: &[(i64, i64)]) -> Result<Option<(i64, i64)>, Memory> {
    let set = set_of(alloc, pairs)?;
    Ok(parts(set.norm()))
}

fn distance_of(
    alloc: Global,
    pairs: &[(i64, i64)],
    others: &[(i64, i64)],
) -> Result<Option<(i64, i64)>, Memory> {
    let set = set_of(alloc, pairs)?;
    let other = set_of(alloc, others)?;
    Ok(parts(set.distance(&other)))
}

#[test]
fn norms_are_sums_in_row_order(rt: HostRuntime) {
    let norms: [(&[(i64, i64)], Option<(i64, i64)>); 4] = [
        (&[], Some((0, 1))),
        (&[(3, 4), (-1, -2)], Some((6, 1))),
        (&[(3, MOST)], Some((MOST, 1))),
        (&[(3, MOST), (4, -1)], None),
    ];
    for (pairs, answer) in norms {
        assert_eq!(rt; norm_of(rt.alloc(), pairs), Ok(answer));
    }
}

#[test]
fn distances_are_sums_in_row_order(rt: HostRuntime) {
    let distances: [(&[(i64, i64)], &[(i64, i64)], Option<(i64, i64)>); 5] = [
        (
            &[(3, 4), (-1, -2)],
            &[(-1, 1), (9, 5), (4, 2)],
            Some((14, 1)),
        ),
        (&[(3, MOST)], &[(3, MOST), (4, 1)], Some((1, 1))),
        (&[(3, MOST)], &[(4, 1)], None),
        (&[(3, 1)], &[(4, MOST)], None),
        (&[(3, MOST)], &[(3, -1)], None),
    ];
    for (pairs, others, answer) in distances {
        assert_eq!(rt; distance_of(rt.alloc(), pairs, others), Ok(answer));
    }
}
