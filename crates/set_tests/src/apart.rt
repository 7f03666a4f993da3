//! How far apart a source and its count are, before and after an update.
use frac_core::Frac;
use std::alloc::Global;
use std::test::Fail;
use trial_rows::{pair, row};
use weighted_set::{Memory, WSet};

// So many eighths.
fn eighths(number: i64) -> Frac {
    match Frac::new(number, 8) {
        Ok(weight) => weight,
        Err(_) => Frac::zero(),
    }
}

// Rows of one number, each with so many eighths.
fn source(alloc: Global, rows: &[(i64, i64)]) -> Result<WSet, Memory> {
    let mut set = WSet::new(alloc);
    for (number, weight) in rows {
        set.set(row(alloc, *number)?, eighths(*weight))?;
    }
    Ok(set)
}

// Rows of a key and a count, each with so many eighths.
fn counts(alloc: Global, rows: &[(i64, i64, i64)]) -> Result<WSet, Memory> {
    let mut set = WSet::new(alloc);
    for (key, count, weight) in rows {
        set.set(pair(alloc, *key, *count)?, eighths(*weight))?;
    }
    Ok(set)
}

// The distance, in eighths.
fn is_apart(first: &WSet, second: &WSet, wanted: i64) -> bool {
    first.distance(second) == Some(eighths(wanted))
}

// The rows 1, 2 and 3, counted by parity. The row 1 has 3/4, and then 1.
#[test]
fn a_count_moves_as_far_as_its_source(rt: HostRuntime) -> Result<(), Fail> {
    let before = source(rt.alloc(), &[(1, 6), (2, 16), (3, 8)])?;
    let after = source(rt.alloc(), &[(1, 8), (2, 16), (3, 8)])?;
    assert!(rt; is_apart(&before, &after, 2));
    let counted = counts(rt.alloc(), &[(0, 1, 8), (1, 1, 1), (1, 2, 3)])?;
    let counted_after = counts(rt.alloc(), &[(0, 1, 8), (1, 2, 4)])?;
    assert!(rt; is_apart(&counted, &counted_after, 2));
    Ok(())
}
