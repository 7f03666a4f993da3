//! What tests compare lists with: it tells rows, weights and lengths apart.
use std::alloc::Global;
use std::test::Fail;
use trial_rows::{Shown, are_changes, are_shown, are_weights, is_row, pair, row, weights, whole};
use weighted_set::{Change, Memory};

#[test]
fn rows_are_told_apart(rt: HostRuntime) -> Result<(), Fail> {
    let seven = row(rt.alloc(), 7)?;
    assert!(rt; is_row(&seven, 7));
    assert!(rt; !is_row(&seven, 8));
    assert!(rt; !is_row(&pair(rt.alloc(), 7, 7)?, 7));
    Ok(())
}

#[test]
fn lists_of_weights_are_told_apart(rt: HostRuntime) -> Result<(), Fail> {
    let list = weights(rt.alloc(), &[(7, 2)])?;
    let cases: [(&[(i64, i64)], bool); 5] = [
        (&[(7, 2)], true),
        (&[(8, 2)], false),
        (&[(7, -2)], false),
        (&[], false),
        (&[(7, 2), (8, 1)], false),
    ];
    for (wanted, is_same) in cases {
        assert_eq!(rt; are_weights(list.as_slice(), wanted), is_same);
    }
    Ok(())
}

// The change of the row of 7 from the weight 1 to 2.
fn one_change(alloc: Global) -> Result<Vec<Change>, Memory> {
    let mut list = Vec::new(alloc);
    let row = row(alloc, 7)?;
    list.push(Change {
        row,
        old: whole(1),
        new: whole(2),
    })?;
    Ok(list)
}

#[test]
fn lists_of_changes_are_told_apart(rt: HostRuntime) -> Result<(), Fail> {
    let list = one_change(rt.alloc())?;
    let cases: [(&[(i64, i64, i64)], bool); 6] = [
        (&[(7, 1, 2)], true),
        (&[(8, 1, 2)], false),
        (&[(7, 0, 2)], false),
        (&[(7, 1, 3)], false),
        (&[], false),
        (&[(7, 1, 2), (8, 0, 1)], false),
    ];
    for (wanted, is_same) in cases {
        assert_eq!(rt; are_changes(list.as_slice(), wanted), is_same);
    }
    Ok(())
}

#[test]
fn changes_of_wider_rows_are_told_apart(rt: HostRuntime) -> Result<(), Fail> {
    let list = one_change(rt.alloc())?;
    let cases: [(&[Shown], bool); 7] = [
        (&[(&[7], (1, 1), (4, 2))], true),
        (&[(&[8], (1, 1), (2, 1))], false),
        (&[(&[7, 7], (1, 1), (2, 1))], false),
        (&[(&[7], (1, 2), (2, 1))], false),
        (&[(&[7], (1, 1), (2, 3))], false),
        (&[], false),
        (&[(&[7], (1, 1), (2, 1)), (&[8], (0, 1), (1, 1))], false),
    ];
    for (wanted, is_same) in cases {
        assert_eq!(rt; are_shown(list.as_slice(), wanted), is_same);
    }
    Ok(())
}
