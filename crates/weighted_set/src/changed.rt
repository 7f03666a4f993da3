//! The changes from one list of rows to another.
ghost use Rattle.std.specs.Prelude.{◌≡◌, ◌+◌, ◌<◌, ◌++◌, ◌∷◌, [], IfSome, MatchOption, OnOk, length};
ghost use Rattle.datasets.specs.Dataset.{Dataset};
ghost use Rattle.weighted_set.specs.Changes.{entries_of};
ghost use Rattle.weighted_set.specs.Held.{held_changes};
ghost use Rattle.weighted_set.specs.Merging.{both, changes_between, merged};

use crate::Memory;
use crate::weighted::{Change, Weighted};
use frac_core::Frac;
use record_text::Row;
use std::cmp::Ordering;

// The lower of the first rows of two lists with its weights there, and what is left of both.
#[derive(Clone, Copy)]
struct Lower<'a> {
    row: &'a Row,
    old: Frac,
    new: Frac,
    before: &'a [Weighted],
    after: &'a [Weighted],
}

// The lower of the first rows of two lists. A list that has no row of it has the weight 0.
fn lower_of<'a>(before: &'a [Weighted], after: &'a [Weighted]) -> Option<Lower<'a>>
    ensures rest { MatchOption result (merged both (entries_of before.now) (entries_of after.now) ≡ []) (λ lower. merged both (entries_of before.now) (entries_of after.now) ≡ both lower.row.now lower.old lower.new ∷ merged both (entries_of lower.before.now) (entries_of lower.after.now)) }
    ensures less { IfSome result (λ lower. length lower.before.now + length lower.after.now < length before.now + length after.now) }
{
    let zero = Frac::zero();
    match (before.split_first(), after.split_first()) {
        (None, None) => None,
        (Some((entry, before)), None) => Some(Lower {
            row: &entry.row,
            old: entry.weight,
            new: zero,
            before,
            after,
        }),
        (None, Some((other, after))) => Some(Lower {
            row: &other.row,
            old: zero,
            new: other.weight,
            before,
            after,
        }),
        (Some((entry, rest)), Some((other, others))) => match entry.row.cmp(&other.row) {
            Ordering::Less => Some(Lower {
                row: &entry.row,
                old: entry.weight,
                new: zero,
                before: rest,
                after,
            }),
            Ordering::Equal => Some(Lower {
                row: &entry.row,
                old: entry.weight,
                new: other.weight,
                before: rest,
                after: others,
            }),
            Ordering::Greater => Some(Lower {
                row: &other.row,
                old: zero,
                new: other.weight,
                before,
                after: others,
            }),
        },
    }
}

// Puts the change of a row behind a list, where its weights differ.
fn push_change(row: &Row, old: Frac, new: Frac, into: &mut Vec<Change>) -> Result<(), Memory>
    ensures { OnOk result (into.new.items ≡ into.old.items ++ held_changes (both row.now old new ∷ [])) }
{
    if old != new {
        let row = row.try_copy()?;
        into.push(Change { row, old, new })?;
    }
    Ok(())
}

/// Puts the changes from the weights of one list to those of another behind a list, in row order. Both lists are in row
/// order.
pub fn push_changes(
    before: &[Weighted],
    after: &[Weighted],
    into: &mut Vec<Change>,
) -> Result<(), Memory>
    ensures { OnOk result ((A B : Dataset) → entries_of before.now ≡ A.entries → entries_of after.now ≡ B.entries → into.new.items ≡ into.old.items ++ changes_between A B) }
{
    let (mut left, mut right) = (before, after);
    while let Some(lower) = lower_of(left, right) {
        push_change(lower.row, lower.old, lower.new, into)?;
        left = lower.before;
        right = lower.after;
    }
    Ok(())
}
