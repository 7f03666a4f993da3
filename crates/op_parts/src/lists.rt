//! Lists of weighted rows.
ghost use Rattle.std.specs.Prelude.{◌≡◌, ◌+◌, [], ◌∷◌, OnErr, OnOk, length};
ghost use Rattle.datasets.specs.Entries.{is_zero as is_zero_ratio};
ghost use Rattle.ratios.specs.Range.{InRange};
ghost use Rattle.weighted_set.specs.Changes.{entries_of};
ghost use Rattle.op_parts.specs.Appended.{Appends};

use frac_core::Frac;
use record_text::Row;
use std::sync::ledger::Ledger;
use steps::Steps;
use weighted_set::{Memory, Weighted};

/// Counts one step for each row of a list.
pub fn tick_each<L: Ledger>(list: &[Weighted], steps: &mut Steps<L>)
    ensures { steps.new ≡ steps.old + length list.now }
{
    for _ in list {
        steps.tick();
    }
}

/// Whether the weight is 0.
pub fn is_zero(weight: Frac) -> bool
    ensures value { result ≡ is_zero_ratio weight }
    ensures in_range { InRange weight }
{
    weight.numer() == 0
}

/// Appends a row, with a weight.
pub fn push_made(row: Row, weight: Frac, into: &mut Vec<Weighted>) -> Result<(), Memory>
    ensures ok { OnOk result (Appends into.old.items ((row, weight) ∷ []) into.new.items) }
    ensures err { OnErr result (into.new.items ≡ into.old.items) }
{
    into.push(Weighted { row, weight })?;
    Ok(())
}

/// Appends a copy of a row, with a weight.
pub fn push_row(row: &Row, weight: Frac, into: &mut Vec<Weighted>) -> Result<(), Memory>
    ensures ok { OnOk result (Appends into.old.items ((row.now, weight) ∷ []) into.new.items) }
    ensures err { OnErr result (into.new.items ≡ into.old.items) }
{
    let copy = row.try_copy()?;
    push_made(copy, weight, into)
}

/// Appends copies of the rows of a list, with their weights. After a refusal the list is as before.
pub fn push_rows(list: &[Weighted], into: &mut Vec<Weighted>) -> Result<(), Memory>
    ensures ok { OnOk result (Appends into.old.items (entries_of list.now) into.new.items) }
    ensures err { OnErr result (into.new.items ≡ into.old.items) }
{
    let before = into.len();
    for entry in list {
        if let Err(fault) = push_row(&entry.row, entry.weight, into) {
            into.truncate(before);
            return Err(fault);
        }
    }
    Ok(())
}
