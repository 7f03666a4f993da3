//! Rows with a committed and a pending weight each.
ghost use Rattle.std.specs.Prelude.{[], ◌≡◌, ◌+◌, ◌<◌, ◌≤◌, IfOk, OnErr, OnOk, length, slice_get};
ghost use Rattle.datasets.specs.Dataset.{at, empty, rows};
ghost use Rattle.datasets.specs.Entries.{is_zero as is_zero_ratio, row_count as row_count_of};
ghost use Rattle.ratios.specs.Ratio.{zero_ratio};
ghost use Rattle.weighted_set.specs.Changes.{IsChangeList, entries_of};
ghost use Rattle.weighted_set.specs.Held.{PendsRow, PutsAt, SettlesAt, SettlesInView, committed_of, pending_of, seen_by, viewed_entries, viewed_weight};

use crate::Memory;
use crate::weighted::{Change, Weighted};
use frac_core::Frac;
use record_text::Row;
use std::alloc::Global;
use std::collections::BTreeMap;
use std::sync::ledger::Ledger;
use steps::Steps;

/// The two weights of one row.
#[derive(Clone, Copy, Debug)]
pub struct Held {
    pub committed: Frac,
    pub pending: Frac,
}

/// One of the two weights of each row.
#[derive(Clone, Copy, PartialEq, Eq, Debug)]
pub enum View {
    /// The weights as they are.
    Committed,
    /// The weights as they are once what is pending is committed.
    Pending,
}

/// The weight of a view.
pub fn weight_by(view: View, held: &Held) -> Frac
    ensures { result ≡ viewed_weight view held.now }
{
    match view {
        View::Committed => held.committed,
        View::Pending => held.pending,
    }
}

/// Whether the weight is 0.
pub fn is_zero(weight: Frac) -> bool
    ensures { result ≡ is_zero_ratio weight }
{
    weight.numer() == 0
}

/// How many rows have a weight because of this one.
pub fn row_count(weight: Frac) -> usize
    ensures value { result ≡ row_count_of weight }
    ensures small { result ≤ 1 }
{
    if is_zero(weight) { 0 } else { 1 }
}

// The weights of a row that is absent.
fn no_weights() -> Held
    ensures committed { result.committed ≡ zero_ratio }
    ensures pending { result.pending ≡ zero_ratio }
{
    Held {
        committed: Frac::zero(),
        pending: Frac::zero(),
    }
}

/// The weights of a row, 0 where it is absent.
pub fn held_at(table: &BTreeMap<Row, Held>, row: &Row) -> Held
    ensures committed { result.committed ≡ at (committed_of table.now.entries) row.now }
    ensures pending { result.pending ≡ at (pending_of table.now.entries) row.now }
{
    match table.get(row) {
        Some(held) => *held,
        None => no_weights(),
    }
}

/// The row at a place among those with a committed weight, in row order, with that weight.
pub fn entry_at(table: &BTreeMap<Row, Held>, place: usize) -> (&Row, Frac)
    requires { place < length (rows (committed_of table.now.entries)) }
    ensures { slice_get (committed_of table.now.entries).entries place ≡ Some (result.0.now, result.1) }
{
    let mut left = place;
    for (row, held) in table {
        if !is_zero(held.committed) {
            if left == 0 {
                return (row, held.committed);
            }
            left -= 1;
        }
    }
    unreachable!()
}

/// Puts the weights of a row.
pub fn put(table: &mut BTreeMap<Row, Held>, row: &Row, held: Held) -> Result<(), Memory>
    ensures ok { OnOk result (PutsAt row.now held table.old.entries table.new.entries) }
    ensures err { OnErr result (table.new.entries ≡ table.old.entries) }
{
    if let Some(there) = table.get_mut(row) {
        *there = held;
        return Ok(());
    }
    let copy = row.try_copy()?;
    table.insert(copy, held)?;
    Ok(())
}

/// Makes `weight` the pending weight of a row.
pub fn put_pending(table: &mut BTreeMap<Row, Held>, row: &Row, weight: Frac) -> Result<(), Memory>
    ensures ok { OnOk result (PendsRow row.now weight table.old.entries table.new.entries) }
    ensures err { OnErr result (table.new.entries ≡ table.old.entries) }
{
    if let Some(there) = table.get_mut(row) {
        there.pending = weight;
        return Ok(());
    }
    let copy = row.try_copy()?;
    let held = Held {
        committed: Frac::zero(),
        pending: weight,
    };
    table.insert(copy, held)?;
    Ok(())
}

// Makes the weight of a row in a view both its weights, and takes the row out where that is 0. Answers the
// weights that it had, 0 where it is absent.
fn settle(table: &mut BTreeMap<Row, Held>, row: &Row, view: View) -> Held
    ensures committed { result.committed ≡ at (committed_of table.old.entries) row.now }
    ensures viewed { viewed_weight view result ≡ at (seen_by view table.old.entries) row.now }
    ensures settled { SettlesAt row.now (viewed_weight view result) table.old.entries table.new.entries }
{
    let Some(there) = table.get_mut(row) else {
        return no_weights();
    };
    let held = *there;
    let kept = weight_by(view, &held);
    if is_zero(kept) {
        let _ = table.remove(row);
        return held;
    }
    *there = Held {
        committed: kept,
        pending: kept,
    };
    held
}

/// Makes the weight of a row in a view both its weights. Of how many rows have a committed weight, takes the
/// number before and answers the number after.
pub fn settle_row(table: &mut BTreeMap<Row, Held>, row: &Row, view: View, len: usize) -> usize
    requires { len ≡ length (rows (committed_of table.old.entries)) }
    ensures counted { result ≡ length (rows (committed_of table.new.entries)) }
    ensures settled { SettlesInView view row.now table.old.entries table.new.entries }
{
    // Tells that a table has room to count its rows.
    let _room = table.len();
    let held = settle(table, row, view);
    len + row_count(weight_by(view, &held)) - row_count(held.committed)
}

/// Puts the rows with a weight in the view in an empty list, in row order, with one tick for each.
pub fn read_rows<L: Ledger>(
    table: &BTreeMap<Row, Held>,
    view: View,
    into: &mut Vec<Weighted>,
    steps: &mut Steps<L>,
) -> Result<(), Memory>
    requires { into.old.items ≡ [] }
    ensures entries { OnOk result (entries_of into.new.items ≡ viewed_entries view table.now.entries) }
    ensures ticks { OnOk result (steps.new ≡ steps.old + length (viewed_entries view table.now.entries)) }
    ensures at_most { steps.new ≤ steps.old + length (viewed_entries view table.now.entries) }
{
    for (row, held) in table {
        let weight = weight_by(view, held);
        if !is_zero(weight) {
            steps.tick();
            let row = row.try_copy()?;
            into.push(Weighted { row, weight })?;
        }
    }
    Ok(())
}

/// The changes that make the rows with a committed weight of no rows.
pub fn all_changes(alloc: Global, table: &BTreeMap<Row, Held>) -> Result<Vec<Change>, Memory>
    ensures { IfOk result (λ changes. IsChangeList changes.items empty (committed_of table.now.entries)) }
{
    let mut changes = Vec::new(alloc);
    for (row, held) in table {
        let weight = held.committed;
        if !is_zero(weight) {
            let row = row.try_copy()?;
            changes.push(Change {
                row,
                old: Frac::zero(),
                new: weight,
            })?;
        }
    }
    Ok(changes)
}
