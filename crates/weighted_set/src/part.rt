//! The rows of one key, whose weights change in two steps.
ghost use Rattle.std.specs.Prelude.{◌≡◌, ◌+◌, ◌≤◌, ◌↔◌, [], IfOk, IsTrue, OnErr, OnOk, length};
ghost use Rattle.datasets.specs.Dataset.{at as weight_at, empty, set_at};
ghost use Rattle.weighted_set.specs.Changes.{entries_of};
ghost use Rattle.weighted_set.specs.Held.{AllInRange, viewed};

use crate::Memory;
use crate::held::{Held, View, is_zero, weight_by};
use crate::set::HeldSet;
use crate::weighted::Weighted;
use frac_core::Frac;
use record_text::Row;
use std::alloc::Global;
use std::marker::Model;
use std::sync::ledger::Ledger;
use steps::Steps;

/// The rows of one key. A single row lies in place.
#[derive(Drop)]
pub struct Part {
    rows: KeyRows,
}

#[derive(Drop)]
enum KeyRows {
    One(Row, Held),
    Many(HeldSet),
}

impl Model for Part {
    ghost use Rattle.weighted_set.specs.Held.{HeldDatasets, held_datasets_code};

    ghost Value = { HeldDatasets };

    ghost coded = { held_datasets_code };

    ghost use Rattle.weighted_set.specs.KeyRows.{datasets_kept};

    ghost view = { λ part. datasets_kept part.rows };
}

impl Part {
    /// A part whose only row has a pending weight.
    pub fn of_row(row: &Row, weight: Frac) -> Result<Part, Memory>
        ensures committed { IfOk result (λ part. part.committed ≡ empty) }
        ensures pending { IfOk result (λ part. part.pending ≡ set_at row.now weight empty) }
    {
        let row = row.try_copy()?;
        let held = Held {
            committed: Frac::zero(),
            pending: weight,
        };
        Ok(Part {
            rows: KeyRows::One(row, held),
        })
    }

    /// Whether no row has a committed weight.
    pub fn is_empty(&self) -> bool
        ensures { IsTrue result ↔ (self.now.committed ≡ empty) }
    {
        match &self.rows {
            KeyRows::One(_, held) => is_zero(held.committed),
            KeyRows::Many(set) => set.len() == 0,
        }
    }

    /// The committed weight of a row, 0 where it is absent.
    pub fn weight(&self, row: &Row) -> Frac
        ensures value { result ≡ weight_at self.now.committed row.now }
        ensures in_range { AllInRange self.now.committed }
    {
        match &self.rows {
            KeyRows::One(there, held) => {
                // Tells that the weight is in range.
                let _numerator = held.committed.numer();
                if *there == *row {
                    held.committed
                } else {
                    Frac::zero()
                }
            }
            KeyRows::Many(set) => set.weight(row),
        }
    }

    /// Makes `weight` the pending weight of a row. After a refusal the part is unchanged.
    pub fn put_pending(&mut self, alloc: Global, row: &Row, weight: Frac) -> Result<(), Memory>
        ensures committed { self.new.committed ≡ self.old.committed }
        ensures ok { OnOk result (self.new.pending ≡ set_at row.now weight self.old.pending) }
        ensures err { OnErr result (self.new.pending ≡ self.old.pending) }
    {
        let mut set = match &mut self.rows {
            KeyRows::Many(set) => return set.put_pending(row, weight),
            KeyRows::One(there, held) => {
                if *there == *row {
                    held.pending = weight;
                    return Ok(());
                }
                HeldSet::of_row(alloc, there, *held)?
            }
        };
        set.put_pending(row, weight)?;
        self.rows = KeyRows::Many(set);
        Ok(())
    }

    /// Makes the weights of a view both the committed and the pending ones.
    pub fn settle(&mut self, view: View)
        ensures committed { self.new.committed ≡ viewed view self.old }
        ensures pending { self.new.pending ≡ viewed view self.old }
    {
        match &mut self.rows {
            KeyRows::One(_, held) => {
                let weight = weight_by(view, held);
                *held = Held {
                    committed: weight,
                    pending: weight,
                };
            }
            KeyRows::Many(set) => set.settle(view),
        }
    }

    /// Puts the rows and weights of a view in a list, in row order, in place of what is there. It takes one
    /// tick for each of them. After a refusal the list is empty.
    pub fn read<L: Ledger>(
        &self,
        view: View,
        into: &mut Vec<Weighted>,
        steps: &mut Steps<L>,
    ) -> Result<(), Memory>
        ensures entries { OnOk result (entries_of into.new.items ≡ (viewed view self.now).entries) }
        ensures err { OnErr result (into.new.items ≡ []) }
        ensures ticks { OnOk result (steps.new ≡ steps.old + length (viewed view self.now).entries) }
        ensures at_most { steps.new ≤ steps.old + length (viewed view self.now).entries }
    {
        match &self.rows {
            KeyRows::One(row, held) => read_row(row, weight_by(view, held), into, steps),
            KeyRows::Many(set) => set.read(view, into, steps),
        }
    }

    /// Puts the rows and weights before and after what is pending in two lists, each in row order and in place of what is
    /// there. It takes one tick for each of them. After a refusal both lists are empty.
    pub fn read_both<L: Ledger>(
        &self,
        before: &mut Vec<Weighted>,
        after: &mut Vec<Weighted>,
        steps: &mut Steps<L>,
    ) -> Result<(), Memory>
        ensures before { OnOk result (entries_of before.new.items ≡ self.now.committed.entries) }
        ensures after { OnOk result (entries_of after.new.items ≡ self.now.pending.entries) }
        ensures no_before { OnErr result (before.new.items ≡ []) }
        ensures no_after { OnErr result (after.new.items ≡ []) }
        ensures ticks { OnOk result (steps.new ≡ steps.old + (length self.now.committed.entries + length self.now.pending.entries)) }
        ensures at_most { steps.new ≤ steps.old + (length self.now.committed.entries + length self.now.pending.entries) }
    {
        after.clear();
        self.read(View::Committed, before, steps)?;
        match self.read(View::Pending, after, steps) {
            Ok(()) => Ok(()),
            Err(fault) => {
                before.clear();
                Err(fault)
            }
        }
    }
}

// Puts a row with its weight, where that isn't 0, in a list in place of what is there, with one tick for it.
fn read_row<L: Ledger>(
    row: &Row,
    weight: Frac,
    into: &mut Vec<Weighted>,
    steps: &mut Steps<L>,
) -> Result<(), Memory>
    ensures entries { OnOk result (entries_of into.new.items ≡ (set_at row.now weight empty).entries) }
    ensures err { OnErr result (into.new.items ≡ []) }
    ensures ticks { OnOk result (steps.new ≡ steps.old + length (set_at row.now weight empty).entries) }
    ensures at_most { steps.new ≤ steps.old + length (set_at row.now weight empty).entries }
{
    into.clear();
    if is_zero(weight) {
        return Ok(());
    }
    let row = row.try_copy()?;
    into.push(Weighted { row, weight })?;
    steps.tick();
    Ok(())
}
