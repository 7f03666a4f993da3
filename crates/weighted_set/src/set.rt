//! A set of rows with weights, which changes in two steps.
ghost use Rattle.std.specs.Prelude.{◌≡◌, ◌+◌, ◌<◌, ◌≤◌, [], IfErr, IfOk, OnErr, OnOk, length, slice_get};
ghost use Rattle.datasets.specs.Dataset.{at as weight_at, empty, rows, set_at};
ghost use Rattle.weighted_set.specs.Adding.{AreChangesOfAdding, IsAddFault};
ghost use Rattle.weighted_set.specs.Changes.{AreChangesOf, IsChangeList, applied, entries_of};
ghost use Rattle.weighted_set.specs.Held.{AllInRange, one_held, viewed};

use crate::Memory;
use crate::adding::{AddFault, changes_of_distinct, changes_of_each};
use crate::held::{
    Held, View, all_changes, entry_at, held_at, put, put_pending, read_rows, row_count, settle_row,
};
use crate::touched::note;
use crate::weighted::{Change, Weighted};
use frac_core::Frac;
use record_text::Row;
use std::alloc::Global;
use std::collections::BTreeMap;
use std::marker::Model;
use std::sync::ledger::Ledger;
use steps::Steps;

/// A set of rows with weights other than 0. Its rows and weights are the committed ones; a list of changes
/// is prepared first, and then committed or aborted.
#[derive(Drop)]
pub struct HeldSet {
    // Each row that has a weight other than 0, and rows that are touched.
    table: BTreeMap<Row, Held>,
    // The rows that were put since the last commit or abort.
    touched: Vec<Row>,
    // How many rows have a committed weight other than 0.
    len: usize,
    alloc: Global,
}

impl Model for HeldSet {
    ghost use Rattle.weighted_set.specs.Held.{HeldDatasets, IsSet, committed_of, held_datasets_code, pending_of};
    ghost use Rattle.weighted_set.specs.Tables.{GivesBack};
    ghost use Rattle.std.specs.Vec.{vec_capacity};

    ghost Value = { HeldDatasets };

    ghost coded = { held_datasets_code };

    ghost view = { λ s. record { committed = committed_of s.table.entries; pending = pending_of s.table.entries } };

    ghost invariant = { λ s. IsSet s.table.entries s.touched.items s.len × GivesBack s.touched.items (vec_capacity s.touched) };
}

impl HeldSet {
    /// A set with no rows.
    pub fn new(alloc: Global) -> HeldSet
        ensures committed { result.committed ≡ empty }
        ensures pending { result.pending ≡ empty }
    {
        HeldSet {
            table: BTreeMap::new(alloc),
            touched: Vec::new(alloc),
            len: 0,
            alloc,
        }
    }

    /// A set of one row. What is pending of it is kept as touched.
    pub(crate) fn of_row(alloc: Global, row: &Row, held: Held) -> Result<HeldSet, Memory>
        ensures { IfOk result (λ set. set ≡ one_held row.now held) }
    {
        let len = row_count(held.committed);
        // They tell that the weights are in range.
        let _committed = held.committed.numer();
        let _pending = held.pending.numer();
        let mut touched = Vec::new(alloc);
        note(&mut touched, row)?;
        let mut table = BTreeMap::new(alloc);
        put(&mut table, row, held)?;
        Ok(HeldSet {
            table,
            touched,
            len,
            alloc,
        })
    }

    /// How many rows there are.
    pub fn len(&self) -> usize
        ensures { result ≡ length (rows self.now.committed) }
    {
        self.len
    }

    /// The weight of a row, 0 where it is absent.
    pub fn weight(&self, row: &Row) -> Frac
        ensures value { result ≡ weight_at self.now.committed row.now }
        ensures in_range { AllInRange self.now.committed }
    {
        held_at(&self.table, row).committed
    }

    /// The row at a place, in row order from place 0 on, with its weight. It takes time in proportion to the
    /// place.
    pub fn entry(&self, at: usize) -> (&Row, Frac)
        requires { at < length (rows self.now.committed) }
        ensures { slice_get self.now.committed.entries at ≡ Some (result.0.now, result.1) }
    {
        entry_at(&self.table, at)
    }

    /// All rows, as the changes that make them of no rows.
    pub fn all_changes(&self) -> Result<Vec<Change>, Memory>
        ensures changes { IfOk result (λ changes. IsChangeList changes.items empty self.now.committed) }
        ensures in_range { AllInRange self.now.committed }
    {
        all_changes(self.alloc, &self.table)
    }

    /// The changes that adding weights one by one would make, in row order, without those of rows that end as
    /// they began. `Range` names the first place whose row is out of range once its weight is added. Else,
    /// where weights below 0 are not allowed, `Negative` names the first place whose row ends below 0.
    pub fn changes_of(&self, added: &[Weighted], signed: bool) -> Result<Vec<Change>, AddFault>
        requires { self.now.pending ≡ self.now.committed }
        ensures ok { IfOk result (λ changes. AreChangesOfAdding self.now.committed added.now signed changes.items) }
        ensures err { IfErr result (IsAddFault self.now.committed added.now signed) }
    {
        match changes_of_distinct(self.alloc, self, added, signed)? {
            Some(changes) => Ok(changes),
            None => changes_of_each(self.alloc, self, added, signed),
        }
    }

    /// Makes the changes pending. After a refusal nothing is pending.
    pub fn prepare(&mut self, changes: &[Change]) -> Result<(), Memory>
        requires settled { self.old.pending ≡ self.old.committed }
        requires changes { AreChangesOf changes.now self.old.committed }
        ensures committed { self.new.committed ≡ self.old.committed }
        ensures ok { OnOk result (self.new.pending ≡ applied self.old.committed changes.now) }
        ensures err { OnErr result (self.new.pending ≡ self.old.pending) }
    {
        match self.put_all(changes) {
            Ok(()) => Ok(()),
            Err(fault) => {
                self.abort();
                Err(fault)
            }
        }
    }

    // The changes up to a refusal are pending.
    fn put_all(&mut self, changes: &[Change]) -> Result<(), Memory>
        ensures committed { self.new.committed ≡ self.old.committed }
        ensures ok { OnOk result (self.new.pending ≡ applied self.old.pending changes.now) }
    {
        for change in changes {
            self.put_pending(&change.row, change.new)?;
        }
        Ok(())
    }

    /// Makes `weight` the pending weight of a row. After a refusal the set is unchanged.
    pub(crate) fn put_pending(&mut self, row: &Row, weight: Frac) -> Result<(), Memory>
        ensures committed { self.new.committed ≡ self.old.committed }
        ensures ok { OnOk result (self.new.pending ≡ set_at row.now weight self.old.pending) }
        ensures err { OnErr result (self.new.pending ≡ self.old.pending) }
    {
        note(&mut self.touched, row)?;
        // Tells that the weight is in range.
        let _numerator = weight.numer();
        put_pending(&mut self.table, row, weight)?;
        Ok(())
    }

    /// Puts the rows and weights of a view in a list, in row order, in place of what is there. It takes one
    /// tick for each of them. After a refusal the list is empty.
    pub(crate) fn read<L: Ledger>(
        &self,
        view: View,
        into: &mut Vec<Weighted>,
        steps: &mut Steps<L>,
    ) -> Result<(), Memory>
        ensures entries { OnOk result (entries_of into.new.items ≡ (viewed view self.now).entries) }
        ensures err { OnErr result (into.new.items ≡ []) }
        ensures ticks { OnOk result (steps.new ≡ steps.old + length (viewed view self.now).entries) }
        ensures at_most { steps.new ≤ steps.old + length (viewed view self.now).entries }
    {
        into.clear();
        match read_rows(&self.table, view, into, steps) {
            Ok(()) => Ok(()),
            Err(fault) => {
                into.clear();
                Err(fault)
            }
        }
    }

    /// Makes the pending weights the committed ones, and gives back the memory of the list of touched rows.
    pub fn commit(&mut self)
        ensures committed { self.new.committed ≡ self.old.pending }
        ensures pending { self.new.pending ≡ self.old.pending }
    {
        self.settle(View::Pending);
    }

    /// Makes the committed weights the pending ones, and gives back the memory of the list of touched rows.
    pub fn abort(&mut self)
        ensures committed { self.new.committed ≡ self.old.committed }
        ensures pending { self.new.pending ≡ self.old.committed }
    {
        self.settle(View::Committed);
    }

    /// Makes the weights of a view both the committed and the pending ones.
    pub(crate) fn settle(&mut self, view: View)
        ensures committed { self.new.committed ≡ viewed view self.old }
        ensures pending { self.new.pending ≡ viewed view self.old }
    {
        while let Some(row) = self.touched.pop() {
            self.len = settle_row(&mut self.table, &row, view, self.len);
        }
        self.touched = Vec::new(self.alloc);
    }
}
