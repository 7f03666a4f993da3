//! Weights by key and row, which change in two steps.
ghost use Rattle.std.specs.Prelude.{◌≡◌, ◌+◌, ◌≤◌, [], IfSome, IsSome, OnErr, OnOk, length};
ghost use Rattle.std.specs.Map.{lookup};
ghost use Rattle.datasets.specs.Dataset.{at as weight_at, empty};
ghost use Rattle.datasets.specs.Entries.{Row as RowValue, same_row};
ghost use Rattle.weighted_set.specs.Changes.{entries_of};
ghost use Rattle.weighted_set.specs.Held.{AllInRange};
ghost use Rattle.weighted_set.specs.Parts.{IsSettledPart, PendsAt, SameCommitted, SameInView, SamePending, committed_part, part_in, pending_part};
ghost use Rattle.weighted_set.specs.Tables.{OthersStay};

use crate::Memory;
use crate::held::View;
use crate::part::Part;
use crate::touched::note;
use crate::weighted::Weighted;
use frac_core::Frac;
use record_text::Row;
use std::alloc::Global;
use std::collections::BTreeMap;
use std::marker::Model;
use std::sync::ledger::Ledger;
use steps::Steps;

/// A store of weights other than 0 by key and row. The rows of one key are its part.
#[derive(Drop)]
pub struct PartStore {
    // The part of each key that has rows, and of keys that are touched.
    parts: BTreeMap<Row, Part>,
    // The keys that were put at since the last commit or abort.
    touched: Vec<Row>,
    alloc: Global,
}

impl Model for PartStore {
    ghost use Rattle.std.specs.Coded.{coded×, coded_list};
    ghost use Rattle.record_text.specs.contracts.atom.Atom as atom;
    ghost use Rattle.weighted_set.specs.Held.{held_datasets_code};
    ghost use Rattle.weighted_set.specs.Parts.{IsSettledPart, StoreParts};
    ghost use Rattle.weighted_set.specs.Tables.{AllBut, GivesBack};
    ghost use Rattle.std.specs.Vec.{vec_capacity};

    ghost Value = { StoreParts };

    ghost coded = { coded_list (coded× (coded_list atom.the_row.coded) held_datasets_code) };

    ghost view = { λ s. s.parts.entries };

    ghost invariant = { λ s. AllBut IsSettledPart s.touched.items s.parts.entries × GivesBack s.touched.items (vec_capacity s.touched) };
}

impl PartStore {
    /// A store with no rows.
    pub fn new(alloc: Global) -> PartStore
        ensures committed { (k : RowValue) → committed_part result k ≡ empty }
        ensures pending { (k : RowValue) → pending_part result k ≡ empty }
    {
        PartStore {
            parts: BTreeMap::new(alloc),
            touched: Vec::new(alloc),
            alloc,
        }
    }

    /// Puts a key's rows and weights in a list, in row order, in place of what is there. It takes one tick
    /// for each of them. After a refusal the list is empty.
    pub fn read_part<L: Ledger>(
        &self,
        key: &Row,
        view: View,
        into: &mut Vec<Weighted>,
        steps: &mut Steps<L>,
    ) -> Result<(), Memory>
        ensures entries { OnOk result (entries_of into.new.items ≡ (part_in view self.now key.now).entries) }
        ensures err { OnErr result (into.new.items ≡ []) }
        ensures ticks { OnOk result (steps.new ≡ steps.old + length (part_in view self.now key.now).entries) }
        ensures at_most { steps.new ≤ steps.old + length (part_in view self.now key.now).entries }
    {
        match self.parts.get(key) {
            Some(part) => part.read(view, into, steps),
            None => {
                into.clear();
                Ok(())
            }
        }
    }

    /// Puts a key's rows and weights before and after what is pending in two lists, each in row order and in place of what is
    /// there, with one search for the key. It takes one tick for each of them. After a refusal both lists are empty.
    pub fn read_both<L: Ledger>(
        &self,
        key: &Row,
        before: &mut Vec<Weighted>,
        after: &mut Vec<Weighted>,
        steps: &mut Steps<L>,
    ) -> Result<(), Memory>
        ensures before { OnOk result (entries_of before.new.items ≡ (committed_part self.now key.now).entries) }
        ensures after { OnOk result (entries_of after.new.items ≡ (pending_part self.now key.now).entries) }
        ensures no_before { OnErr result (before.new.items ≡ []) }
        ensures no_after { OnErr result (after.new.items ≡ []) }
        ensures ticks { OnOk result (steps.new ≡ steps.old + (length (committed_part self.now key.now).entries + length (pending_part self.now key.now).entries)) }
        ensures at_most { steps.new ≤ steps.old + (length (committed_part self.now key.now).entries + length (pending_part self.now key.now).entries) }
    {
        match self.parts.get(key) {
            Some(part) => part.read_both(before, after, steps),
            None => {
                before.clear();
                after.clear();
                Ok(())
            }
        }
    }

    /// The committed weight of a row at a key, 0 where it is absent. It takes one tick.
    pub fn weight<L: Ledger>(&self, key: &Row, row: &Row, steps: &mut Steps<L>) -> Frac
        ensures value { result ≡ weight_at (committed_part self.now key.now) row.now }
        ensures in_range { AllInRange (committed_part self.now key.now) }
        ensures ticks { steps.new ≡ steps.old + 1 }
    {
        steps.tick();
        match self.parts.get(key) {
            Some(part) => part.weight(row),
            None => Frac::zero(),
        }
    }

    /// Makes `weight` the pending weight of a row at a key. It takes one tick. After a refusal the store is
    /// unchanged.
    pub fn put_pending<L: Ledger>(
        &mut self,
        key: &Row,
        row: &Row,
        weight: Frac,
        steps: &mut Steps<L>,
    ) -> Result<(), Memory>
        ensures committed { SameCommitted self.old self.new }
        ensures ok { OnOk result (PendsAt key.now row.now weight self.old self.new) }
        ensures err { OnErr result (SamePending self.old self.new) }
        ensures ticks { steps.new ≡ steps.old + 1 }
    {
        steps.tick();
        self.put(key, row, weight)
    }

    fn put(&mut self, key: &Row, row: &Row, weight: Frac) -> Result<(), Memory>
        ensures committed { SameCommitted self.old self.new }
        ensures ok { OnOk result (PendsAt key.now row.now weight self.old self.new) }
        ensures err { OnErr result (SamePending self.old self.new) }
    {
        note(&mut self.touched, key)?;
        put_at_key(self.alloc, &mut self.parts, key, row, weight)
    }

    /// Makes the pending weights the committed ones, and gives back the memory of the list of touched keys.
    pub fn commit(&mut self)
        ensures committed { (k : RowValue) → committed_part self.new k ≡ pending_part self.old k }
        ensures pending { SamePending self.old self.new }
    {
        self.settle(View::Pending);
    }

    /// Makes the committed weights the pending ones, and gives back the memory of the list of touched keys.
    pub fn abort(&mut self)
        ensures committed { SameCommitted self.old self.new }
        ensures pending { (k : RowValue) → pending_part self.new k ≡ committed_part self.old k }
    {
        self.settle(View::Committed);
    }

    // Makes the weights of a view both the committed and the pending ones.
    fn settle(&mut self, view: View)
        ensures committed { (k : RowValue) → committed_part self.new k ≡ part_in view self.old k }
        ensures pending { (k : RowValue) → pending_part self.new k ≡ part_in view self.old k }
    {
        while let Some(key) = self.touched.pop() {
            settle_key(&mut self.parts, &key, view);
        }
        self.touched = Vec::new(self.alloc);
    }
}

// Makes `weight` the pending weight of a row at a key.
fn put_at_key(
    alloc: Global,
    parts: &mut BTreeMap<Row, Part>,
    key: &Row,
    row: &Row,
    weight: Frac,
) -> Result<(), Memory>
    ensures committed { SameCommitted parts.old.entries parts.new.entries }
    ensures ok { OnOk result (PendsAt key.now row.now weight parts.old.entries parts.new.entries) }
    ensures err { OnErr result (SamePending parts.old.entries parts.new.entries) }
    ensures others { OthersStay key.now parts.old.entries parts.new.entries }
{
    if let Some(part) = parts.get_mut(key) {
        return part.put_pending(alloc, row, weight);
    }
    let part = Part::of_row(row, weight)?;
    let key = key.try_copy()?;
    parts.insert(key, part)?;
    Ok(())
}

// Makes the weights of a view both the committed and the pending ones of a key, and takes it out where it has
// no rows then.
fn settle_key(parts: &mut BTreeMap<Row, Part>, key: &Row, view: View)
    ensures viewed { SameInView view parts.old.entries parts.new.entries }
    ensures others { OthersStay key.now parts.old.entries parts.new.entries }
    ensures settled { IfSome (lookup (same_row key.now) parts.new.entries) IsSettledPart }
{
    let Some(part) = parts.get_mut(key) else {
        return;
    };
    part.settle(view);
    if part.is_empty() {
        let _ = parts.remove(key);
    }
}
