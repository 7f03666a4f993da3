//! A list of sets.
ghost use Rattle.std.specs.Prelude.{◌≡◌, ◌<◌, ◌++◌, ◌∷◌, ◌-◌, [], OnErr, OnOk, length, slice_get, take};
ghost use Rattle.std.specs.Borrow.{sem};
ghost use Rattle.weighted_set.specs.Sources.{LendsSetAt};

use crate::Memory;
use crate::set::HeldSet;
use std::alloc::Global;
use std::marker::Model;

/// A list of sets, each of them seen by its two datasets.
#[derive(Drop)]
pub struct SourceSet {
    sets: Vec<HeldSet>,
}

impl Model for SourceSet {
    ghost use Rattle.std.specs.Prelude.{List};
    ghost use Rattle.std.specs.Coded.{coded_list};
    ghost use Rattle.weighted_set.specs.Held.{HeldDatasets, held_datasets_code};

    ghost Value = { List HeldDatasets };

    ghost coded = { coded_list held_datasets_code };

    ghost view = { λ s. s.sets.items };
}

impl SourceSet {
    /// A list with no sets.
    pub fn new(alloc: Global) -> SourceSet
        ensures { result ≡ [] }
    {
        SourceSet {
            sets: Vec::new(alloc),
        }
    }

    /// How many sets there are.
    pub fn len(&self) -> usize
        ensures { result ≡ length self.now }
    {
        self.sets.len()
    }

    /// The set at a place, from place 0 on.
    pub fn at(&self, i: usize) -> &HeldSet
        requires { i < length self.now }
        ensures { slice_get self.now i ≡ Some result.now }
    {
        &self.sets[i]
    }

    /// The set at a place, to be changed.
    pub fn at_mut(&mut self, i: usize) -> &mut HeldSet
        requires { i < length self.old }
        ensures* writes_back { sem 𝓛 (LendsSetAt self.entry i result) }
        ensures value { slice_get self.old i ≡ Some result.now }
    {
        &mut self.sets[i]
    }

    /// Puts a set at the end. After a refusal the list is unchanged.
    pub fn push(&mut self, set: HeldSet) -> Result<(), Memory>
        ensures ok { OnOk result (self.new ≡ self.old ++ set ∷ []) }
        ensures err { OnErr result (self.new ≡ self.old) }
    {
        self.sets.push(set)?;
        Ok(())
    }

    /// Takes the last set out.
    pub fn drop_last(&mut self)
        requires { 0 < length self.old }
        ensures { self.new ≡ take (length self.old - 1) self.old }
    {
        let _ = self.sets.pop();
    }
}
