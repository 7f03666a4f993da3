//! The types of sources.
ghost use Rattle.std.specs.Prelude.{◌≡◌, ◌<◌, ◌-◌, ◌++◌, [], ◌∷◌, false, true, length, slice_get, take, IfOk, OnOk, OnErr};
ghost use Rattle.plan_model.specs.Sources.{are_distinct, has_name};

use record_text::{Kinds, Memory, Name};
use std::alloc::Global;
use std::marker::Model;

/// A source's name, the kinds of its columns, and whether its weights may be negative.
#[derive(Clone, Copy, Debug)]
pub struct SourceType {
    pub name: Name,
    pub kinds: Kinds,
    pub signed: bool,
}

/// The types of sources in order of declaration, with distinct names, seen as their list.
#[derive(Debug, Drop)]
pub struct SourceTypes {
    types: Vec<SourceType>,
}

impl Model for SourceTypes {
    ghost use Rattle.std.specs.Coded.{codes};
    ghost use Rattle.std.specs.Prelude.{◌≡◌, List, true};
    ghost use Rattle.plan_model.specs.Sources.{are_distinct};
    ghost use Rattle.plan_model.specs.contracts.source_types.SourceType as source_type;
    ghost use Rattle.plan_model.specs.declared.source_types.SourceType.{SourceType};

    ghost Value = { List SourceType };

    ghost coded = { Prim.hlevel (codes, source_type.the_row.coded) };

    ghost view = { λ types. types.types.items };

    ghost invariant = { λ types. are_distinct types.types.items ≡ true };
}

impl SourceTypes {
    /// No types.
    pub fn new(alloc: Global) -> SourceTypes
        ensures { result ≡ [] }
    {
        SourceTypes {
            types: Vec::new(alloc),
        }
    }

    /// How many types there are.
    pub fn len(&self) -> usize
        ensures value { result ≡ length self.now }
        ensures names { are_distinct self.now ≡ true }
    {
        self.types.len()
    }

    /// The type at a place, from 0.
    pub fn at(&self, i: usize) -> SourceType
        requires { i < length self.now }
        ensures { slice_get self.now i ≡ Some result }
    {
        self.types[i]
    }

    /// Appends a type of a new name. After `Memory` nothing is changed.
    #[tactic(auto, using(crate::proofs::Names::are_distinct_appended))]
    pub fn push(&mut self, source_type: SourceType) -> Result<(), Memory>
        requires { has_name self.old source_type.name ≡ false }
        ensures ok { OnOk result (self.new ≡ self.old ++ source_type ∷ []) }
        ensures err { OnErr result (self.new ≡ self.old) }
    {
        self.types.push(source_type)?;
        Ok(())
    }

    /// Equal types.
    pub fn try_copy(&self, alloc: Global) -> Result<SourceTypes, Memory>
        ensures { IfOk result (λ copy. copy ≡ self.now) }
    {
        let mut types = Vec::with_capacity(alloc, self.types.len())?;
        types.extend_from_slice(self.types.as_slice())?;
        Ok(SourceTypes { types })
    }

    /// Takes the last type out.
    #[tactic(auto, using(crate::proofs::Names::are_distinct_front))]
    pub fn drop_last(&mut self)
        requires { 0 < length self.old }
        ensures { self.new ≡ take (length self.old - 1) self.old }
    {
        self.types.pop();
    }
}
