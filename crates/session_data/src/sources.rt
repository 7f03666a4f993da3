//! The sources: rows with exact weights, each under a name, a declared type and a budget.
ghost use Rattle.std.specs.Prelude.{◌≡◌, ◌<◌, ◌≤◌, ◌++◌, ◌∷◌, [], All, IfErr, IfOk, None, OnErr, OnOk, Some, false, length, map, position, slice_get, slice_set};
ghost use Rattle.std.specs.List.{list_any};
ghost use Rattle.budget_book.specs.Asks.{AreAsks, first_short};
ghost use Rattle.budget_book.specs.Budgets.{IsKept};
ghost use Rattle.plan_model.specs.Sources.{has_name};
ghost use Rattle.request_machine.specs.Charges.{after_charges, book_of, by_name};
ghost use Rattle.weighted_set.specs.Adding.{AreChangesOfAdding, IsAddFault};
ghost use Rattle.weighted_set.specs.Changes.{entries_of};
ghost use Rattle.session_data.specs.Flow.{committed_family, pending_family};
ghost use Rattle.request_machine.specs.Limits.{max_budget, max_sources};
ghost use Rattle.request_machine.specs.Updates.{with_weights};
ghost use Rattle.request_machine.specs.Named.{place_named, source_name};
ghost use Rattle.request_machine.specs.State.{OfSource, family_of, new_of_type, types_of};

use budget_book::{Ask, Book};
use indexmap::IndexSet;
use plan_model::{SourceType, SourceTypes};
use record_text::Name;
use request_text::{Memory, Uses};
use std::alloc::Global;
use std::marker::Model;
use weighted_set::{AddFault, Change, HeldSet, SourceSet, Weighted, law_changes};

/// The most sources of a session.
pub const MAX_SOURCES: usize = 16;

/// The sources in order of declaration. Their rows change in two steps.
#[derive(Drop)]
pub struct Sources {
    names: IndexSet<Name>,
    types: SourceTypes,
    sets: SourceSet,
    book: Book,
}

impl Model for Sources {
    ghost use Rattle.std.specs.Prelude.{◌+◌, ◌≤◌, length};
    ghost use Rattle.std.specs.Coded.{codes};
    ghost use Rattle.indexmap.specs.IndexSet.{spare};
    ghost use Rattle.datasets.specs.Code.{dataset_code};
    ghost use Rattle.session_data.specs.Held.{AreAlike, HeldSources, held_sources};
    ghost use Rattle.request_machine.specs.Limits.{max_sources};

    ghost Value = { HeldSources };

    ghost coded = { Prim.hlevel (codes, dataset_code) };

    ghost view = { λ s. held_sources s.types s.sets s.book };

    ghost invariant = { λ s. AreAlike s.names.keys s.types s.sets s.book
        × (max_sources ≤ spare s.names + length s.book) };
}

impl Sources {
    /// No sources. It takes the room of the table of names for `MAX_SOURCES`.
    pub fn new(alloc: Global) -> Result<Sources, Memory>
        ensures committed { IfOk result (λ sources. sources.committed ≡ []) }
        ensures pending { IfOk result (λ sources. sources.pending ≡ []) }
    {
        Ok(Sources {
            names: IndexSet::with_capacity(alloc, MAX_SOURCES)?,
            types: SourceTypes::new(alloc),
            sets: SourceSet::new(alloc),
            book: Book::new(alloc),
        })
    }

    /// How many sources there are.
    pub fn len(&self) -> usize
        ensures { result ≡ length self.now.committed }
    {
        self.book.len()
    }

    /// The place of the source of this name.
    pub fn place_of(&self, name: Name) -> Option<usize>
        ensures { result ≡ place_named source_name name self.now.committed }
    {
        self.names.get_index_of(&name)
    }

    /// The types of the sources.
    pub fn types(&self) -> &SourceTypes
        ensures { result.now ≡ types_of self.now.committed }
    {
        &self.types
    }

    /// The sets of the sources.
    pub fn sets(&self) -> &SourceSet
        ensures committed { committed_family result.now ≡ family_of self.now.committed }
        ensures pending { pending_family result.now ≡ family_of self.now.pending }
    {
        &self.sets
    }

    /// The type of the source at a place.
    pub fn source_type(&self, at: usize) -> SourceType
        requires { at < length self.now.committed }
        ensures { slice_get (types_of self.now.committed) at ≡ Some result }
    {
        self.types.at(at)
    }

    /// The budgets of the sources.
    pub fn book(&self) -> &Book
        ensures { result.now ≡ book_of self.now.committed }
    {
        &self.book
    }

    /// The asked sources by name, each with its amount.
    pub fn named(&self, alloc: Global, asks: &[Ask]) -> Result<Uses, Memory>
        requires { AreAsks (length self.now.committed) asks.now }
        ensures { IfOk result (λ uses. uses ≡ by_name self.now.committed asks.now) }
    {
        let mut list = Vec::with_capacity(alloc, asks.len())?;
        for ask in asks {
            list.push((self.source_type(ask.source).name, ask.amount))?;
        }
        Ok(Uses::from_vec(list))
    }

    /// Spends what is asked of each source, which is not more than there is left.
    pub fn charge(&mut self, asks: &[Ask])
        requires asks { AreAsks (length self.old.committed) asks.now }
        requires can { first_short (book_of self.old.committed) asks.now ≡ None }
        ensures committed { self.new.committed ≡ after_charges self.old.committed asks.now }
        ensures pending { self.new.pending ≡ after_charges self.old.pending asks.now }
        ensures kept { All IsKept (book_of self.new.committed) }
    {
        self.book.charge(asks);
    }

    /// Appends a source without rows, of which nothing is spent. After `Memory` nothing is changed: the type and the
    /// set are taken out again where there is no memory for the rest, and the name has its room.
    pub fn push(&mut self, alloc: Global, source_type: SourceType, total: u64) -> Result<(), Memory>
        requires few { length self.old.committed < max_sources }
        requires fresh { has_name (types_of self.old.committed) source_type.name ≡ false }
        requires total { total ≤ max_budget }
        ensures committed { OnOk result
            (self.new.committed ≡ self.old.committed ++ new_of_type source_type total ∷ []) }
        ensures pending { OnOk result (self.new.pending ≡ self.old.pending ++ new_of_type source_type total ∷ []) }
        ensures err { OnErr result (self.new ≡ self.old) }
    {
        let name = source_type.name;
        self.types.push(source_type)?;
        if self.sets.push(HeldSet::new(alloc)).is_err() {
            self.types.drop_last();
            return Err(Memory);
        }
        if self.book.add_source(total).is_err() {
            self.sets.drop_last();
            self.types.drop_last();
            return Err(Memory);
        }
        self.names.insert(name).unwrap();
        Ok(())
    }

    /// Makes weights that are added to the source at a place pending, and answers the changes of its rows.
    /// After a refusal nothing is pending.
    pub fn prepare(&mut self, at: usize, added: &[Weighted]) -> Result<Vec<Change>, AddFault>
        requires settled { self.old.pending ≡ self.old.committed }
        requires place { at < length self.old.committed }
        ensures committed { self.new.committed ≡ self.old.committed }
        ensures changes { IfOk result (λ changes. OfSource self.old.committed at
            (λ source. AreChangesOfAdding source.rows added.now source.signed changes.items)) }
        ensures pending { OnOk result (OfSource self.old.committed at
            (λ source. self.new.pending ≡ slice_set self.old.committed at (with_weights source added.now))) }
        ensures err { IfErr result (λ e. OfSource self.old.committed at
            (λ source. IsAddFault source.rows added.now source.signed e)) }
        ensures none_pending { OnErr result (self.new.pending ≡ self.old.committed) }
    {
        let signed = self.types.at(at).signed;
        let changes = self.sets.at(at).changes_of(added, signed)?;
        law_changes();
        self.sets.at_mut(at).prepare(changes.as_slice())?;
        Ok(changes)
    }

    /// Makes what is pending the state of the sources.
    pub fn commit(&mut self)
        ensures committed { self.new.committed ≡ self.old.pending }
        ensures pending { self.new.pending ≡ self.old.pending }
    {
        commit_sets(&mut self.sets);
    }

    /// Drops what is pending.
    pub fn abort(&mut self)
        ensures committed { self.new.committed ≡ self.old.committed }
        ensures pending { self.new.pending ≡ self.old.committed }
    {
        abort_sets(&mut self.sets);
    }
}

// Makes the pending weights of each set the committed ones.
fn commit_sets(sets: &mut SourceSet)
    ensures committed { committed_family sets.new ≡ pending_family sets.old }
    ensures pending { pending_family sets.new ≡ pending_family sets.old }
{
    for at in 0..sets.len() {
        sets.at_mut(at).commit();
    }
}

// Makes the committed weights of each set the pending ones.
fn abort_sets(sets: &mut SourceSet)
    ensures committed { committed_family sets.new ≡ committed_family sets.old }
    ensures pending { pending_family sets.new ≡ committed_family sets.old }
{
    for at in 0..sets.len() {
        sets.at_mut(at).abort();
    }
}
