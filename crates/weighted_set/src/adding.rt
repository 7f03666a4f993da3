//! Weights that are added one by one.
ghost use Rattle.std.specs.Prelude.{◌≡◌, IfErr, IfOk, IfSome, true};
ghost use Rattle.weighted_set.specs.Adding.{AreChangesOfAdding, HoldsAdded, IsAddFault, IsAddedChange, IsFirstBelowZero, StaysInRange};
ghost use Rattle.weighted_set.specs.Held.{AreStepChanges, HasStepWeights};
ghost use Rattle.weighted_set.specs.declared.adding.AddFault.TheVariants as fault;

use crate::Memory;
use crate::held::{Held, put};
use crate::set::HeldSet;
use crate::weighted::{Change, Weighted};
use frac_core::Frac;
use record_text::Row;
use std::alloc::{AllocFailed, Global};
use std::collections::BTreeMap;
use thiserror::Error;

/// Why weights can't be added. Places count from 0.
#[derive(Clone, Copy, Debug, PartialEq, Eq, Error)]
pub enum AddFault {
    /// The weight of the row at this place is out of range once its own is added.
    #[error("the weight is out of range at record {at}")]
    Range { at: usize },
    /// The row at this place ends with a weight below 0.
    #[error("the row of record {at} ends below 0")]
    Negative { at: usize },
    /// There was no memory.
    #[error("out of memory")]
    Memory,
}

impl From<Memory> for AddFault {
    ghost from_gives = { λ _ e. e ≡ fault.Memory };

    fn from(_e: Memory) -> AddFault {
        AddFault::Memory
    }
}

// The weights of a row in the set, and once what is running is added.
fn weights_of(set: &HeldSet, running: &BTreeMap<Row, Held>, row: &Row) -> Held
    ensures { HasStepWeights running.now.entries set.now.committed row.now result }
{
    match running.get(row) {
        Some(held) => *held,
        None => {
            let weight = set.weight(row);
            Held {
                committed: weight,
                pending: weight,
            }
        }
    }
}

// The rows that weights are added to, with their weights before and after.
fn add_all(
    alloc: Global,
    set: &HeldSet,
    added: &[Weighted],
) -> Result<BTreeMap<Row, Held>, AddFault>
    ensures in_range { IfOk result (λ _. StaysInRange set.now.committed added.now) }
    ensures step { IfOk result (λ running. HoldsAdded running.entries set.now.committed added.now) }
    ensures err { IfErr result (IsAddFault set.now.committed added.now true) }
{
    let mut running = BTreeMap::new(alloc);
    for (at, one) in added.iter().enumerate() {
        let held = weights_of(set, &running, &one.row);
        let Some(sum) = held.pending.add(one.weight) else {
            return Err(AddFault::Range { at });
        };
        let held = Held {
            committed: held.committed,
            pending: sum,
        };
        put(&mut running, &one.row, held)?;
    }
    Ok(running)
}

// The first place whose row ends below 0.
fn first_negative(set: &HeldSet, running: &BTreeMap<Row, Held>, added: &[Weighted]) -> Option<usize>
    ensures { IsFirstBelowZero running.now.entries set.now.committed added.now result }
{
    for (at, one) in added.iter().enumerate() {
        if weights_of(set, running, &one.row).pending < Frac::zero() {
            return Some(at);
        }
    }
    None
}

// The rows whose two weights differ, as changes in row order.
fn changes_in(alloc: Global, running: BTreeMap<Row, Held>) -> Result<Vec<Change>, Memory>
    ensures { IfOk result (λ changes. AreStepChanges running.entries changes.items) }
{
    // Tells that the rows are in order.
    let _len = running.len();
    let mut changes = Vec::new(alloc);
    for (row, held) in running {
        if held.committed != held.pending {
            changes.push(Change {
                row,
                old: held.committed,
                new: held.pending,
            })?;
        }
    }
    Ok(changes)
}

/// The changes that adding weights one by one would make, in row order, or the first fault.
pub fn changes_of_each(
    alloc: Global,
    set: &HeldSet,
    added: &[Weighted],
    signed: bool,
) -> Result<Vec<Change>, AddFault>
    ensures ok { IfOk result (λ changes. AreChangesOfAdding set.now.committed added.now signed changes.items) }
    ensures err { IfErr result (IsAddFault set.now.committed added.now signed) }
{
    let running = add_all(alloc, set, added)?;
    if !signed {
        if let Some(at) = first_negative(set, &running, added) {
            return Err(AddFault::Negative { at });
        }
    }
    let changes = changes_in(alloc, running)?;
    Ok(changes)
}

// The change of a row to which a weight is added, where the row then weighs something else, in range and allowed.
fn change_of(set: &HeldSet, one: &Weighted, signed: bool) -> Result<Option<Change>, Memory>
    ensures { IfOk result (λ found. IfSome found (IsAddedChange set.now.committed signed one.now)) }
{
    let old = set.weight(&one.row);
    let Some(new) = old.add(one.weight) else {
        return Ok(None);
    };
    if new == old || (!signed && new < Frac::zero()) {
        return Ok(None);
    }
    let row = one.row.try_copy()?;
    Ok(Some(Change { row, old, new }))
}

/// The changes that adding weights would make, in row order, where no row is there twice and each then weighs something else,
/// in range and allowed.
pub fn changes_of_distinct(
    alloc: Global,
    set: &HeldSet,
    added: &[Weighted],
    signed: bool,
) -> Result<Option<Vec<Change>>, Memory>
    ensures { IfOk result (λ found. IfSome found (λ changes. AreChangesOfAdding set.now.committed added.now signed changes.items)) }
{
    let mut changes = Vec::with_capacity(alloc, added.len())?;
    for one in added {
        let Some(change) = change_of(set, one, signed)? else {
            return Ok(None);
        };
        changes.push(change)?;
    }
    changes.sort_unstable();
    changes.dedup();
    if changes.len() < added.len() {
        return Ok(None);
    }
    Ok(Some(changes))
}
