//! Turns of an engine: rows are added to its inputs, and what comes of it is kept or dropped.
ghost use Rattle.std.specs.Prelude.{◌≡◌, ◌&&◌, All, IfOk, IsTrue, OnOk, false, if◌then◌else◌};
ghost use Rattle.datasets.specs.Dataset.{Dataset, empty};
ghost use Rattle.record_text.specs.KindLists.{kinds_of};
ghost use Rattle.weighted_set.specs.Adding.{AreChangesOfAdding};
ghost use Rattle.weighted_set.specs.Changes.{AreChangesOf, applied};
ghost use Rattle.trial_rows.specs.Columns.{two_ints};
ghost use Rattle.engine_tests.specs.Trials.{Serves};

use std::alloc::Global;
use std::process::Abort;
use std::sync::ledger::Ledger;
use steps::Steps;
use trial_rows::{Added, Shown, are_shown, have_columns, pair_fractions, two_ints};
use weighted_set::{AddFault, Change, HeldSet, OpFault, Operator, law_changes};

/// Rows of two numbers with weights that are added to the two inputs, whether what comes of it is kept, and
/// the changes that are listed, none where the inputs don't fit.
#[derive(Clone, Copy, Drop)]
pub struct Turn<'a> {
    pub left: &'a [Added],
    pub right: &'a [Added],
    pub is_kept: bool,
    pub listed: Option<&'a [Shown<'a>]>,
}

// Commits what is pending, or drops it.
fn settle<E: Operator>(engine: &mut E, is_kept: bool)
    ensures idle { (E.standing engine.new).is_pending ≡ false }
    ensures stands { (A B C D : Dataset) → (E.standing engine.old).StandsFor A B → (E.standing engine.old).StandsPending C D → (E.standing engine.new).StandsFor (if is_kept then C else A) (if is_kept then D else B) }
    ensures same { (E.standing engine.new).meaning ≡ (E.standing engine.old).meaning }
{
    if is_kept {
        engine.commit();
    } else {
        engine.abort();
    }
}

// Makes changes of both inputs pending, and then commits or drops them. Tells whether they fit.
fn change<E: Operator, L: Ledger>(
    engine: &mut E,
    left: &HeldSet,
    right: &HeldSet,
    on_left: &[Change],
    on_right: &[Change],
    is_kept: bool,
    out: &mut Vec<Change>,
    steps: &mut Steps<L>,
) -> Result<bool, AddFault>
    requires serves { Serves E.standing engine.old left.now.committed right.now.committed }
    requires on_left { AreChangesOf on_left.now left.now.committed }
    requires on_right { AreChangesOf on_right.now right.now.committed }
    requires left_rows { All (λ c. kinds_of c.row ≡ two_ints) on_left.now }
    requires right_rows { All (λ c. kinds_of c.row ≡ two_ints) on_right.now }
    ensures { IfOk result (λ fits. Serves E.standing engine.new
        (if fits && is_kept then applied left.now.committed on_left.now else left.now.committed)
        (if fits && is_kept then applied right.now.committed on_right.now else right.now.committed)) }
{
    // Tell that the weights are in range.
    let _left = left.all_changes()?;
    let _right = right.all_changes()?;
    match engine.prepare(on_left, on_right, out, steps) {
        Ok(()) => {
            settle(engine, is_kept);
            Ok(true)
        }
        Err(OpFault::Range) => Ok(false),
        Err(OpFault::Memory) => Err(AddFault::Memory),
    }
}

// The changes that adding rows to an input makes.
fn changes_of(
    rt: &impl Abort,
    alloc: Global,
    input: &HeldSet,
    rows: &[Added],
) -> Result<Vec<Change>, AddFault>
    requires { input.now.pending ≡ input.now.committed }
    ensures changes { IfOk result (λ changes. AreChangesOf changes.items input.now.committed) }
    ensures rows { IfOk result (λ changes. All (λ c. kinds_of c.row ≡ two_ints) changes.items) }
{
    let added = pair_fractions(alloc, rows)?;
    let changes = input.changes_of(added.as_slice(), true)?;
    law_changes();
    assert!(rt; have_columns(changes.as_slice(), two_ints()));
    Ok(changes)
}

// Makes changes to an input.
fn put(input: &mut HeldSet, changes: &[Change]) -> Result<(), AddFault>
    requires settled { input.old.pending ≡ input.old.committed }
    requires changes { AreChangesOf changes.now input.old.committed }
    ensures settled { OnOk result (input.new.pending ≡ input.new.committed) }
    ensures put { OnOk result (input.new.committed ≡ applied input.old.committed changes.now) }
{
    input.prepare(changes)?;
    input.commit();
    Ok(())
}

// Adds rows to the inputs of an engine, and then commits or drops what comes of it. Tells whether it fits.
fn follow<E: Operator, L: Ledger>(
    rt: &impl Abort,
    engine: &mut E,
    left: &mut HeldSet,
    right: &mut HeldSet,
    turned: &Turn,
    out: &mut Vec<Change>,
    steps: &mut Steps<L>,
) -> Result<bool, AddFault>
    requires left_settled { left.old.pending ≡ left.old.committed }
    requires right_settled { right.old.pending ≡ right.old.committed }
    requires serves { Serves E.standing engine.old left.old.committed right.old.committed }
    ensures left_settled { OnOk result (left.new.pending ≡ left.new.committed) }
    ensures right_settled { OnOk result (right.new.pending ≡ right.new.committed) }
    ensures serves { OnOk result (Serves E.standing engine.new left.new.committed right.new.committed) }
{
    let alloc = *out.allocator();
    let is_kept = turned.is_kept;
    let on_left = changes_of(rt, alloc, left, turned.left)?;
    let on_right = changes_of(rt, alloc, right, turned.right)?;
    let fits = change(
        engine,
        left,
        right,
        on_left.as_slice(),
        on_right.as_slice(),
        is_kept,
        out,
        steps,
    )?;
    if fits && is_kept {
        put(left, on_left.as_slice())?;
        put(right, on_right.as_slice())?;
    }
    Ok(fits)
}

/// Takes an engine whose inputs are empty through turns, and compares the changes that it lists.
pub fn follow_all<E: Operator, L: Ledger>(
    rt: &impl Abort,
    alloc: Global,
    engine: &mut E,
    turns: &[Turn],
    steps: &mut Steps<L>,
) -> Result<(), AddFault>
    requires { Serves E.standing engine.old empty empty }
{
    let mut left = HeldSet::new(alloc);
    let mut right = HeldSet::new(alloc);
    let mut out = Vec::new(alloc);
    for turn in turns {
        let fits = follow(rt, engine, &mut left, &mut right, turn, &mut out, steps)?;
        assert_eq!(rt; fits, turn.listed.is_some());
        assert!(rt; are_shown(out.as_slice(), turn.listed.unwrap_or(&[])));
    }
    Ok(())
}
