//! The changes of the outputs of keys.
ghost use Rattle.std.specs.Prelude.{◌≡◌, ◌+◌, ◌≤◌, ◌++◌, ◌∷◌, [], IfErr, IfOk, List, OnOk, false, true};
ghost use Rattle.datasets.specs.Dataset.{Dataset};
ghost use Rattle.datasets.specs.Entries.{AreRising, Row, has_row};
ghost use Rattle.weighted_set.specs.Changes.{changed_rows};
ghost use Rattle.weighted_set.specs.declared.part_op.OpFault.TheVariants as fault;
ghost use Rattle.engines.specs.Staging.{AreOutputChanges, outputs_by};
ghost use Rattle.engines.specs.Ticks.{key_ticks, keys_ticks};
ghost use Rattle.weighted_set.specs.Parts.{committed_part, pending_part};

use record_text::Row;
use std::alloc::Global;
use std::sync::ledger::Ledger;
use steps::Steps;
use weighted_set::{Change, OpFault, PartOp, PartStore, Weighted, push_changes};

// The rows of both inputs at a key and its output rows, before and after. They are filled anew for each key.
#[derive(Drop)]
struct Lists {
    left_before: Vec<Weighted>,
    left_after: Vec<Weighted>,
    right_before: Vec<Weighted>,
    right_after: Vec<Weighted>,
    before: Vec<Weighted>,
    after: Vec<Weighted>,
}

impl Lists {
    fn new(alloc: Global) -> Lists {
        Lists {
            left_before: Vec::new(alloc),
            left_after: Vec::new(alloc),
            right_before: Vec::new(alloc),
            right_after: Vec::new(alloc),
            before: Vec::new(alloc),
            after: Vec::new(alloc),
        }
    }
}

// Puts the changes of the output rows of a key behind a list.
fn stage_key<O: PartOp, L: Ledger>(
    op: &O,
    left: &PartStore,
    right: &PartStore,
    key: &Row,
    lists: &mut Lists,
    changes: &mut Vec<Change>,
    steps: &mut Steps<L>,
) -> Result<(), OpFault>
    requires before { O.TakesPart op.now key.now (committed_part left.now key.now) (committed_part right.now key.now) }
    requires after { O.TakesPart op.now key.now (pending_part left.now key.now) (pending_part right.now key.now) }
    ensures staged { OnOk result ((done : List Row) → AreOutputChanges (O.owner op.now) (outputs_by (O.outputs op.now) (committed_part left.now) (committed_part right.now)) (outputs_by (O.outputs op.now) (pending_part left.now) (pending_part right.now)) done changes.old.items → AreOutputChanges (O.owner op.now) (outputs_by (O.outputs op.now) (committed_part left.now) (committed_part right.now)) (outputs_by (O.outputs op.now) (pending_part left.now) (pending_part right.now)) (done ++ key.now ∷ []) changes.new.items) }
    ensures fits { OnOk result (O.part_fits op.now key.now (pending_part left.now key.now) (pending_part right.now key.now) ≡ true) }
    ensures range { IfErr result (λ e. e ≡ fault.Range → O.part_fits op.now key.now (committed_part left.now key.now) (committed_part right.now key.now) ≡ true → O.part_fits op.now key.now (pending_part left.now key.now) (pending_part right.now key.now) ≡ false) }
    ensures ticks { steps.new ≤ steps.old + key_ticks left.now right.now key.now }
{
    left.read_both(key, &mut lists.left_before, &mut lists.left_after, steps)?;
    right.read_both(key, &mut lists.right_before, &mut lists.right_after, steps)?;
    op.part_out(
        key,
        lists.left_before.as_slice(),
        lists.right_before.as_slice(),
        &mut lists.before,
        steps,
    )?;
    op.part_out(
        key,
        lists.left_after.as_slice(),
        lists.right_after.as_slice(),
        &mut lists.after,
        steps,
    )?;
    push_changes(lists.before.as_slice(), lists.after.as_slice(), changes)?;
    Ok(())
}

// Puts changes of outputs in row order.
fn sort_changes(changes: &mut Vec<Change>)
    ensures { (owner : Row → Row) (before after : Row → Dataset) (done : List Row) → AreOutputChanges owner before after done changes.old.items → AreOutputChanges owner before after done changes.new.items × AreRising (changed_rows changes.new.items) }
{
    changes.sort_unstable();
    // No row is there twice, which a list in order without repetitions shows.
    changes.dedup();
}

/// The changes of the output rows of these keys, in row order.
pub fn stage_keys<O: PartOp, L: Ledger>(
    alloc: Global,
    op: &O,
    left: &PartStore,
    right: &PartStore,
    keys: &[Row],
    steps: &mut Steps<L>,
) -> Result<Vec<Change>, OpFault>
    requires before { (k : Row) → O.TakesPart op.now k (committed_part left.now k) (committed_part right.now k) }
    requires after { (k : Row) → O.TakesPart op.now k (pending_part left.now k) (pending_part right.now k) }
    ensures staged { IfOk result (λ changes. AreOutputChanges (O.owner op.now) (outputs_by (O.outputs op.now) (committed_part left.now) (committed_part right.now)) (outputs_by (O.outputs op.now) (pending_part left.now) (pending_part right.now)) keys.now changes.items) }
    ensures rising { IfOk result (λ changes. AreRising (changed_rows changes.items)) }
    ensures fits { OnOk result ((k : Row) → has_row keys.now k ≡ true → O.part_fits op.now k (pending_part left.now k) (pending_part right.now k) ≡ true) }
    ensures range { IfErr result (λ e. e ≡ fault.Range → ((k : Row) → O.part_fits op.now k (committed_part left.now k) (committed_part right.now k) ≡ true) → (k : Row) × (O.part_fits op.now k (pending_part left.now k) (pending_part right.now k) ≡ false)) }
    ensures ticks { steps.new ≤ steps.old + keys_ticks left.now right.now keys.now }
{
    let mut lists = Lists::new(alloc);
    let mut changes = Vec::with_capacity(alloc, keys.len())?;
    for key in keys {
        stage_key(op, left, right, key, &mut lists, &mut changes, steps)?;
    }
    sort_changes(&mut changes);
    Ok(changes)
}
