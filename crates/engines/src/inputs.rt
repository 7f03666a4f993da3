//! Changes of an input, made pending key by key.
ghost use Rattle.std.specs.Prelude.{◌≡◌, ◌+◌, ◌≤◌, ◌++◌, ◌∷◌, [], All, IfErr, OnOk, false, length, true};
ghost use Rattle.datasets.specs.Dataset.{Dataset, rows, set_at};
ghost use Rattle.datasets.specs.Entries.{AreRising, Row, has_row, rows_of};
ghost use Rattle.weighted_set.specs.Changes.{applied, entries_of};
ghost use Rattle.weighted_set.specs.Held.{AllInRange};
ghost use Rattle.weighted_set.specs.Parts.{committed_part, pending_part};
ghost use Rattle.weighted_set.specs.declared.part_op.OpFault.TheVariants as fault;
ghost use Rattle.engines.specs.Products.{changes_in_range, products_in_range, with_products};
ghost use Rattle.engines.specs.Standing.{ArePartsOf};
ghost use Rattle.engines.specs.Ticks.{changes_ticks, size};
ghost use Rattle.engines.specs.Touched.{changed_keys};

use crate::Memory;
use record_text::Row;
use std::alloc::Global;
use std::sync::ledger::Ledger;
use steps::Steps;
use weighted_set::{Change, OpFault, PartOp, PartStore, Side, Weighted};

/// Tells that the new weights are in range.
pub fn check_range(changes: &[Change])
    ensures { (A : Dataset) → AllInRange A → AllInRange (applied A changes.now) }
{
    for change in changes {
        let _numerator = change.new.numer();
    }
}

// Makes the new weight of a change pending at each of these keys, times the key's factor. `Range` says that a
// product is out of range.
fn put_at_keys<L: Ledger>(
    store: &mut PartStore,
    change: &Change,
    keys: &[Weighted],
    steps: &mut Steps<L>,
) -> Result<(), OpFault>
    requires { AreRising (rows_of (entries_of keys.now)) }
    ensures committed { (k : Row) → committed_part store.new k ≡ committed_part store.old k }
    ensures pending { OnOk result ((k : Row) → pending_part store.new k ≡ with_products change.now.row change.now.new (entries_of keys.now) (pending_part store.old) k) }
    ensures fits { OnOk result (products_in_range change.now.new (entries_of keys.now) ≡ true) }
    ensures range { IfErr result (λ e. e ≡ fault.Range → products_in_range change.now.new (entries_of keys.now) ≡ false) }
    ensures ticks { steps.new ≤ steps.old + length keys.now }
{
    for key in keys {
        let Some(weight) = change.new.mul(key.weight) else {
            return Err(OpFault::Range);
        };
        store.put_pending(&key.row, &change.row, weight, steps)?;
    }
    Ok(())
}

// Moves the keys of a list behind the noted ones.
fn note_keys(keys: &mut Vec<Weighted>, touched: &mut Vec<Row>) -> Result<(), Memory>
    ensures { OnOk result (touched.new.items ≡ touched.old.items ++ rows_of (entries_of keys.old.items)) }
{
    for key in keys.drain(..) {
        touched.push(key.row)?;
    }
    Ok(())
}

// Makes the new weight of a change pending at each key of its row, times the key's factor, and notes the keys.
// `Range` says that a product is out of range.
fn put_change<O: PartOp, L: Ledger>(
    op: &O,
    side: Side,
    store: &mut PartStore,
    change: &Change,
    keys: &mut Vec<Weighted>,
    touched: &mut Vec<Row>,
    steps: &mut Steps<L>,
) -> Result<(), OpFault>
    requires { O.TakesRow op.now side change.now.row }
    ensures committed { (k : Row) → committed_part store.new k ≡ committed_part store.old k }
    ensures pending { OnOk result ((A : Dataset) → ArePartsOf (O.keys op.now side) (pending_part store.old) A → ArePartsOf (O.keys op.now side) (pending_part store.new) (set_at change.now.row change.now.new A)) }
    ensures touched { OnOk result ((k : Row) → has_row touched.new.items k ≡ false → (has_row touched.old.items k ≡ false) × (pending_part store.new k ≡ pending_part store.old k)) }
    ensures noted { OnOk result (touched.new.items ≡ touched.old.items ++ rows (O.keys op.now side change.now.row)) }
    ensures fits { OnOk result (products_in_range change.now.new (O.keys op.now side change.now.row).entries ≡ true) }
    ensures range { IfErr result (λ e. e ≡ fault.Range → products_in_range change.now.new (O.keys op.now side change.now.row).entries ≡ false) }
    ensures ticks { steps.new ≤ steps.old + size (O.keys op.now side change.now.row) }
{
    op.touch(side, &change.row, keys)?;
    put_at_keys(store, change, keys.as_slice(), steps)?;
    note_keys(keys, touched)?;
    Ok(())
}

/// Makes the changes of an input pending, and notes the keys whose part may change. `Range` says that a new
/// weight times a factor of its row is out of range.
pub fn put_changes<O: PartOp, L: Ledger>(
    alloc: Global,
    op: &O,
    side: Side,
    store: &mut PartStore,
    changes: &[Change],
    touched: &mut Vec<Row>,
    steps: &mut Steps<L>,
) -> Result<(), OpFault>
    requires { All (λ c. O.TakesRow op.now side c.row) changes.now }
    ensures committed { (k : Row) → committed_part store.new k ≡ committed_part store.old k }
    ensures pending { OnOk result ((A : Dataset) → ArePartsOf (O.keys op.now side) (pending_part store.old) A → ArePartsOf (O.keys op.now side) (pending_part store.new) (applied A changes.now)) }
    ensures touched { OnOk result ((k : Row) → has_row touched.new.items k ≡ false → (has_row touched.old.items k ≡ false) × (pending_part store.new k ≡ pending_part store.old k)) }
    ensures noted { OnOk result (touched.new.items ≡ touched.old.items ++ changed_keys (O.keys op.now side) changes.now) }
    ensures fits { OnOk result (changes_in_range (O.keys op.now side) changes.now ≡ true) }
    ensures range { IfErr result (λ e. e ≡ fault.Range → changes_in_range (O.keys op.now side) changes.now ≡ false) }
    ensures ticks { steps.new ≤ steps.old + changes_ticks (O.keys op.now side) changes.now }
{
    let mut keys = Vec::new(alloc);
    for change in changes {
        put_change(op, side, store, change, &mut keys, touched, steps)?;
    }
    Ok(())
}

/// Puts rows in order, each once.
pub fn sort_rows(rows: &mut Vec<Row>)
    ensures same { (k : Row) → has_row rows.new.items k ≡ has_row rows.old.items k }
    ensures rising { AreRising rows.new.items }
{
    rows.sort_unstable();
    rows.dedup();
}
