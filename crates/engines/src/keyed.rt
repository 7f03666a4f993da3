//! The engine that keeps an operator up to date key by key.
ghost use Rattle.std.specs.Prelude.{◌≡◌, ◌+◌, ◌≤◌, ◌⊎◌, All, IfErr, IfOk, false};
ghost use Rattle.datasets.specs.Dataset.{empty};
ghost use Rattle.datasets.specs.Entries.{Row};
ghost use Rattle.weighted_set.specs.Standing.{AnswersChanges, ChangesMisfit, HasInputs, KeepsWork};
ghost use Rattle.weighted_set.specs.declared.part_op.OpFault.TheVariants as fault;
ghost use Rattle.weighted_set.specs.declared.part_op.Side.TheVariants.{Left, Right};
ghost use Rattle.engines.specs.Engines.{keyed_standing, settled_standing};
ghost use Rattle.engines.specs.Products.{changes_in_range};
ghost use Rattle.engines.specs.Standing.{PutInputs};
ghost use Rattle.engines.specs.Ticks.{changes_ticks};
ghost use Rattle.weighted_set.specs.Parts.{committed_part, pending_part};

use crate::inputs::{check_range, put_changes, sort_rows};
use crate::outputs::stage_keys;
use record_text::Row;
use std::alloc::Global;
use std::sync::ledger::Ledger;
use steps::Steps;
use weighted_set::{Change, OpFault, Operator, PartOp, PartStore, Side};

/// An operator with the parts of its inputs by key. Only the outputs of keys whose part changes are worked
/// out anew.
#[derive(Drop)]
pub struct Keyed<O: PartOp> {
    op: O,
    left: PartStore,
    right: PartStore,
    pending: bool,
    alloc: Global,
}

impl<O: PartOp> Keyed<O> {
    /// The operator with two empty inputs.
    pub fn new(op: O, alloc: Global) -> Keyed<O>
        ensures stands { (⟦<Keyed<O> as Operator>⟧.standing result).StandsFor empty empty }
        ensures idle { (⟦<Keyed<O> as Operator>⟧.standing result).is_pending ≡ false }
        ensures op { result.op ≡ op }
    {
        Keyed {
            op,
            left: PartStore::new(alloc),
            right: PartStore::new(alloc),
            pending: false,
            alloc,
        }
    }

    /// What is kept, besides whether changes are pending: the operator, and the parts of both inputs.
    pub fn kept(&self) -> (&O, &PartStore, &PartStore)
        ensures op { result.0.now ≡ self.now.op }
        ensures left { result.1.now ≡ self.now.left }
        ensures right { result.2.now ≡ self.now.right }
    {
        // With each field by its name and type, a further one doesn't compile.
        let Keyed {
            op,
            left,
            right,
            pending,
            alloc,
        } = self;
        let _pending: &bool = pending;
        let _alloc: &Global = alloc;
        (op, left, right)
    }
}

impl<O: PartOp> Operator for Keyed<O> {
    ghost standing = { λ it. keyed_standing O.PartOp it.op it.left it.right it.pending };

    fn prepare<L: Ledger>(
        &mut self,
        left: &[Change],
        right: &[Change],
        out: &mut Vec<Change>,
        steps: &mut Steps<L>,
    ) -> Result<(), OpFault> {
        out.clear();
        self.pending = true;
        match stage(
            self.alloc,
            &self.op,
            &mut self.left,
            &mut self.right,
            left,
            right,
            steps,
        ) {
            Ok(changes) => {
                *out = changes;
                Ok(())
            }
            Err(fault) => {
                self.abort();
                Err(fault)
            }
        }
    }

    fn commit(&mut self) {
        if self.pending {
            self.left.commit();
            self.right.commit();
            self.pending = false;
        }
    }

    fn abort(&mut self) {
        self.left.abort();
        self.right.abort();
        self.pending = false;
    }

    ghost in_range = { λ it. O.output_in_range it.op };
}

// Makes the changes of both inputs pending, and lists the keys whose part may change. `Range` says that a new
// weight times a factor of its row is out of range.
fn put_inputs<O: PartOp, L: Ledger>(
    alloc: Global,
    op: &O,
    left_store: &mut PartStore,
    right_store: &mut PartStore,
    left: &[Change],
    right: &[Change],
    steps: &mut Steps<L>,
) -> Result<Vec<Row>, OpFault>
    requires left_rows { All (λ c. O.TakesRow op.now Left c.row) left.now }
    requires right_rows { All (λ c. O.TakesRow op.now Right c.row) right.now }
    ensures put { IfOk result (λ touched. PutInputs (O.keys op.now Left) (O.keys op.now Right) left.now right.now left_store.old right_store.old left_store.new right_store.new touched.items) }
    ensures range { IfErr result (λ e. e ≡ fault.Range → (changes_in_range (O.keys op.now Left) left.now ≡ false) ⊎ (changes_in_range (O.keys op.now Right) right.now ≡ false)) }
    ensures left_committed { (k : Row) → committed_part left_store.new k ≡ committed_part left_store.old k }
    ensures right_committed { (k : Row) → committed_part right_store.new k ≡ committed_part right_store.old k }
    ensures ticks { steps.new ≤ steps.old + (changes_ticks (O.keys op.now Left) left.now + changes_ticks (O.keys op.now Right) right.now) }
{
    let mut keys = Vec::with_capacity(alloc, left.len() + right.len())?;
    put_changes(alloc, op, Side::Left, left_store, left, &mut keys, steps)?;
    put_changes(alloc, op, Side::Right, right_store, right, &mut keys, steps)?;
    sort_rows(&mut keys);
    Ok(keys)
}

// Makes the changes of both inputs pending, and lists the changes of the output in row order.
pub(crate) fn stage<O: PartOp, L: Ledger>(
    alloc: Global,
    op: &O,
    left_store: &mut PartStore,
    right_store: &mut PartStore,
    left: &[Change],
    right: &[Change],
    steps: &mut Steps<L>,
) -> Result<Vec<Change>, OpFault>
    requires { HasInputs (settled_standing O.PartOp op.now left_store.old right_store.old) left.now right.now }
    ensures ok { IfOk result (λ changes. AnswersChanges (settled_standing O.PartOp op.now left_store.old right_store.old) (settled_standing O.PartOp op.now left_store.new right_store.new) left.now right.now changes.items) }
    ensures range { IfErr result (λ e. e ≡ fault.Range → ChangesMisfit (settled_standing O.PartOp op.now left_store.old right_store.old) left.now right.now) }
    ensures left_committed { (k : Row) → committed_part left_store.new k ≡ committed_part left_store.old k }
    ensures right_committed { (k : Row) → committed_part right_store.new k ≡ committed_part right_store.old k }
    ensures work { KeepsWork (settled_standing O.PartOp op.now left_store.old right_store.old) left.now right.now steps.old steps.new }
{
    check_range(left);
    check_range(right);
    let touched = put_inputs(alloc, op, left_store, right_store, left, right, steps)?;
    let changes = stage_keys(
        alloc,
        op,
        left_store,
        right_store,
        touched.as_slice(),
        steps,
    )?;
    Ok(changes)
}
