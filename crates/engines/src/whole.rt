//! The plain engine, which works the whole output out anew at each change.
ghost use Rattle.std.specs.Prelude.{◌≡◌, ◌≢◌, IfErr, IfOk, false};
ghost use Rattle.datasets.specs.Dataset.{at, empty};
ghost use Rattle.datasets.specs.Entries.{Row};
ghost use Rattle.ratios.specs.Ratio.{zero_ratio};
ghost use Rattle.weighted_set.specs.Parts.{FactoredInRange};
ghost use Rattle.weighted_set.specs.Standing.{AnswersChanges, ChangesMisfit, HasInputs};
ghost use Rattle.weighted_set.specs.declared.part_op.OpFault.TheVariants as fault;
ghost use Rattle.engines.specs.Engines.{plain_standing, whole_standing};
ghost use Rattle.engines.specs.WholeInputs.{HaveSettled, IsMadeOf};

use crate::inputs::put_changes;
use crate::keyed::stage;
use std::alloc::Global;
use std::sync::ledger::Ledger;
use steps::Steps;
use weighted_set::{Change, HeldSet, OpFault, Operator, PartOp, PartStore, Side};

/// An operator with its whole inputs. At each change the parts of all keys are made anew, and only `pending`
/// and the inputs are kept.
#[derive(Drop)]
pub struct Whole<O: PartOp> {
    op: O,
    left: HeldSet,
    right: HeldSet,
    pending: bool,
    alloc: Global,
}

impl<O: PartOp> Whole<O> {
    /// The operator with two empty inputs.
    pub fn new(op: O, alloc: Global) -> Whole<O>
        ensures stands { (⟦<Whole<O> as Operator>⟧.standing result).StandsFor empty empty }
        ensures idle { (⟦<Whole<O> as Operator>⟧.standing result).is_pending ≡ false }
        ensures op { result.op ≡ op }
    {
        Whole {
            op,
            left: HeldSet::new(alloc),
            right: HeldSet::new(alloc),
            pending: false,
            alloc,
        }
    }
}

impl<O: PartOp> Operator for Whole<O> {
    ghost standing = { λ it. whole_standing O.PartOp it.op it.left it.right it.pending };

    fn prepare<L: Ledger>(
        &mut self,
        left: &[Change],
        right: &[Change],
        out: &mut Vec<Change>,
        steps: &mut Steps<L>,
    ) -> Result<(), OpFault> {
        out.clear();
        self.pending = true;
        match work_out(
            self.alloc,
            &self.op,
            &mut self.left,
            &mut self.right,
            left,
            right,
            steps,
        ) {
            Ok(changes) => {
                *out = changes;
                Ok(())
            }
            Err(fault) => {
                self.abort();
                Err(fault)
            }
        }
    }

    fn commit(&mut self) {
        if self.pending {
            self.left.commit();
            self.right.commit();
            self.pending = false;
        }
    }

    fn abort(&mut self) {
        self.left.abort();
        self.right.abort();
        self.pending = false;
    }

    ghost in_range = { λ it. O.output_in_range it.op };
}

// The parts of an input. Since each weight times each factor of its row is in range, `Range` is never answered.
fn parts_of<O: PartOp, L: Ledger>(
    alloc: Global,
    op: &O,
    side: Side,
    input: &HeldSet,
    steps: &mut Steps<L>,
) -> Result<PartStore, OpFault>
    requires rows { (x : Row) → at input.now.committed x ≢ zero_ratio → O.TakesRow op.now side x }
    requires factored { FactoredInRange (O.keys op.now side) input.now.committed }
    ensures made { IfOk result (IsMadeOf (O.keys op.now side) input.now.committed) }
    ensures in_range { IfErr result (λ e. e ≢ fault.Range) }
{
    let rows = input.all_changes()?;
    let mut store = PartStore::new(alloc);
    let mut keys = Vec::new(alloc);
    put_changes(
        alloc,
        op,
        side,
        &mut store,
        rows.as_slice(),
        &mut keys,
        steps,
    )?;
    store.commit();
    Ok(store)
}

// Makes the changes of both inputs pending, and lists the changes of the output in row order.
fn work_out<O: PartOp, L: Ledger>(
    alloc: Global,
    op: &O,
    left_input: &mut HeldSet,
    right_input: &mut HeldSet,
    left: &[Change],
    right: &[Change],
    steps: &mut Steps<L>,
) -> Result<Vec<Change>, OpFault>
    requires settled { HaveSettled left_input.old right_input.old }
    requires inputs { HasInputs (plain_standing O.PartOp op.now left_input.old right_input.old) left.now right.now }
    ensures ok { IfOk result (λ changes. AnswersChanges (plain_standing O.PartOp op.now left_input.old right_input.old) (plain_standing O.PartOp op.now left_input.new right_input.new) left.now right.now changes.items) }
    ensures range { IfErr result (λ e. e ≡ fault.Range → ChangesMisfit (plain_standing O.PartOp op.now left_input.old right_input.old) left.now right.now) }
    ensures left_committed { left_input.new.committed ≡ left_input.old.committed }
    ensures right_committed { right_input.new.committed ≡ right_input.old.committed }
{
    left_input.prepare(left)?;
    right_input.prepare(right)?;
    let mut left_parts = parts_of(alloc, op, Side::Left, left_input, steps)?;
    let mut right_parts = parts_of(alloc, op, Side::Right, right_input, steps)?;
    stage(
        alloc,
        op,
        &mut left_parts,
        &mut right_parts,
        left,
        right,
        steps,
    )
}
