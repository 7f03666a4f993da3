//! Operators that are kept up to date.
ghost use Rattle.std.specs.Prelude.{◌≡◌, [], IfErr, OnErr, OnOk, false};
ghost use Rattle.weighted_set.specs.Standing.{AnswersChanges, ChangesMisfit, CommitsStanding, HasInputs, KeepsRange, KeepsStanding, KeepsWork, Standing};
ghost use Rattle.weighted_set.specs.declared.part_op.OpFault.TheVariants as fault;

use crate::part_op::OpFault;
use crate::weighted::Change;
use std::sync::ledger::Ledger;
use steps::Steps;

/// An operator on two inputs that change in two steps. An operator of one input leaves the right one empty.
pub trait Operator {
    /// What the operator means, and what it holds.
    ghost standing: { Self → Standing };

    /// Makes the changes of both inputs pending, and lists the changes of the output in row order. `out` is
    /// emptied first. After a refusal nothing is pending. It takes at most eight ticks for each unit of work.
    fn prepare<L: Ledger>(
        &mut self,
        left: &[Change],
        right: &[Change],
        out: &mut Vec<Change>,
        steps: &mut Steps<L>,
    ) -> Result<(), OpFault>
        requires idle { (standing self.old).is_pending ≡ false }
        requires inputs { HasInputs (standing self.old) left.now right.now }
        ensures ok { OnOk result (AnswersChanges (standing self.old) (standing self.new) left.now right.now out.new.items) }
        ensures range { IfErr result (λ e. e ≡ fault.Range → ChangesMisfit (standing self.old) left.now right.now) }
        ensures err { OnErr result (((standing self.new).is_pending ≡ false) × (out.new.items ≡ [])) }
        ensures committed { KeepsStanding (standing self.old) (standing self.new) }
        ensures same { (standing self.new).meaning ≡ (standing self.old).meaning }
        ensures work { KeepsWork (standing self.old) left.now right.now steps.old steps.new };

    /// Makes the pending inputs the committed ones.
    fn commit(&mut self)
        ensures idle { (standing self.new).is_pending ≡ false }
        ensures committed { CommitsStanding (standing self.old) (standing self.new) }
        ensures unchanged { (standing self.old).is_pending ≡ false → KeepsStanding (standing self.old) (standing self.new) }
        ensures same { (standing self.new).meaning ≡ (standing self.old).meaning };

    /// Drops the pending inputs.
    fn abort(&mut self)
        ensures idle { (standing self.new).is_pending ≡ false }
        ensures committed { KeepsStanding (standing self.old) (standing self.new) }
        ensures same { (standing self.new).meaning ≡ (standing self.old).meaning };

    /// Where the inputs fit, the output's weights are in range.
    ghost in_range: { (it : Self) → KeepsRange (standing it).meaning };
}
