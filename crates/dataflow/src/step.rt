//! One step of a plan.
ghost use Rattle.std.specs.Prelude.{◌≡◌, ◌<◌, IfErr, OnOk, false, length, map};
ghost use Rattle.dataflow.specs.Changes.{changes_at as changes_of_step, right_changes};
ghost use Rattle.dataflow.specs.Standing.{KeepsInputs, StepAnswers, StepHasInputs, StepKeepsWork, StepMisfits};
ghost use Rattle.dataflow.specs.Wiring.{AreWired, RightBefore, wire_at};
ghost use Rattle.weighted_set.specs.declared.part_op.OpFault.TheVariants as fault;

use crate::wire::Wire;
use std::sync::ledger::Ledger;
use steps::Steps;
use weighted_set::{Change, OpFault, Operator};

/// The changes of a step: of a source, which are never copied, or of the output of an operator.
pub fn changes_at<'a>(
    wires: &[Wire],
    sources: &[&'a [Change]],
    lists: &'a [Vec<Change>],
    at: usize,
) -> &'a [Change]
    requires wired { AreWired wires.now (length sources.now) }
    requires within { at < length wires.now }
    requires listed { at < length lists.now }
    ensures { result.now ≡ changes_of_step wires.now (map (λ s. s.now) sources.now) (map (λ l. l.items) lists.now) at }
{
    match wires[at] {
        Wire::Source(source) => sources[source],
        Wire::Of { .. } => lists[at].as_slice(),
    }
}

// The changes of a right input, none where it is absent.
fn right_changes<'a>(
    wires: &[Wire],
    sources: &[&'a [Change]],
    lists: &'a [Vec<Change>],
    at: Option<usize>,
) -> &'a [Change]
    requires wired { AreWired wires.now (length sources.now) }
    requires within { length lists.now < length wires.now }
    requires listed { RightBefore (length lists.now) at }
    ensures { result.now ≡ right_changes wires.now (map (λ s. s.now) sources.now) (map (λ l. l.items) lists.now) at }
{
    match at {
        Some(at) => changes_at(wires, sources, lists, at),
        None => &[],
    }
}

/// Makes the changes of the inputs of the step at a place pending, and lists those of its output. `lists` has the
/// lists of the steps before. `out` stays as it is for a source, which takes no ticks.
pub fn prepare_step<N: Operator, L: Ledger>(
    node: &mut N,
    wires: &[Wire],
    sources: &[&[Change]],
    lists: &[Vec<Change>],
    at: usize,
    out: &mut Vec<Change>,
    steps: &mut Steps<L>,
) -> Result<(), OpFault>
    requires wired { AreWired wires.now (length sources.now) }
    requires within { at < length wires.now }
    requires listed { length lists.now ≡ at }
    requires idle { (N.standing node.old).is_pending ≡ false }
    requires inputs { let given = map (λ s. s.now) sources.now in StepHasInputs (N.standing node.old) wires.now given (map (λ l. l.items) lists.now) (wire_at wires.now at) }
    ensures ok { let given = map (λ s. s.now) sources.now in let made = map (λ l. l.items) lists.now in OnOk result (StepAnswers (N.standing node.old) (N.standing node.new) out.new.items wires.now given made (wire_at wires.now at)) }
    ensures range { let given = map (λ s. s.now) sources.now in let made = map (λ l. l.items) lists.now in IfErr result (λ e. e ≡ fault.Range → StepMisfits (N.standing node.old) wires.now given made (wire_at wires.now at)) }
    ensures work { let given = map (λ s. s.now) sources.now in let made = map (λ l. l.items) lists.now in StepKeepsWork (N.standing node.old) wires.now given made (wire_at wires.now at) steps.old steps.new }
    ensures committed { KeepsInputs N.standing node.old node.new }
    ensures same { (N.standing node.new).meaning ≡ (N.standing node.old).meaning }
{
    match wires[at] {
        Wire::Source(_) => Ok(()),
        Wire::Of { left, right } => {
            let left_list = changes_at(wires, sources, lists, left);
            let right_list = right_changes(wires, sources, lists, right);
            node.prepare(left_list, right_list, out, steps)
        }
    }
}
