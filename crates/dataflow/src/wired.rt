//! Nodes with their wires, and the output of the last of them.
ghost use Rattle.std.specs.Prelude.{List, ◌-◌, ◌≡◌, ◌+◌, ◌≤◌, ℕ, ◌<◌, IfErr, OnErr, OnOk, length, map};
ghost use Rattle.dataflow.specs.Changes.{changes_at as changes_of_step};
ghost use Rattle.dataflow.specs.Outputs.{HoldRows};
ghost use Rattle.dataflow.specs.Standing.{meanings};
ghost use Rattle.dataflow.specs.Wiring.{AreWired};
ghost use Rattle.dataflow.specs.declared.passes.GraphFault.TheVariants as fault;
ghost use Rattle.dataflow.specs.declared.wire.Wire.{Wire};
ghost use Rattle.datasets.specs.Dataset.{Dataset};
ghost use Rattle.datasets.specs.Entries.{Row};
ghost use Rattle.weighted_set.specs.Changes.{applied};
ghost use Rattle.weighted_set.specs.Parts.{committed_part, pending_part};
ghost use Rattle.dataflow.specs.Wired.{AreAtRest, WiresCommit, WiresHaveInputs, WiresKeep, WiresKeepWork, WiresMisfit, WiresTurn};

use crate::passes::{GraphFault, abort_all, commit_all, prepare_all};
use crate::rows::put_rows;
use crate::step::changes_at;
use crate::wire::Wire;
use std::alloc::{AllocError as Memory, Global};
use std::sync::ledger::Ledger;
use steps::Steps;
use weighted_set::{Change, Operator, PartStore};

// Makes the changes of the last step pending in the output. After a refusal nothing is pending there.
fn put_last<L: Ledger>(
    out: &mut PartStore,
    wires: &[Wire],
    sources: &[&[Change]],
    lists: &[Vec<Change>],
    steps: &mut Steps<L>,
) -> Result<(), Memory>
    requires some { 0 < length wires.now }
    requires wired { AreWired wires.now (length sources.now) }
    requires listed { length lists.now ≡ length wires.now }
    ensures committed { (k : Row) → committed_part out.new k ≡ committed_part out.old k }
    ensures ok { OnOk result ((A : Dataset) → HoldRows (pending_part out.old) A → HoldRows (pending_part out.new) (applied A (changes_of_step wires.now (map (λ s. s.now) sources.now) (map (λ l. l.items) lists.now) (length wires.now - 1)))) }
    ensures err { OnErr result ((k : Row) → pending_part out.new k ≡ committed_part out.old k) }
    ensures ticks { steps.new ≤ steps.old + length (changes_of_step wires.now (map (λ s. s.now) sources.now) (map (λ l. l.items) lists.now) (length wires.now - 1)) }
{
    let last = wires.len() - 1;
    put_rows(out, changes_at(wires, sources, lists, last), steps)
}

/// Makes the changes of the sources, a list for each, pending in all nodes and in the output. `Range` names the
/// first step that doesn't fit. After a refusal nothing is pending. It takes at most eight ticks for each unit of the
/// steps' work, and one for each changed row of the output.
pub fn prepare_wired<N: Operator, L: Ledger>(
    alloc: Global,
    nodes: &mut [N],
    out: &mut PartStore,
    wires: &[Wire],
    sources: &[&[Change]],
    steps: &mut Steps<L>,
) -> Result<(), GraphFault>
    requires some { 0 < length wires.now }
    requires same_length { length nodes.old ≡ length wires.now }
    requires wired { AreWired wires.now (length sources.now) }
    requires at_rest { AreAtRest N.standing nodes.old out.old }
    requires inputs { WiresHaveInputs N.standing nodes.old out.old wires.now (map (λ s. s.now) sources.now) }
    ensures ok { let given = map (λ s. s.now) sources.now in OnOk result (WiresTurn N.standing nodes.old out.old nodes.new out.new wires.now given) }
    ensures range { let given = map (λ s. s.now) sources.now in IfErr result (λ e. (i : ℕ) → e ≡ fault.Range i → WiresMisfit N.standing nodes.old out.old wires.now given i) }
    ensures work { let given = map (λ s. s.now) sources.now in WiresKeepWork N.standing nodes.old out.old wires.now given steps.old steps.new }
    ensures err { OnErr result (AreAtRest N.standing nodes.new out.new) }
    ensures committed { WiresKeep N.standing nodes.old out.old nodes.new out.new wires.now }
    ensures same { meanings N.standing nodes.new ≡ meanings N.standing nodes.old }
{
    let mut lists = Vec::new(alloc);
    match prepare_all(alloc, nodes, wires, sources, &mut lists, steps) {
        Ok(()) => match put_last(out, wires, sources, lists.as_slice(), steps) {
            Ok(()) => Ok(()),
            Err(_) => {
                abort_all(nodes);
                Err(GraphFault::Memory)
            }
        },
        Err(fault) => Err(fault),
    }
}

/// Makes what is pending the committed state.
pub fn commit_wired<N: Operator>(nodes: &mut [N], out: &mut PartStore)
    ensures at_rest { AreAtRest N.standing nodes.new out.new }
    ensures committed { (wires : List Wire) → WiresCommit N.standing nodes.old out.old nodes.new out.new wires }
    ensures unchanged { AreAtRest N.standing nodes.old out.old → (wires : List Wire) → WiresKeep N.standing nodes.old out.old nodes.new out.new wires }
    ensures same { meanings N.standing nodes.new ≡ meanings N.standing nodes.old }
{
    commit_all(nodes);
    out.commit();
}

/// Drops what is pending.
pub fn abort_wired<N: Operator>(nodes: &mut [N], out: &mut PartStore)
    ensures at_rest { AreAtRest N.standing nodes.new out.new }
    ensures committed { (wires : List Wire) → WiresKeep N.standing nodes.old out.old nodes.new out.new wires }
    ensures same { meanings N.standing nodes.new ≡ meanings N.standing nodes.old }
{
    abort_all(nodes);
    out.abort();
}
