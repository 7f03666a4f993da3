//! Changes, sent through all steps.
ghost use Rattle.std.specs.Prelude.{◌++◌, ◌∷◌, ◌≡◌, ℕ, ◌<◌, IfErr, OnErr, OnOk, [], length, map};
ghost use Rattle.dataflow.specs.Faults.{fault_at};
ghost use Rattle.dataflow.specs.Standing.{AreIdle, CommitsInputs, EachPair, HaveAnswered, HaveInputs, KeepWork, KeepsInputs, Misfits, meanings};
ghost use Rattle.dataflow.specs.Wiring.{AreWired};
ghost use Rattle.dataflow.specs.declared.passes.GraphFault.TheVariants as fault;

use crate::step::prepare_step;
use crate::wire::Wire;
use std::alloc::Global;
use std::sync::ledger::Ledger;
use steps::Steps;
use weighted_set::{Change, Memory, OpFault, Operator};

/// Why a graph has no answer.
#[derive(Clone, Copy, Debug, PartialEq, Eq)]
pub enum GraphFault {
    /// A value that this step passes through is out of range.
    Range { step: usize },
    /// There was no memory.
    Memory,
}

impl From<Memory> for GraphFault {
    ghost from_gives = { λ _ e. e ≡ fault.Memory };

    fn from(_e: Memory) -> GraphFault {
        GraphFault::Memory
    }
}

/// Makes the changes of the sources, a list for each, pending in all steps, and lists the changes of each step's
/// output; the list of a source stays empty, and `changes_at` tells its changes. `lists` is emptied first. After a
/// refusal nothing is pending, and no list is left. It takes at most eight ticks for each unit of the steps' work.
pub fn prepare_all<N: Operator, L: Ledger>(
    alloc: Global,
    nodes: &mut [N],
    wires: &[Wire],
    sources: &[&[Change]],
    lists: &mut Vec<Vec<Change>>,
    steps: &mut Steps<L>,
) -> Result<(), GraphFault>
    requires same_length { length nodes.old ≡ length wires.now }
    requires wired { AreWired wires.now (length sources.now) }
    requires idle { AreIdle N.standing nodes.old }
    requires inputs { HaveInputs N.standing nodes.old wires.now (map (λ s. s.now) sources.now) }
    ensures length { OnOk result (length lists.new.items ≡ length wires.now) }
    ensures ok { let given = map (λ s. s.now) sources.now in OnOk result (HaveAnswered N.standing nodes.old nodes.new wires.now given (map (λ l. l.items) lists.new.items)) }
    ensures range { let given = map (λ s. s.now) sources.now in IfErr result (λ e. (i : ℕ) → e ≡ fault.Range i → Misfits N.standing nodes.old wires.now given i) }
    ensures work { let given = map (λ s. s.now) sources.now in KeepWork N.standing nodes.old wires.now given steps.old steps.new }
    ensures committed { EachPair (KeepsInputs N.standing) nodes.old nodes.new }
    ensures same { meanings N.standing nodes.new ≡ meanings N.standing nodes.old }
    ensures err { OnErr result (AreIdle N.standing nodes.new × (lists.new.items ≡ [])) }
{
    lists.clear();
    match prepare_each(alloc, nodes, wires, sources, lists, steps) {
        Ok(()) => Ok(()),
        Err(fault) => {
            abort_all(nodes);
            lists.clear();
            Err(fault)
        }
    }
}

// The steps before the one that refuses are left pending.
fn prepare_each<N: Operator, L: Ledger>(
    alloc: Global,
    nodes: &mut [N],
    wires: &[Wire],
    sources: &[&[Change]],
    lists: &mut Vec<Vec<Change>>,
    steps: &mut Steps<L>,
) -> Result<(), GraphFault>
    requires empty { lists.old.items ≡ [] }
    requires same_length { length nodes.old ≡ length wires.now }
    requires wired { AreWired wires.now (length sources.now) }
    requires idle { AreIdle N.standing nodes.old }
    requires inputs { HaveInputs N.standing nodes.old wires.now (map (λ s. s.now) sources.now) }
    ensures length { OnOk result (length lists.new.items ≡ length wires.now) }
    ensures ok { let given = map (λ s. s.now) sources.now in OnOk result (HaveAnswered N.standing nodes.old nodes.new wires.now given (map (λ l. l.items) lists.new.items)) }
    ensures range { let given = map (λ s. s.now) sources.now in IfErr result (λ e. (i : ℕ) → e ≡ fault.Range i → Misfits N.standing nodes.old wires.now given i) }
    ensures work { let given = map (λ s. s.now) sources.now in KeepWork N.standing nodes.old wires.now given steps.old steps.new }
    ensures committed { EachPair (KeepsInputs N.standing) nodes.old nodes.new }
    ensures same { meanings N.standing nodes.new ≡ meanings N.standing nodes.old }
{
    for i in 0..nodes.len() {
        let mut list = Vec::new(alloc);
        match prepare_step(
            &mut nodes[i],
            wires,
            sources,
            lists.as_slice(),
            i,
            &mut list,
            steps,
        ) {
            Ok(()) => push_list(lists, list)?,
            Err(fault) => return Err(at_step(fault, i)),
        }
    }
    Ok(())
}

// The fault of a graph, the operator of one of whose steps refused.
fn at_step(refused: OpFault, step: usize) -> GraphFault
    ensures { result ≡ fault_at step refused }
{
    match refused {
        OpFault::Range => GraphFault::Range { step },
        OpFault::Memory => GraphFault::Memory,
    }
}

fn push_list(lists: &mut Vec<Vec<Change>>, list: Vec<Change>) -> Result<(), Memory>
    ensures { OnOk result (lists.new.items ≡ lists.old.items ++ list ∷ []) }
{
    lists.push(list)?;
    Ok(())
}

/// Drops what is pending in all steps.
pub fn abort_all<N: Operator>(nodes: &mut [N])
    ensures idle { AreIdle N.standing nodes.new }
    ensures committed { EachPair (KeepsInputs N.standing) nodes.old nodes.new }
    ensures same { meanings N.standing nodes.new ≡ meanings N.standing nodes.old }
{
    for i in 0..nodes.len() {
        nodes[i].abort();
    }
}

/// Makes what is pending the committed state of all steps.
pub fn commit_all<N: Operator>(nodes: &mut [N])
    ensures idle { AreIdle N.standing nodes.new }
    ensures committed { EachPair (CommitsInputs N.standing) nodes.old nodes.new }
    ensures same { meanings N.standing nodes.new ≡ meanings N.standing nodes.old }
{
    for i in 0..nodes.len() {
        nodes[i].commit();
    }
}
