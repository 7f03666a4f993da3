//! A plan with a node for each step, and the output of the last.
ghost use Rattle.std.specs.Prelude.{◌≡◌, ℕ, IfErr, OnErr, OnOk, Some};
ghost use Rattle.dataflow.specs.Wired.{AreAtRest};
ghost use Rattle.dataflow.specs.declared.passes.GraphFault.TheVariants as fault;
ghost use Rattle.plan_model.specs.Fits.{misfit};
ghost use Rattle.plan_model.specs.Types.{Keeps};
ghost use Rattle.flow_graph.specs.Fresh.{committed_family, no_rows};
ghost use Rattle.flow_graph.specs.Plans.{PlanHasInputs, PlanKeeps, PlanKeepsWork, PlanMisfits, PlanStands, PlanTurns};

use crate::rows::{all_rows, changes_at, lent_lists};
use crate::wires::wires_of;
use dataflow::{GraphFault, commit_wired, prepare_wired};
use engines::check_range;
use plan_model::{Plan, SourceTypes};
use std::alloc::Global;
use std::sync::ledger::Ledger;
use steps::Steps;
use weighted_set::{Change, Operator, PartStore, SourceSet};

/// Makes the changes of a source pending. `Range` names the first step that doesn't fit. After a refusal nothing is
/// pending. It takes at most eight ticks for each unit of the plan's work, and eight more.
pub fn prepare_plan<N: Operator, L: Ledger>(
    alloc: Global,
    plan: &Plan,
    types: &SourceTypes,
    nodes: &mut [N],
    out: &mut PartStore,
    source: usize,
    changes: &[Change],
    steps: &mut Steps<L>,
) -> Result<(), GraphFault>
    requires at_rest { AreAtRest N.standing nodes.old out.old }
    requires inputs { PlanHasInputs N.standing plan.now types.now nodes.old out.old source changes.now }
    ensures pending { OnOk result (PlanTurns N.standing plan.now types.now nodes.old out.old nodes.new out.new source changes.now) }
    ensures range { IfErr result (λ e. (i : ℕ) → e ≡ fault.Range i → PlanMisfits N.standing plan.now types.now nodes.old out.old source changes.now i) }
    ensures work { PlanKeepsWork N.standing plan.now types.now nodes.old out.old source changes.now steps.old steps.new }
    ensures err { OnErr result (AreAtRest N.standing nodes.new out.new) }
    ensures committed { PlanKeeps N.standing plan.now types.now nodes.old out.old nodes.new out.new }
{
    check_range(changes);
    let wires = wires_of(alloc, plan, types)?;
    let sources = changes_at(alloc, types.len(), source, changes)?;
    match prepare_wired(
        alloc,
        nodes,
        out,
        wires.as_slice(),
        sources.as_slice(),
        steps,
    ) {
        Ok(()) => Ok(()),
        Err(fault) => Err(fault),
    }
}

/// Fills a plan whose sources have no rows with what the sources hold. `Range` names the first step that doesn't
/// fit. Nothing is pending.
pub fn fill_plan<N: Operator, L: Ledger>(
    alloc: Global,
    plan: &Plan,
    types: &SourceTypes,
    nodes: &mut [N],
    out: &mut PartStore,
    sources: &SourceSet,
    steps: &mut Steps<L>,
) -> Result<(), GraphFault>
    requires at_rest { AreAtRest N.standing nodes.old out.old }
    requires fresh { PlanStands N.standing plan.now types.now nodes.old out.old (no_rows types.now) }
    requires keeps { Keeps types.now (committed_family sources.now) }
    ensures stands { OnOk result (PlanStands N.standing plan.now types.now nodes.new out.new (committed_family sources.now)) }
    ensures range { IfErr result (λ e. (i : ℕ) → e ≡ fault.Range i → misfit plan.now types.now (committed_family sources.now) ≡ Some i) }
    ensures at_rest { AreAtRest N.standing nodes.new out.new }
{
    let wires = wires_of(alloc, plan, types)?;
    let rows = all_rows(alloc, sources)?;
    let lists = lent_lists(alloc, rows.as_slice())?;
    match prepare_wired(alloc, nodes, out, wires.as_slice(), lists.as_slice(), steps) {
        Ok(()) => {
            commit_wired(nodes, out);
            Ok(())
        }
        Err(fault) => Err(fault),
    }
}
