//! Graphs of plans, built from what their sources hold.
ghost use Rattle.std.specs.Prelude.{◌≡◌, ℕ, IfErr, IfOk, Some, false};
ghost use Rattle.dataflow.specs.declared.passes.GraphFault.TheVariants as fault;
ghost use Rattle.plan_model.specs.Acceptance.{Accepts};
ghost use Rattle.plan_model.specs.Fits.{misfit};
ghost use Rattle.plan_model.specs.Types.{Keeps};
ghost use Rattle.flow_graph.specs.Fresh.{committed_family};
ghost use Rattle.flow_graph.specs.Graphs.{IsGraphOf, StandsFor};

use crate::flow::FlowGraph;
use crate::fresh::nodes_of;
use crate::plans::fill_plan;
use dataflow::GraphFault;
use plan_model::{Plan, SourceTypes};
use std::alloc::Global;
use std::sync::ledger::Ledger;
use steps::Steps;
use weighted_set::{PartStore, SourceSet};

impl FlowGraph {
    /// The graph of an accepted plan, on the committed rows of its sources, with nothing
    /// pending. `Range` names the first step that doesn't fit them.
    pub fn build<L: Ledger>(
        alloc: Global,
        plan: &Plan,
        types: &SourceTypes,
        sources: &SourceSet,
        steps: &mut Steps<L>,
    ) -> Result<FlowGraph, GraphFault>
        requires accepted { Accepts plan.now types.now }
        requires keeps { Keeps types.now (committed_family sources.now) }
        ensures graph { IfOk result (λ graph. IsGraphOf graph plan.now types.now) }
        ensures stands { IfOk result (λ graph. StandsFor graph (committed_family sources.now)) }
        ensures idle { IfOk result (λ graph. graph.pending ≡ false) }
        ensures range { IfErr result (λ e. (i : ℕ) → e ≡ fault.Range i → misfit plan.now types.now (committed_family sources.now) ≡ Some i) }
    {
        // Tells that the steps are those of a plan.
        let _steps = plan.len();
        let own_plan = plan.try_copy(alloc)?;
        let own_types = types.try_copy(alloc)?;
        let mut nodes = nodes_of(alloc, plan, types)?;
        let mut out = PartStore::new(alloc);
        match fill_plan(
            alloc,
            plan,
            types,
            nodes.as_mut_slice(),
            &mut out,
            sources,
            steps,
        ) {
            Ok(()) => Ok(FlowGraph {
                plan: own_plan,
                types: own_types,
                nodes,
                out,
                pending: false,
                alloc,
            }),
            Err(fault) => Err(fault),
        }
    }
}
