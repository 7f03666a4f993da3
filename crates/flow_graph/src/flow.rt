//! Plans that are kept up to date.
ghost use Rattle.std.specs.Prelude.{◌≡◌, ◌+◌, ◌≤◌, ℕ, IfErr, OnErr, OnOk, false, length};
ghost use Rattle.dataflow.specs.declared.passes.GraphFault.TheVariants as fault;
ghost use Rattle.datasets.specs.Dataset.{at};
ghost use Rattle.plan_model.specs.Evaluation.{Family, eval};
ghost use Rattle.flow_graph.specs.Graphs.{GraphCommits, GraphHasInputs, GraphKeeps, GraphKeepsWork, GraphMisfits, GraphTurns, IsSameGraph, StandsFor};

use crate::node::Node;
use crate::plans::prepare_plan;
use dataflow::{GraphFault, abort_wired, commit_wired, row_weight};
use frac_core::Frac;
use plan_model::{Plan, SourceTypes};
use record_text::Row;
use std::alloc::Global;
use std::sync::ledger::Ledger;
use steps::Steps;
use weighted_set::{Change, PartStore};

/// A plan that is kept up to date: what its steps keep, and its output by row.
#[derive(Drop)]
pub struct FlowGraph {
    pub(crate) plan: Plan,
    pub(crate) types: SourceTypes,
    pub(crate) nodes: Vec<Node>,
    pub(crate) out: PartStore,
    pub(crate) pending: bool,
    pub(crate) alloc: Global,
}

impl FlowGraph {
    /// The committed weight of a row of the plan's output, 0 where it is absent. It takes at most two ticks.
    pub fn weight<L: Ledger>(&self, row: &Row, steps: &mut Steps<L>) -> Frac
        ensures weight { (F : Family) → StandsFor self.now F → result ≡ at (eval self.now.plan self.now.types F) row.now }
        ensures work { steps.new ≤ steps.old + 2 }
    {
        row_weight(&self.out, row, steps)
    }

    /// What is kept, besides the plan, its sources' types and whether changes are pending: a node for each step, and
    /// the output.
    pub fn kept(&self) -> (&[Node], &PartStore)
        ensures nodes { result.0.now ≡ self.now.nodes.items }
        ensures out { result.1.now ≡ self.now.out }
    {
        // With each field by its name and type, a further one doesn't compile.
        let FlowGraph {
            plan,
            types,
            nodes,
            out,
            pending,
            alloc,
        } = self;
        let _plan: &Plan = plan;
        let _types: &SourceTypes = types;
        let _pending: &bool = pending;
        let _alloc: &Global = alloc;
        (nodes.as_slice(), out)
    }

    /// How many sources there are.
    pub fn source_count(&self) -> usize
        ensures { result ≡ length self.now.types }
    {
        self.types.len()
    }

    /// Makes the changes of a source pending. `Range` names the first step that doesn't fit. After a refusal
    /// nothing is pending. It takes at most eight ticks for each unit of the plan's work, and eight more.
    pub fn prepare<L: Ledger>(
        &mut self,
        source: usize,
        changes: &[Change],
        steps: &mut Steps<L>,
    ) -> Result<(), GraphFault>
        requires idle { self.old.pending ≡ false }
        requires inputs { GraphHasInputs self.old source changes.now }
        ensures pending { OnOk result (GraphTurns self.old self.new source changes.now) }
        ensures range { IfErr result (λ e. (i : ℕ) → e ≡ fault.Range i → GraphMisfits self.old source changes.now i) }
        ensures work { GraphKeepsWork self.old source changes.now steps.old steps.new }
        ensures err { OnErr result (self.new.pending ≡ false) }
        ensures committed { GraphKeeps self.old self.new }
        ensures same { IsSameGraph self.old self.new }
    {
        let nodes = self.nodes.as_mut_slice();
        match prepare_plan(
            self.alloc,
            &self.plan,
            &self.types,
            nodes,
            &mut self.out,
            source,
            changes,
            steps,
        ) {
            Ok(()) => {
                self.pending = true;
                Ok(())
            }
            Err(fault) => Err(fault),
        }
    }

    /// Makes what is pending the committed state.
    pub fn commit(&mut self)
        ensures idle { self.new.pending ≡ false }
        ensures committed { GraphCommits self.old self.new }
        ensures unchanged { self.old.pending ≡ false → GraphKeeps self.old self.new }
        ensures same { IsSameGraph self.old self.new }
    {
        commit_wired(self.nodes.as_mut_slice(), &mut self.out);
        self.pending = false;
    }

    /// Drops what is pending.
    pub fn abort(&mut self)
        ensures idle { self.new.pending ≡ false }
        ensures committed { GraphKeeps self.old self.new }
        ensures same { IsSameGraph self.old self.new }
    {
        abort_wired(self.nodes.as_mut_slice(), &mut self.out);
        self.pending = false;
    }
}
