//! Plans that are kept up to date.
ghost use Rattle.std.specs.Prelude.{◌≡◌, ◌+◌, ◌*◌, ◌≤◌, ℕ, All, IfErr, IfOk, List, OnErr, OnOk, length, map};
ghost use Rattle.datasets.specs.Dataset.{at};
ghost use Rattle.plan_model.specs.Evaluation.{Family, eval};
ghost use Rattle.plan_model.specs.declared.source_types.SourceType.{SourceType};
ghost use Rattle.session_data.specs.FlowFaults.{IsMisfit};
ghost use Rattle.session_data.specs.Flow.{TurnsInto};
ghost use Rattle.session_data.specs.Planned.{Holds, IsFirstMisfit, IsPlace, IsPrepared, IsSettled, MayTurnAll, plan_state, plan_states};
ghost use Rattle.session_data.specs.Work.{PlanWithin, PlansWithin};

use budget_book::Ask;
use flow_graph::{FlowGraph, GraphFault};
use plan_model::Plan;
use record_text::{Kinds, Name, Row};
use request_text::{Memory, Weights};
use std::alloc::Global;
use std::sync::ledger::Ledger;
use steps::Steps;
use weighted_set::Change;

/// A plan under its name, with the columns of its output, and the sources that it uses, each with how often.
#[derive(Drop)]
pub struct Planned {
    pub name: Name,
    pub plan: Plan,
    pub graph: FlowGraph,
    pub cols: Kinds,
    pub uses: Vec<Ask>,
}

/// Why changes can't be followed.
#[derive(Clone, Copy)]
pub enum PlansFault {
    /// The place of the first plan that doesn't fit, with the first step that doesn't.
    Range { place: usize, step: usize },
    /// There was no memory.
    Memory,
}

impl Planned {
    /// The weights of the rows in the plan's output, in their order.
    pub fn weights<L: Ledger>(
        &self,
        alloc: Global,
        rows: &[Row],
        steps: &mut Steps<L>,
    ) -> Result<Weights, Memory>
        ensures work { steps.new ≤ steps.old + 2 * length rows.now }
        ensures weights { IfOk result (λ weights. (types : List SourceType) (F : Family) → Holds types F self.now → weights ≡ map (at (eval self.now.plan types F)) rows.now) }
    {
        let mut weights = Vec::with_capacity(alloc, rows.len())?;
        for row in rows {
            weights.push(self.graph.weight(row, steps))?;
        }
        Ok(Weights::from_vec(weights))
    }

    // Makes what follows from changes of a source pending.
    fn prepare<L: Ledger>(
        &mut self,
        source: usize,
        changes: &[Change],
        steps: &mut Steps<L>,
    ) -> Result<(), GraphFault>
        requires { (types : List SourceType) × ((F : Family) × ((G : Family) × (IsSettled types F self.old × TurnsInto types source changes.now F G))) }
        ensures state { plan_state self.new ≡ plan_state self.old }
        ensures ok { OnOk result ((types : List SourceType) (F G : Family) → IsSettled types F self.old → TurnsInto types source changes.now F G → IsPrepared types F G self.new) }
        ensures err { OnErr result ((types : List SourceType) (F : Family) → IsSettled types F self.old → IsSettled types F self.new) }
        ensures range { IfErr result (λ e. (types : List SourceType) (F G : Family) → IsSettled types F self.old → TurnsInto types source changes.now F G → IsMisfit self.old.plan types G e) }
        ensures work { PlanWithin self.old source changes.now steps.old steps.new }
    {
        // A graph doesn't know the sources that were declared after it was built, and its plan uses none of them.
        if source >= self.graph.source_count() {
            return Ok(());
        }
        self.graph.prepare(source, changes, steps)
    }
}

/// Makes what follows from changes of a source pending in each plan. After a refusal it may be pending in
/// some of them.
pub fn prepare_all<L: Ledger>(
    plans: &mut [Planned],
    source: usize,
    changes: &[Change],
    steps: &mut Steps<L>,
) -> Result<(), PlansFault>
    requires { (types : List SourceType) × ((F : Family) × ((G : Family) × MayTurnAll plans.old types source changes.now F G)) }
    ensures states { plan_states plans.new ≡ plan_states plans.old }
    ensures ok { OnOk result ((types : List SourceType) (F G : Family) → MayTurnAll plans.old types source changes.now F G → All (IsPrepared types F G) plans.new) }
    ensures held { (types : List SourceType) (F G : Family) → MayTurnAll plans.old types source changes.now F G → All (Holds types F) plans.new }
    ensures place { IfErr result (IsPlace plans.old) }
    ensures range { IfErr result (λ e. (types : List SourceType) (F G : Family) → MayTurnAll plans.old types source changes.now F G → IsFirstMisfit plans.old types G e) }
    ensures work { PlansWithin plans.old source changes.now steps.old steps.new }
{
    for at in 0..plans.len() {
        let planned = &mut plans[at];
        match planned.prepare(source, changes, steps) {
            Ok(()) => {}
            Err(GraphFault::Range { step }) => {
                return Err(PlansFault::Range { place: at, step });
            }
            Err(GraphFault::Memory) => return Err(PlansFault::Memory),
        }
    }
    Ok(())
}

/// Makes what is pending in each plan its state.
pub fn commit_all(plans: &mut [Planned])
    ensures states { plan_states plans.new ≡ plan_states plans.old }
    ensures settled { (types : List SourceType) (F G : Family) → All (IsPrepared types F G) plans.old → All (IsSettled types G) plans.new }
{
    for planned in plans.iter_mut() {
        planned.graph.commit();
    }
}

/// Drops what is pending in each plan.
pub fn abort_all(plans: &mut [Planned])
    ensures states { plan_states plans.new ≡ plan_states plans.old }
    ensures settled { (types : List SourceType) (F : Family) → All (Holds types F) plans.old → All (IsSettled types F) plans.new }
{
    for planned in plans.iter_mut() {
        planned.graph.abort();
    }
}
