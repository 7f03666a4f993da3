//! Sources and plans that are declared, and plans that are taken out.
ghost use Rattle.std.specs.Prelude.{◌≡◌, ◌≤◌, IfOk, IsTrue, length};
ghost use Rattle.plan_model.specs.Limits.{is_plan};
ghost use Rattle.plan_checker.specs.Checked.{IsChecked};
ghost use Rattle.request_machine.specs.Charges.{asks_from};
ghost use Rattle.request_machine.specs.Declarations.{declared, dropped, planned};
ghost use Rattle.request_machine.specs.Limits.{max_budget};
ghost use Rattle.request_machine.specs.Named.{place_named, plan_name};
ghost use Rattle.request_machine.specs.State.{new_plan, new_source, types_of};
ghost use Rattle.session_data.specs.Planned.{plan_states};
ghost use Rattle.session_core.specs.Outcomes.{ComesTo};
ghost use Rattle.session_core.specs.Parts.{AreSettled, IsNewPlan, state_of};

use crate::outcome::{Effect, Outcome};
use crate::parts::{MAX_PLANS, Parts};
use budget_book::Ask;
use flow_graph::{FlowGraph, GraphFault};
use plan_checker::{Checked, PlanFault, check};
use plan_model::{Plan, SourceType};
use record_text::{Kinds, Name};
use request_text::{Memory, Refusal, Reply, Thing};
use session_data::{MAX_SOURCES, Planned};
use std::alloc::Global;
use std::sync::ledger::Ledger;
use steps::Steps;

impl Parts {
    /// What the declaration of a source comes to.
    pub fn declare(&self, name: Name, kinds: Kinds, signed: bool, budget: u64) -> Outcome
        requires settled { AreSettled self.now }
        requires budget { budget ≤ max_budget }
        ensures { ComesTo self.now result
            (declared (state_of self.now) (new_source name kinds signed budget)) }
    {
        let what = Thing::Source;
        if self.sources.place_of(name).is_some() {
            return Outcome::refused(Refusal::Exists { what, name });
        }
        if self.sources.len() >= MAX_SOURCES {
            return Outcome::refused(Refusal::Full { what });
        }
        let source_type = SourceType {
            name,
            kinds,
            signed,
        };
        Outcome {
            reply: Reply::Done,
            effect: Effect::Source {
                source_type,
                budget,
            },
        }
    }

    /// What the declaration of a plan comes to.
    pub fn plan<L: Ledger>(
        &self,
        name: Name,
        plan: Plan,
        steps: &mut Steps<L>,
    ) -> Result<Outcome, Memory>
        requires settled { AreSettled self.now }
        requires limits { IsTrue (is_plan plan) }
        ensures { IfOk result
            (λ outcome. ComesTo self.now outcome (planned (state_of self.now) (new_plan name plan))) }
    {
        let what = Thing::Plan;
        if self.plan_place(name).is_some() {
            return Ok(Outcome::refused(Refusal::Exists { what, name }));
        }
        if self.plans.len() >= MAX_PLANS {
            return Ok(Outcome::refused(Refusal::Full { what }));
        }
        match check(self.alloc, &plan, self.sources.types()) {
            Ok(checked) => self.build(name, plan, &checked, steps),
            Err(PlanFault::At { step, what }) => {
                Ok(Outcome::refused(Refusal::Plan { step, what }))
            }
            Err(PlanFault::Memory) => Err(Memory),
        }
    }

    // What the declaration of a plan comes to that was checked.
    fn build<L: Ledger>(
        &self,
        name: Name,
        plan: Plan,
        checked: &Checked,
        steps: &mut Steps<L>,
    ) -> Result<Outcome, Memory>
        requires settled { AreSettled self.now }
        requires new { IsNewPlan (state_of self.now) name }
        requires limits { IsTrue (is_plan plan) }
        requires checked { IsChecked plan (types_of self.now.sources.committed) checked.now }
        ensures { IfOk result
            (λ outcome. ComesTo self.now outcome (planned (state_of self.now) (new_plan name plan))) }
    {
        let types = self.sources.types();
        let sets = self.sources.sets();
        let graph = match FlowGraph::build(self.alloc, &plan, types, sets, steps) {
            Ok(graph) => graph,
            Err(GraphFault::Range { step }) => {
                return Ok(Outcome::refused(Refusal::Range { plan: name, step }));
            }
            Err(GraphFault::Memory) => return Err(Memory),
        };
        let cols = checked.columns();
        let uses = used_sources(self.alloc, self.sources.len(), checked)?;
        let named = self.sources.named(self.alloc, uses.as_slice())?;
        Ok(Outcome {
            reply: Reply::Planned { cols, uses: named },
            effect: Effect::Plan(Planned {
                name,
                plan,
                graph,
                cols,
                uses,
            }),
        })
    }

    /// What it comes to that a plan is to be taken out.
    pub fn drop_plan(&self, name: Name) -> Outcome
        requires { AreSettled self.now }
        ensures { ComesTo self.now result (dropped (state_of self.now) name) }
    {
        match self.plan_place(name) {
            Some(at) => Outcome {
                reply: Reply::Done,
                effect: Effect::Remove { at },
            },
            None => {
                let what = Thing::Plan;
                Outcome::refused(Refusal::Unknown { what, name })
            }
        }
    }

    /// The place of the plan of this name.
    pub fn plan_place(&self, name: Name) -> Option<usize>
        requires { AreSettled self.now }
        ensures { result ≡ place_named plan_name name (plan_states self.now.plans.items) }
    {
        self.plan_names.get_index_of(&name)
    }
}

// The sources that a plan uses, in order of declaration, each with how often.
fn used_sources(alloc: Global, count: usize, checked: &Checked) -> Result<Vec<Ask>, Memory>
    requires { length checked.now.uses ≡ count }
    ensures { IfOk result (λ uses. uses.items ≡ asks_from 0 checked.now.uses) }
{
    let mut list = Vec::new(alloc);
    for source in 0..count {
        let amount = checked.uses(source);
        if amount > 0 {
            list.push(Ask { source, amount })?;
        }
    }
    Ok(list)
}
