//! Budgets, and measurements: weights in a plan's output, each with a number of noise.
ghost use Rattle.std.specs.Prelude.{◌≡◌, ◌+◌, ◌*◌, ◌≤◌, All, None, IfOk, length, map};
ghost use Rattle.budget_book.specs.Asks.{AreAsks, first_short};
ghost use Rattle.io_edge.specs.Limits.{max_epsilon};
ghost use Rattle.plan_model.specs.Acceptance.{max_uses};
ghost use Rattle.plan_model.specs.declared.step.Step.{Step};
ghost use Rattle.request_machine.specs.Charges.{at_epsilon, book_of, charges_of};
ghost use Rattle.request_machine.specs.Measures.{budget_reply, measured, measurement};
ghost use Rattle.request_machine.specs.Stages.{Measured, release};
ghost use Rattle.session_core.specs.Draws.{Draws, Responds};
ghost use Rattle.session_core.specs.Parts.{AreSettled, rows_in, state_of, types_in};
ghost use Rattle.session_data.specs.Planned.{Holds};

use crate::exact::row_fault;
use crate::outcome::{Effect, Outcome};
use crate::parts::Parts;
use budget_book::Ask;
use frac_core::Frac;
use io_edge::Noise;
use record_text::{Name, Row};
use request_text::{Memory, Refusal, Reply, Thing, Wides};
use session_data::Planned;
use std::alloc::Global;
use std::sync::ledger::Ledger;
use steps::Steps;

impl Parts {
    /// What is left and spent of a source's budget.
    pub fn budget(&self, name: Name) -> Reply
        requires { AreSettled self.now }
        ensures { result ≡ budget_reply (state_of self.now) name }
    {
        match self.sources.place_of(name) {
            Some(at) => {
                let total = self.sources.book().total(at);
                let spent = self.sources.book().spent(at);
                let left = total - spent;
                Reply::Budget { left, spent, total }
            }
            None => {
                let what = Thing::Source;
                Reply::Refused(Refusal::Unknown { what, name })
            }
        }
    }

    /// What a measurement comes to. Where no refusal but that for noise can come, it draws a number of noise for each
    /// row, in their order.
    pub fn measure<N: Noise, L: Ledger>(
        &self,
        name: Name,
        rows: &[Row],
        epsilon: u64,
        noise: &mut N,
        steps: &mut Steps<L>,
    ) -> Result<Outcome, Memory>
        requires settled { AreSettled self.now }
        requires low { 1 ≤ epsilon }
        requires high { epsilon ≤ max_epsilon }
        ensures responds { Responds (N.given noise.old) (N.given noise.new) (N.faults noise.old) (N.faults noise.new)
            result self.now self.now (measured (state_of self.now) name rows.now epsilon) }
        ensures work { steps.new ≤ steps.old + 2 * length rows.now }
    {
        let Some(at) = self.plan_place(name) else {
            let what = Thing::Plan;
            return Ok(Outcome::refused(Refusal::Unknown { what, name }));
        };
        let planned = &self.plans[at];
        if let Some(why) = row_fault(self.alloc, planned.cols, rows)? {
            return Ok(Outcome::refused(why));
        }
        let asks = asks_at(self.alloc, planned.uses.as_slice(), epsilon)?;
        if let Some(short) = self.sources.book().can(asks.as_slice()) {
            let source = self.sources.source_type(short.source).name;
            let left = short.left;
            let asked = short.asked;
            return Ok(Outcome::refused(Refusal::Budget {
                source,
                left,
                asked,
            }));
        }
        self.release(planned, rows, epsilon, asks, noise, steps)
    }

    // What a measurement comes to that nothing but the noise can refuse. Its reply is made before anything is charged.
    fn release<N: Noise, L: Ledger>(
        &self,
        planned: &Planned,
        rows: &[Row],
        epsilon: u64,
        asks: Vec<Ask>,
        noise: &mut N,
        steps: &mut Steps<L>,
    ) -> Result<Outcome, Memory>
        requires settled { AreSettled self.now }
        requires holds { Holds (types_in self.now) (rows_in self.now) planned.now }
        requires low { 1 ≤ epsilon }
        requires high { epsilon ≤ max_epsilon }
        requires asks { asks.items ≡ charges_of epsilon planned.now.plan (types_in self.now) }
        requires may_ask { AreAsks (length self.now.sources.committed) asks.items }
        requires can { first_short (book_of self.now.sources.committed) asks.items ≡ None }
        ensures responds { Responds (N.given noise.old) (N.given noise.new) (N.faults noise.old) (N.faults noise.new)
            result self.now self.now (Measured (measurement (state_of self.now) planned.now.plan rows.now epsilon)) }
        ensures work { steps.new ≤ steps.old + 2 * length rows.now }
    {
        let charged = self.sources.named(self.alloc, asks.as_slice())?;
        let weights = planned.weights(self.alloc, rows, steps)?;
        match released(self.alloc, weights.as_slice(), epsilon, noise)? {
            Some(values) => Ok(Outcome {
                reply: Reply::Values { charged, values },
                effect: Effect::Charge { asks },
            }),
            None => Ok(Outcome::refused(Refusal::Noise)),
        }
    }
}

// What is asked for a measurement of a plan of these uses.
fn asks_at(alloc: Global, uses: &[Ask], epsilon: u64) -> Result<Vec<Ask>, Memory>
    requires epsilon { epsilon ≤ max_epsilon }
    requires few { All (λ used. used.amount ≤ max_uses) uses.now }
    ensures { IfOk result (λ asks. asks.items ≡ map (at_epsilon epsilon) uses.now) }
{
    let mut asks = Vec::with_capacity(alloc, uses.len())?;
    for used in uses {
        asks.push(Ask {
            source: used.source,
            amount: epsilon * used.amount,
        })?;
    }
    Ok(asks)
}

// The weights in units of 2^-20, each with a number of noise; nothing where the noise fails.
fn released<N: Noise>(
    alloc: Global,
    weights: &[Frac],
    epsilon: u64,
    noise: &mut N,
) -> Result<Option<Wides>, Memory>
    requires low { 1 ≤ epsilon }
    requires high { epsilon ≤ max_epsilon }
    ensures { Draws (N.given noise.old) (N.given noise.new) (N.faults noise.old) (N.faults noise.new)
        epsilon weights.now result }
{
    let mut values = Vec::with_capacity(alloc, weights.len())?;
    for weight in weights {
        let Ok(number) = noise.draw(epsilon) else {
            return Ok(None);
        };
        values.push(released_with(*weight, number))?;
    }
    Ok(Some(Wides::from_vec(values)))
}

// A weight in units of 2^-20, rounded down, with a number of noise.
fn released_with(weight: Frac, number: i64) -> i128
    ensures { result ≡ release weight number }
{
    let _in_range = weight.numer();
    weight.floor_units() + number as i128
}
