//! What a session keeps, and its answer to a line.
ghost use Rattle.std.specs.Prelude.{◌≡◌, ◌≤◌, [], false, IfOk, Ok, OnErr, OnOk};
ghost use Rattle.request_text.specs.Requests.{IsWithinLimits, request_on};
ghost use Rattle.request_machine.specs.Declarations.{sum_reply};
ghost use Rattle.io_edge.specs.Causes.{Rose};
ghost use Rattle.request_machine.specs.Fetches.{is_load};
ghost use Rattle.request_machine.specs.Machine.{answered, file_line, noise_line, performed};
ghost use Rattle.request_machine.specs.State.{start_state};
ghost use Rattle.session_core.specs.Draws.{Responds};
ghost use Rattle.session_core.specs.Fetching.{FetchesAnd};
ghost use Rattle.session_core.specs.Parts.{AreSettled, state_of};
ghost use Rattle.session_core.specs.Work.{LineWorked, TakesWithin, line_work};

use crate::outcome::Outcome;
use frac_core::Frac;
use indexmap::IndexSet;
use io_edge::{Noise, Shelf};
use record_text::Name;
use request_text::{Memory, ReadFault, Refusal, Reply, Request, read_request};
use session_data::{Planned, Sources};
use std::alloc::Global;
use std::sync::ledger::Ledger;
use steps::Steps;

/// The most plans of a session.
pub const MAX_PLANS: usize = 32;

/// The sources and the plans, and whether exact answers are open.
#[derive(Drop)]
pub struct Parts {
    pub curator: bool,
    pub sources: Sources,
    pub plan_names: IndexSet<Name>,
    pub plans: Vec<Planned>,
    pub alloc: Global,
}

impl Parts {
    /// No sources and no plans. It takes the room of the tables of names for `MAX_SOURCES` sources and `MAX_PLANS`
    /// plans, and that of the list of the plans.
    pub fn new(alloc: Global, curator: bool) -> Result<Parts, Memory>
        ensures settled { IfOk result AreSettled }
        ensures state { IfOk result (λ parts. state_of parts ≡ start_state curator) }
    {
        Ok(Parts {
            curator,
            sources: Sources::new(alloc)?,
            plan_names: IndexSet::with_capacity(alloc, MAX_PLANS)?,
            plans: Vec::with_capacity(alloc, MAX_PLANS)?,
            alloc,
        })
    }

    /// Leaves the line's reply in `reply`, which is emptied first, and does what the line asks. After `Memory`
    /// `reply` is empty and nothing is done, but noise that was drawn stays drawn and a file that was fetched stays
    /// fetched.
    pub fn answer<N: Noise, F: Shelf, L: Ledger>(
        &mut self,
        line: &[u8],
        noise: &mut N,
        shelf: &mut F,
        reply: &mut Vec<u8>,
        steps: &mut Steps<L>,
    ) -> Result<(), Memory>
        requires { AreSettled self.old }
        ensures settled { AreSettled self.new }
        ensures answered { LineWorked (F.files shelf.old) (F.faults shelf.old) (F.faults shelf.new)
            (N.given noise.old) (N.given noise.new) steps.old steps.new
            (state_of self.old) line.now result reply.new.items (state_of self.new) }
        ensures emptied { OnErr result (reply.new.items ≡ []) }
        ensures later { N.faults noise.old ≤ N.faults noise.new }
        ensures noise { OnOk result
            (reply.new.items ≡ noise_line → Rose (N.faults noise.old) (N.faults noise.new)) }
        ensures files { F.files shelf.new ≡ F.files shelf.old }
        ensures shelf { F.faults shelf.old ≤ F.faults shelf.new }
        ensures file { OnOk result
            (reply.new.items ≡ file_line → Rose (F.faults shelf.old) (F.faults shelf.new)) }
        ensures untouched { is_load (request_on line.now) ≡ false → shelf.new ≡ shelf.old }
    {
        reply.clear();
        let outcome = self.respond(line, noise, shelf, steps)?;
        self.close(outcome, reply)
    }

    // What a line comes to.
    fn respond<N: Noise, F: Shelf, L: Ledger>(
        &mut self,
        line: &[u8],
        noise: &mut N,
        shelf: &mut F,
        steps: &mut Steps<L>,
    ) -> Result<Outcome, Memory>
        requires { AreSettled self.old }
        ensures responds { FetchesAnd (F.files shelf.old) (F.faults shelf.old) (F.faults shelf.new)
            (request_on line.now) (λ fetched. Responds (N.given noise.old) (N.given noise.new)
            (N.faults noise.old) (N.faults noise.new) result self.old self.new
            (answered (state_of self.old) (request_on line.now) fetched)
            × TakesWithin (line_work (state_of self.old) (request_on line.now) fetched) steps.old steps.new) }
        ensures files { F.files shelf.new ≡ F.files shelf.old }
        ensures untouched { is_load (request_on line.now) ≡ false → shelf.new ≡ shelf.old }
    {
        match read_request(self.alloc, line) {
            Ok(request) => self.perform(request, noise, shelf, steps),
            Err(ReadFault::Refused(why)) => Ok(Outcome::refused(why)),
            Err(ReadFault::Memory) => Err(Memory),
        }
    }

    // What a request comes to.
    fn perform<N: Noise, F: Shelf, L: Ledger>(
        &mut self,
        request: Request,
        noise: &mut N,
        shelf: &mut F,
        steps: &mut Steps<L>,
    ) -> Result<Outcome, Memory>
        requires settled { AreSettled self.old }
        requires limits { IsWithinLimits request }
        ensures responds { FetchesAnd (F.files shelf.old) (F.faults shelf.old) (F.faults shelf.new)
            (Ok request) (λ fetched. Responds (N.given noise.old) (N.given noise.new)
            (N.faults noise.old) (N.faults noise.new) result self.old self.new
            (performed (state_of self.old) request fetched)
            × TakesWithin (line_work (state_of self.old) (Ok request) fetched) steps.old steps.new) }
        ensures files { F.files shelf.new ≡ F.files shelf.old }
        ensures untouched { is_load (Ok request) ≡ false → shelf.new ≡ shelf.old }
    {
        match request {
            Request::Measure {
                plan,
                rows,
                epsilon,
            } => self.measure(plan, rows.as_slice(), epsilon, noise, steps),
            Request::Sum { weights } => Ok(Outcome::told(sum_reply(weights.as_slice()))),
            Request::Source {
                name,
                kinds,
                signed,
                budget,
            } => Ok(self.declare(name, kinds, signed, budget)),
            Request::Update {
                source,
                csv,
                header,
            } => self.update(source, &csv, header, steps),
            Request::Load {
                source,
                path,
                header,
            } => self.load(source, &path, header, shelf, steps),
            Request::Plan { name, plan } => self.plan(name, plan, steps),
            Request::Drop { plan } => Ok(self.drop_plan(plan)),
            Request::Exact { of, rows } => {
                let answer = self.exact(of, rows.as_slice(), steps)?;
                Ok(Outcome::told(answer))
            }
            Request::Budget { source } => Ok(Outcome::told(self.budget(source))),
        }
    }
}

/// The sum of the weights, or the first place at which the running sum is out of range.
fn sum_reply(weights: &[Frac]) -> Reply
    ensures { result ≡ sum_reply weights.now }
{
    let mut sum = Frac::zero();
    for (at, weight) in weights.iter().enumerate() {
        match sum.add(*weight) {
            Some(next) => sum = next,
            None => return Reply::Refused(Refusal::SumRange { at }),
        }
    }
    Reply::SumOf { sum }
}
