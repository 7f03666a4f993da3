//! The session: one line in, one reply out.
ghost use Rattle.std.specs.Prelude.{◌≡◌, ◌<◌, ◌≤◌, [], false, IfOk, OnErr, OnOk, length};
ghost use Rattle.request_text.specs.Requests.{request_on};
ghost use Rattle.io_edge.specs.Causes.{Rose};
ghost use Rattle.request_machine.specs.Fetches.{is_load};
ghost use Rattle.request_machine.specs.Machine.{file_line, noise_line};
ghost use Rattle.request_machine.specs.Sound.{Sound};
ghost use Rattle.request_machine.specs.State.{start_state};
ghost use Rattle.session_core.specs.Work.{LineWorked};

use crate::parts::Parts;
use io_edge::{Noise, Shelf};
use request_text::Memory;
use std::alloc::Global;
use std::marker::Model;
use std::sync::ledger::Ledger;
use steps::Steps;

/// The state of the request machine, between two lines.
#[derive(Drop)]
pub struct Session {
    parts: Parts,
}

impl Model for Session {
    ghost use Rattle.std.specs.Coded.{codes};
    ghost use Rattle.datasets.specs.Code.{dataset_code};
    ghost use Rattle.plan_model.specs.contracts.step.Step as step;
    ghost use Rattle.request_machine.specs.State.{State};

    ghost Value = { State };

    ghost coded = { Prim.hlevel (codes, dataset_code, step.the_row.coded) };

    ghost use Rattle.session_core.specs.Parts.{AreSettled, state_of};

    ghost view = { λ s. state_of s.parts };

    ghost invariant = { λ s. AreSettled s.parts };
}

impl Session {
    /// A session without sources and plans. It takes the room of the tables of names for 16 sources and 32 plans, and
    /// that of the list of the plans. What else a declaration needs, it takes when it comes, and gives it back where
    /// there is no memory for the rest.
    pub fn new(alloc: Global, curator: bool) -> Result<Session, Memory>
        ensures { IfOk result (λ session. session ≡ start_state curator) }
    {
        let parts = Parts::new(alloc, curator)?;
        Ok(Session { parts })
    }

    /// Leaves the line's reply with its LF in `reply`, which is emptied first. A reply that refuses leaves
    /// the session unchanged. After `Memory` it is unchanged too, and `reply` is empty. Noise that was drawn stays
    /// drawn, and a file that was fetched stays fetched. Only a `load` asks the shelf, for a file of at most
    /// 16,777,216 bytes. Whatever the answer, `steps` rises by no more than the line's work.
    pub fn answer<N: Noise, F: Shelf, L: Ledger>(
        &mut self,
        line: &[u8],
        noise: &mut N,
        shelf: &mut F,
        reply: &mut Vec<u8>,
        steps: &mut Steps<L>,
    ) -> Result<(), Memory>
        requires { 0 < length line.now }
        ensures answered { LineWorked (F.files shelf.old) (F.faults shelf.old) (F.faults shelf.new)
            (N.given noise.old) (N.given noise.new) steps.old steps.new
            self.old line.now result reply.new.items self.new }
        ensures sound { Sound self.new }
        ensures emptied { OnErr result (reply.new.items ≡ []) }
        ensures later { N.faults noise.old ≤ N.faults noise.new }
        ensures noise { OnOk result
            (reply.new.items ≡ noise_line → Rose (N.faults noise.old) (N.faults noise.new)) }
        ensures files { F.files shelf.new ≡ F.files shelf.old }
        ensures shelf { F.faults shelf.old ≤ F.faults shelf.new }
        ensures file { OnOk result
            (reply.new.items ≡ file_line → Rose (F.faults shelf.old) (F.faults shelf.new)) }
        ensures untouched { is_load (request_on line.now) ≡ false → shelf.new ≡ shelf.old }
    {
        self.parts.answer(line, noise, shelf, reply, steps)
    }
}
