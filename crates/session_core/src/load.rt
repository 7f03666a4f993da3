//! Weights that are added to a source from a file.
ghost use Rattle.std.specs.Prelude.{◌≡◌, ◌+◌, ◌≤◌, Ok};
ghost use Rattle.io_edge.specs.Path.{IsPath};
ghost use Rattle.messages.specs.declared.request.Request.TheVariants as request;
ghost use Rattle.request_machine.specs.Loads.{loaded};
ghost use Rattle.session_core.specs.Fetching.{FetchesAnd};
ghost use Rattle.session_core.specs.Outcomes.{Does};
ghost use Rattle.session_core.specs.Parts.{AreSettled, state_of};
ghost use Rattle.session_core.specs.Work.{outcome_steps, without_plans};

use crate::outcome::Outcome;
use crate::parts::Parts;
use io_edge::{Shelf, ShelfFault, law_path};
use record_text::Name;
use request_text::{Bytes, Memory, Refusal, Thing, read_changes};
use std::sync::ledger::Ledger;
use steps::Steps;

/// The most bytes of a file.
const MAX_FILE: usize = 16_777_216;

impl Parts {
    /// What it comes to that the weights of the file at a path are to be added to a source. The shelf is asked for it
    /// only where the source is there. Until the outcome is taken it is pending in the sources and the plans.
    pub fn load<F: Shelf, L: Ledger>(
        &mut self,
        name: Name,
        path: &Bytes,
        header: bool,
        shelf: &mut F,
        steps: &mut Steps<L>,
    ) -> Result<Outcome, Memory>
        requires settled { AreSettled self.old }
        requires path { IsPath path.now }
        ensures loaded { FetchesAnd (F.files shelf.old) (F.faults shelf.old) (F.faults shelf.new)
            (Ok (request.Load name path.now header))
            (λ fetched. Does result self.old self.new (loaded (state_of self.old) name header fetched)
            × (steps.new ≤ steps.old + outcome_steps (state_of self.old)
            (loaded (without_plans (state_of self.old)) name header fetched))) }
        ensures files { F.files shelf.new ≡ F.files shelf.old }
    {
        let Some(at) = self.sources.place_of(name) else {
            let what = Thing::Source;
            return Ok(Outcome::refused(Refusal::Unknown { what, name }));
        };
        law_path();
        // The load's own, so that its memory is given back.
        let mut file = Vec::new(self.alloc);
        match shelf.fetch(path.as_slice(), MAX_FILE, &mut file) {
            Ok(()) => {
                let kinds = self.sources.source_type(at).kinds;
                let read = read_changes(self.alloc, file.as_slice(), kinds, header);
                self.add_read(at, read, steps)
            }
            Err(ShelfFault::Failed) => Ok(Outcome::refused(Refusal::File)),
            Err(ShelfFault::Missing) => Ok(Outcome::refused(Refusal::FileMissing)),
            Err(ShelfFault::Long) => Ok(Outcome::refused(Refusal::FileLong)),
            Err(ShelfFault::Memory) => Err(Memory),
        }
    }
}
