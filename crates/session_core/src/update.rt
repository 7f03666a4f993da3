//! Weights that are added to a source, and what follows from them in the plans.
ghost use Rattle.std.specs.Prelude.{◌≡◌, ◌+◌, ◌<◌, ◌≤◌, All, IfOk, List, Result, length};
ghost use Rattle.csv_changes.specs.Changes.{BadRecord, GivesCsv};
ghost use Rattle.record_text.specs.KindLists.{kinds_of};
ghost use Rattle.request_machine.specs.State.{OfSource};
ghost use Rattle.request_machine.specs.Updates.{added_at, followed, updated, updated_by};
ghost use Rattle.weighted_set.specs.declared.weighted.Weighted.{Weighted};
ghost use Rattle.session_core.specs.Outcomes.{Does};
ghost use Rattle.session_core.specs.Parts.{ArePending, AreSettled, pending_rows_in, rows_in, state_of, types_in};
ghost use Rattle.session_core.specs.Work.{outcome_steps, without_plans};
ghost use Rattle.session_data.specs.Planned.{plan_states};
ghost use Rattle.session_data.specs.Work.{follow_steps};

use crate::outcome::{Effect, Outcome};
use crate::parts::Parts;
use record_text::Name;
use request_text::{Added, Bytes, CsvFault, Memory, Refusal, Reply, Thing, read_changes};
use session_data::{PlansFault, prepare_all};
use std::sync::ledger::Ledger;
use steps::Steps;
use weighted_set::{AddFault, Change, Weighted};

impl Parts {
    /// What it comes to that the weights of a CSV text are to be added to a source. Until that is taken it is pending
    /// in the sources and the plans.
    pub fn update<L: Ledger>(
        &mut self,
        name: Name,
        csv: &Bytes,
        header: bool,
        steps: &mut Steps<L>,
    ) -> Result<Outcome, Memory>
        requires { AreSettled self.old }
        ensures does { Does result self.old self.new (updated (state_of self.old) name csv.now header) }
        ensures work { steps.new ≤ steps.old + outcome_steps (state_of self.old)
            (updated (without_plans (state_of self.old)) name csv.now header) }
    {
        let Some(at) = self.sources.place_of(name) else {
            let what = Thing::Source;
            return Ok(Outcome::refused(Refusal::Unknown { what, name }));
        };
        let kinds = self.sources.source_type(at).kinds;
        let read = read_changes(self.alloc, csv.as_slice(), kinds, header);
        self.add_read(at, read, steps)
    }

    /// What it comes to that the weights that a CSV text was read as are to be added to the source at a place.
    pub fn add_read<L: Ledger>(
        &mut self,
        at: usize,
        read: Result<Added, CsvFault>,
        steps: &mut Steps<L>,
    ) -> Result<Outcome, Memory>
        requires settled { AreSettled self.old }
        requires place { at < length self.old.sources.committed }
        requires kinds { OfSource self.old.sources.committed at
            (λ source. IfOk read (All (λ one. kinds_of one.row ≡ source.kinds))) }
        ensures does { OfSource self.old.sources.committed at (λ source. (changes : Result (List Weighted) BadRecord)
            → GivesCsv read changes → Does result self.old self.new (updated_by (state_of self.old) at source changes)) }
        ensures work { OfSource self.old.sources.committed at (λ source. (changes : Result (List Weighted) BadRecord)
            → GivesCsv read changes → steps.new ≤ steps.old + outcome_steps (state_of self.old)
            (updated_by (without_plans (state_of self.old)) at source changes)) }
    {
        match read {
            Ok(added) => self.add(at, added.as_slice(), steps),
            Err(CsvFault::Bad { at, what }) => Ok(Outcome::refused(Refusal::Csv { at, what })),
            Err(CsvFault::Memory) => Err(Memory),
        }
    }

    // What it comes to that weights of rows of its kinds are to be added to the source at a place.
    fn add<L: Ledger>(
        &mut self,
        at: usize,
        added: &[Weighted],
        steps: &mut Steps<L>,
    ) -> Result<Outcome, Memory>
        requires settled { AreSettled self.old }
        requires place { at < length self.old.sources.committed }
        requires kinds { OfSource self.old.sources.committed at
            (λ source. All (λ one. kinds_of one.row ≡ source.kinds) added.now) }
        ensures does { OfSource self.old.sources.committed at
            (λ source. Does result self.old self.new (added_at (state_of self.old) at source added.now)) }
        ensures work { OfSource self.old.sources.committed at
            (λ source. steps.new ≤ steps.old + outcome_steps (state_of self.old)
            (added_at (without_plans (state_of self.old)) at source added.now)) }
    {
        match self.sources.prepare(at, added) {
            Ok(changes) => self.follow(at, changes.as_slice(), added.len() as u64, steps),
            Err(AddFault::Range { at }) => Ok(Outcome::refused(Refusal::RecordRange { at })),
            Err(AddFault::Negative { at }) => Ok(Outcome::refused(Refusal::Negative { at })),
            Err(AddFault::Memory) => Err(Memory),
        }
    }

    // What it comes to that what is pending in the sources, with what follows from it in the plans, is to be the
    // state. Where a plan doesn't fit, nothing stays pending.
    fn follow<L: Ledger>(
        &mut self,
        at: usize,
        changes: &[Change],
        count: u64,
        steps: &mut Steps<L>,
    ) -> Result<Outcome, Memory>
        requires { ArePending self.old at changes.now }
        ensures does { Does result self.old self.new (followed (state_of self.old) self.old.sources.pending count) }
        ensures work { steps.new ≤ steps.old + follow_steps (plan_states self.old.plans.items)
            (types_in self.old) (rows_in self.old) (pending_rows_in self.old) }
    {
        match prepare_all(self.plans.as_mut_slice(), at, changes, steps) {
            Ok(()) => Ok(Outcome {
                reply: Reply::Records { count },
                effect: Effect::Pending,
            }),
            Err(PlansFault::Range { place, step }) => {
                let plan = self.plans[place].name;
                self.abort();
                Ok(Outcome::refused(Refusal::Range { plan, step }))
            }
            Err(PlansFault::Memory) => {
                self.abort();
                Err(Memory)
            }
        }
    }
}
