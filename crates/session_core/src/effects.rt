//! The one place where a reply is written and its effect is taken.
ghost use Rattle.std.specs.Prelude.{◌≡◌, ◌<◌, ◌++◌, ◌∷◌, [], None, OnErr, OnOk, length};
ghost use Rattle.std.specs.List.{remove};
ghost use Rattle.budget_book.specs.Asks.{AreAsks, first_short};
ghost use Rattle.request_machine.specs.Charges.{after_charges, book_of};
ghost use Rattle.reply_text.specs.Replies.{reply_line};
ghost use Rattle.session_core.specs.Outcomes.{AreReady, state_after};
ghost use Rattle.session_core.specs.Parts.{AreHeld, ArePrepared, AreSettled, IsNewPlan, rows_in, state_of, types_in};
ghost use Rattle.session_core.specs.declared.outcome.Effect.TheVariants as effect;
ghost use Rattle.session_data.specs.Planned.{IsSettled};

use crate::outcome::{Effect, Outcome};
use crate::parts::{MAX_PLANS, Parts};
use budget_book::Ask;
use request_text::{Memory, write_reply};
use session_data::{Planned, abort_all, commit_all};

impl Parts {
    /// Writes the reply into `reply`, which is empty, and then lets the effect be taken. After `Memory` nothing of
    /// either stays.
    pub fn close(&mut self, outcome: Outcome, reply: &mut Vec<u8>) -> Result<(), Memory>
        requires ready { AreReady self.old outcome.effect }
        requires empty { reply.old.items ≡ [] }
        ensures settled { AreSettled self.new }
        ensures state { OnOk result (state_of self.new ≡ state_after self.old outcome.effect) }
        ensures told { OnOk result (reply.new.items ≡ reply_line outcome.reply) }
        ensures same { OnErr result (state_of self.new ≡ state_of self.old) }
        ensures emptied { OnErr result (reply.new.items ≡ []) }
    {
        if let Err(e) = write_reply(self.alloc, &outcome.reply, reply) {
            self.abort();
            return Err(e);
        }
        let taken = self.take(outcome.effect);
        if taken.is_err() {
            reply.clear();
        }
        taken
    }

    // Lets an effect be taken.
    fn take(&mut self, effect: Effect) -> Result<(), Memory>
        requires ready { AreReady self.old effect }
        ensures settled { AreSettled self.new }
        ensures state { OnOk result (state_of self.new ≡ state_after self.old effect) }
        ensures same { OnErr result (state_of self.new ≡ state_of self.old) }
    {
        match effect {
            Effect::Nothing => Ok(()),
            Effect::Pending => {
                self.commit();
                Ok(())
            }
            Effect::Source {
                source_type,
                budget,
            } => self.sources.push(self.alloc, source_type, budget),
            Effect::Plan(planned) => {
                self.append(planned);
                Ok(())
            }
            Effect::Remove { at } => self.remove(at),
            Effect::Charge { asks } => {
                self.charge(asks.as_slice());
                Ok(())
            }
        }
    }

    // Makes what is pending the state.
    fn commit(&mut self)
        requires { ArePrepared self.old }
        ensures settled { AreSettled self.new }
        ensures state { state_of self.new ≡ state_after self.old effect.Pending }
    {
        self.sources.commit();
        commit_all(self.plans.as_mut_slice());
    }

    /// Drops what is pending.
    pub fn abort(&mut self)
        requires { AreHeld self.old }
        ensures settled { AreSettled self.new }
        ensures state { state_of self.new ≡ state_of self.old }
    {
        self.sources.abort();
        abort_all(self.plans.as_mut_slice());
    }

    // Appends a plan, for which there is room.
    fn append(&mut self, planned: Planned)
        requires settled { AreSettled self.old }
        requires new { IsNewPlan (state_of self.old) planned.name }
        requires holds { IsSettled (types_in self.old) (rows_in self.old) planned }
        ensures settled { AreSettled self.new }
        ensures state { state_of self.new ≡ state_after self.old (effect.Plan planned) }
    {
        self.plan_names.insert(planned.name).unwrap();
        self.plans.push(planned).unwrap();
    }

    // Takes the plan at a place out.
    fn remove(&mut self, at: usize) -> Result<(), Memory>
        requires settled { AreSettled self.old }
        requires place { at < length (state_of self.old).plans }
        ensures settled { AreSettled self.new }
        ensures state { OnOk result (state_of self.new ≡ state_after self.old (effect.Remove at)) }
        ensures same { OnErr result (state_of self.new ≡ state_of self.old) }
    {
        // The place of a name that is taken out need not count as free.
        self.plan_names.reserve(MAX_PLANS + 1 - self.plans.len())?;
        let _name = self.plan_names.shift_remove_index(at);
        let _plan = self.plans.remove(at);
        Ok(())
    }

    // Spends what is asked of each source.
    fn charge(&mut self, asks: &[Ask])
        requires settled { AreSettled self.old }
        requires asks { AreAsks (length self.old.sources.committed) asks.now }
        requires can { first_short (book_of self.old.sources.committed) asks.now ≡ None }
        ensures settled { AreSettled self.new }
        ensures state { state_of self.new
            ≡ record (state_of self.old) { sources = after_charges self.old.sources.committed asks.now } }
    {
        self.sources.charge(asks);
    }
}
