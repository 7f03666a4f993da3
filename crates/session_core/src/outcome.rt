//! What requests come to.
ghost use Rattle.std.specs.Prelude.{◌≡◌};
ghost use Rattle.messages.specs.declared.reply.Reply.TheVariants as answer;
ghost use Rattle.session_core.specs.declared.outcome.Effect.TheVariants as effect;

use budget_book::Ask;
use plan_model::SourceType;
use request_text::{Refusal, Reply};
use session_data::Planned;

/// What becomes of a session once a reply is written.
#[derive(Drop)]
pub enum Effect {
    /// It stays.
    Nothing,
    /// What is pending in the sources and the plans becomes its state.
    Pending,
    /// It has a source more, of this type and budget.
    Source {
        source_type: SourceType,
        budget: u64,
    },
    /// It has this plan more.
    Plan(Planned),
    /// The plan at this place is taken out.
    Remove {
        at: usize,
    },
    /// So much is spent of each asked source.
    Charge {
        asks: Vec<Ask>,
    },
}

/// What a request comes to: its reply, and what becomes of the session then.
#[derive(Drop)]
pub struct Outcome {
    pub reply: Reply,
    pub effect: Effect,
}

impl Outcome {
    /// A reply after which the session stays.
    pub fn told(reply: Reply) -> Outcome
        ensures reply { result.reply ≡ reply }
        ensures effect { result.effect ≡ effect.Nothing }
    {
        Outcome {
            reply,
            effect: Effect::Nothing,
        }
    }

    /// A refusal, after which the session stays.
    pub fn refused(why: Refusal) -> Outcome
        ensures reply { result.reply ≡ answer.Refused why }
        ensures effect { result.effect ≡ effect.Nothing }
    {
        Outcome::told(Reply::Refused(why))
    }
}
