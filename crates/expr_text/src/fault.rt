//! The first fault of the walk over a plan.
ghost use Rattle.std.specs.Prelude.{◌≡◌};
ghost use Rattle.expr_text.specs.Gives.{Gives, over, shape};
ghost use Rattle.expr_text.specs.declared.fault.PlanText.TheVariants as fault;

use plan_model::Memory;
use std::alloc::AllocFailed;
use thiserror::Error;

/// A part of a plan's text, by the name of its field. `Plan` is the whole, `Step` a whole step, and `Other`
/// a field that the plan or the step doesn't have.
#[derive(Clone, Copy, Debug, PartialEq, Eq)]
pub enum Field {
    Plan,
    Format,
    Steps,
    Step,
    Do,
    Name,
    Of,
    If,
    Row,
    Over,
    Items,
    Runs,
    Left,
    Right,
    LeftKey,
    RightKey,
    Key,
    Reduce,
    Other,
}

/// What there is too much of.
#[derive(Clone, Copy, Debug, PartialEq, Eq)]
pub enum Limit {
    /// Over 64 steps.
    Steps,
    /// Over 16 expressions in a list.
    Width,
    /// An expression over 16 deep.
    Depth,
    /// An expression of over 256 columns, constants and calls.
    Nodes,
    /// Over 64 items.
    Items,
    /// Over 4,096 pieces.
    Pieces,
}

/// Why a value is read as no plan. Steps count from 0.
#[derive(Clone, Copy, Debug, PartialEq, Eq, Error)]
pub enum PlanText {
    /// The field is missing, is not as it must be, or is one that isn't known.
    #[error("the field {field:?} of step {step} is not as it must be")]
    Shape { step: usize, field: Field },
    /// There is more than the limit.
    #[error("the step {step} is over the limit {limit:?}")]
    Over { step: usize, limit: Limit },
    /// There was no memory.
    #[error("out of memory")]
    Memory,
}

impl From<Memory> for PlanText {
    ghost from_gives = { λ _ e. e ≡ fault.Memory };

    fn from(_e: Memory) -> PlanText {
        PlanText::Memory
    }
}

impl<T: Drop> From<AllocFailed<T>> for PlanText {
    ghost from_gives = { λ _ e. e ≡ fault.Memory };

    fn from(_e: AllocFailed<T>) -> PlanText {
        PlanText::Memory
    }
}

/// A field of a step, which a walk has come to.
#[derive(Clone, Copy, Debug)]
pub struct Place {
    pub step: usize,
    pub field: Field,
}

/// Refuses the field with `Shape`.
pub fn shape<T>(place: Place) -> Result<T, PlanText>
    ensures { Gives result (shape place) }
{
    Err(PlanText::Shape {
        step: place.step,
        field: place.field,
    })
}

/// Refuses the step for more than the limit.
pub fn over<T>(step: usize, limit: Limit) -> Result<T, PlanText>
    ensures { Gives result (over step limit) }
{
    Err(PlanText::Over { step, limit })
}
