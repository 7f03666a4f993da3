//! The plan of a request.
ghost use Rattle.std.specs.Prelude.{◌≡◌, Err, IfOk, IsTrue};
ghost use Rattle.serde_json.specs.View.{view};
ghost use Rattle.plan_model.specs.Limits.{is_plan};
ghost use Rattle.expr_text.specs.declared.fault.PlanText.TheVariants as walk;
ghost use Rattle.request_fields.specs.Gives.{Gives};
ghost use Rattle.request_text.specs.Plans.{field_word, plan_fault, plan_field};

use messages::{FieldText, ReadFault, Refusal};
use plan_model::Plan;
use plan_reader::{Field, PlanText, read_plan};
use request_fields::refuse;
use serde_json::Value;
use std::alloc::Global;

/// The plan that the field `plan` denotes. The first fault of its walk is told with its step; a field that is
/// missing is `Shape` with no step.
#[tactic(auto, unfolding(crate::specs::Plans::plan_field))]
pub fn plan(alloc: Global, value: &Value) -> Result<Plan, ReadFault>
    ensures value { Gives result (plan_field (view value.now)) }
    ensures limits { IfOk result (λ plan. IsTrue (is_plan plan)) }
{
    let Some(value) = value.get("plan") else {
        return refuse(alloc, "plan");
    };
    match read_plan(alloc, value) {
        Ok(plan) => Ok(plan),
        Err(PlanText::Shape { step, field }) => refuse_step(alloc, step, field),
        Err(PlanText::Over { step, limit }) => {
            Err(ReadFault::Refused(Refusal::Over { step, limit }))
        }
        Err(PlanText::Memory) => Err(ReadFault::Memory),
    }
}

// Refuses a field of a step with `Shape`.
fn refuse_step(alloc: Global, step: usize, field: Field) -> Result<Plan, ReadFault>
    ensures { Gives result (Err (plan_fault (walk.Shape step field))) }
{
    let text = String::from_str(alloc, field_text(field))?;
    Err(ReadFault::Refused(Refusal::Shape {
        field: FieldText::from_string(text),
        step: Some(step),
    }))
}

// The name of a field of a plan or a step.
fn field_text(field: Field) -> &'static str
    ensures { result.now ≡ field_word field }
{
    match field {
        Field::Plan => "plan",
        Field::Format => "format",
        Field::Steps => "steps",
        Field::Step => "step",
        Field::Do => "do",
        Field::Name => "name",
        Field::Of => "of",
        Field::If => "if",
        Field::Row => "row",
        Field::Over => "over",
        Field::Items => "items",
        Field::Runs => "runs",
        Field::Left => "left",
        Field::Right => "right",
        Field::LeftKey => "left_key",
        Field::RightKey => "right_key",
        Field::Key => "key",
        Field::Reduce => "reduce",
        Field::Other => "other",
    }
}
