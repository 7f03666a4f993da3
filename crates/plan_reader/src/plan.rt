//! From a value to a plan.
ghost use Rattle.std.specs.Prelude.{◌≡◌, ◌≤◌, ◌<◌, [], length, map};
ghost use Rattle.serde_json.specs.View.{view};
ghost use Rattle.expr_text.specs.Gives.{Gives, GivesBy};
ghost use Rattle.plan_reader.specs.Plans.{plan_walk, steps_after};

use crate::fields::{format, only_known};
use crate::step::step;
use expr_text::{Field, Limit, Place, PlanText, list, over, shape};
use plan_model::{Plan, Step};
use serde_json::Value;
use std::alloc::Global;

/// The most steps of a plan.
const MAX_STEPS: usize = 64;

/// The plan that a value denotes, or the first fault of its walk. `Memory` may come in place of any answer.
#[tactic(auto, unfolding(crate::specs::Plans::plan_walk))]
pub fn read_plan(alloc: Global, value: &Value) -> Result<Plan, PlanText>
    ensures { Gives result (plan_walk (view value.now)) }
{
    let Some(members) = value.as_object() else {
        return shape(Place {
            step: 0,
            field: Field::Plan,
        });
    };
    format(value)?;
    let list = list(
        Place {
            step: 0,
            field: Field::Steps,
        },
        value.get("steps"),
    )?;
    only_known(
        Place {
            step: 0,
            field: Field::Other,
        },
        members,
        &["format", "steps"],
    )?;
    if list.len() > MAX_STEPS {
        return over(MAX_STEPS, Limit::Steps);
    }
    let steps = steps(alloc, list)?;
    Ok(Plan::from_steps(steps))
}

// The steps of these values.
fn steps(alloc: Global, list: &[Value]) -> Result<Vec<Step>, PlanText>
    ensures { GivesBy (λ steps. steps.items) result (steps_after [] (map view list.now)) }
{
    let mut steps = Vec::with_capacity(alloc, list.len())?;
    for value in list {
        let next = step(alloc, &steps, value)?;
        steps.push(next)?;
    }
    Ok(steps)
}
