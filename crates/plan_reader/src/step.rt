//! From a value to a step.
ghost use Rattle.std.specs.Prelude.{◌≡◌, map};
ghost use Rattle.serde_json.specs.View.{view, members_view};
ghost use Rattle.expr_text.specs.Gives.{Gives};
ghost use Rattle.plan_reader.specs.Fields.{no_other};
ghost use Rattle.plan_reader.specs.Steps.{fields_in, group_in, join_in, key_in, kind_named, kind_of, left_in, left_key_in, many_in, of_in, over_in, right_in, right_key_in, select_in, set_in, set_named, shave_in, source_in, step_at, step_fields, step_in, where_in};

use crate::fields::{earlier, name, only_known, whole};
use crate::items::{MAX_WEIGHT, items};
use crate::reducers::reducer;
use crate::runs::runs;
use expr_text::{Field, Place, PlanText, expr, exprs, shape};
use plan_model::{Exprs, SetKind, Step};
use serde_json::{Map, Value};
use std::alloc::Global;

/// What a step does.
#[derive(Clone, Copy)]
enum StepKind {
    Source,
    Where,
    Select,
    Many,
    Shave,
    Set(SetKind),
    Join,
    Group,
}

/// The step that a value denotes, behind those of the plan that were read before.
pub fn step(alloc: Global, read: &[Step], value: &Value) -> Result<Step, PlanText>
    ensures { Gives result (step_in read.now (view value.now)) }
{
    step_at(alloc, read.len(), value)
}

// The step at this place of a plan.
#[tactic(auto, unfolding(crate::specs::Steps::step_at))]
fn step_at(alloc: Global, at: usize, value: &Value) -> Result<Step, PlanText>
    ensures { Gives result (step_at at (view value.now)) }
{
    let Some(members) = value.as_object() else {
        return shape(Place {
            step: at,
            field: Field::Step,
        });
    };
    match kind(value) {
        None => shape(Place {
            step: at,
            field: Field::Do,
        }),
        Some(kind) => fields_of(alloc, at, value, members, kind),
    }
}

// What the field `do` asks for.
fn kind(value: &Value) -> Option<StepKind>
    ensures { result ≡ kind_of (view value.now) }
{
    match value.get("do").and_then(Value::as_str) {
        Some(text) => kind_named(text),
        None => None,
    }
}

// What the text of that field asks for.
#[tactic(auto, unfolding(crate::specs::Steps::kind_named))]
fn kind_named(text: &str) -> Option<StepKind>
    ensures { result ≡ kind_named text.now }
{
    if text == "source" {
        Some(StepKind::Source)
    } else if text == "where" {
        Some(StepKind::Where)
    } else if text == "select" {
        Some(StepKind::Select)
    } else if text == "many" {
        Some(StepKind::Many)
    } else if text == "shave" {
        Some(StepKind::Shave)
    } else if text == "join" {
        Some(StepKind::Join)
    } else if text == "group" {
        Some(StepKind::Group)
    } else {
        match set_named(text) {
            Some(set) => Some(StepKind::Set(set)),
            None => None,
        }
    }
}

// The set operator of a name.
#[tactic(auto, unfolding(crate::specs::Steps::set_named))]
fn set_named(text: &str) -> Option<SetKind>
    ensures { result ≡ set_named text.now }
{
    if text == "union" {
        Some(SetKind::Union)
    } else if text == "intersect" {
        Some(SetKind::Intersect)
    } else if text == "concat" {
        Some(SetKind::Concat)
    } else if text == "except" {
        Some(SetKind::Except)
    } else {
        None
    }
}

// The step of this kind.
fn fields_of(
    alloc: Global,
    at: usize,
    value: &Value,
    members: &Map<String, Value>,
    kind: StepKind,
) -> Result<Step, PlanText>
    ensures { Gives result (fields_in at (view value.now) (members_view members.now.entries) kind) }
{
    match kind {
        StepKind::Source => source(at, value, members),
        StepKind::Where => filter(alloc, at, value, members),
        StepKind::Select => select(alloc, at, value, members),
        StepKind::Many => many(alloc, at, value, members),
        StepKind::Shave => shave(alloc, at, value, members),
        StepKind::Set(set) => set_step(set, at, value, members),
        StepKind::Join => join(alloc, at, value, members),
        StepKind::Group => group(alloc, at, value, members),
    }
}

// The fields of a step.
fn fields(kind: StepKind) -> &'static [&'static str]
    ensures { map (λ name. name.now) result.now ≡ step_fields kind }
{
    match kind {
        StepKind::Source => &["do", "name"],
        StepKind::Where => &["do", "of", "if"],
        StepKind::Select => &["do", "of", "row"],
        StepKind::Many => &["do", "of", "over", "items"],
        StepKind::Shave => &["do", "of", "runs"],
        StepKind::Set(_) => &["do", "left", "right"],
        StepKind::Join => &["do", "left", "right", "left_key", "right_key"],
        StepKind::Group => &["do", "of", "key", "reduce"],
    }
}

// Refuses a field that a step of this kind doesn't have.
fn no_other(at: usize, kind: StepKind, members: &Map<String, Value>) -> Result<(), PlanText>
    ensures { Gives result (no_other at (step_fields kind) (members_view members.now.entries)) }
{
    let place = Place {
        step: at,
        field: Field::Other,
    };
    only_known(place, members, fields(kind))
}

// The earlier step that the field `of` refers to.
#[tactic(auto, unfolding(crate::specs::Steps::of_in))]
fn of(at: usize, value: &Value) -> Result<usize, PlanText>
    ensures { Gives result (of_in at (view value.now)) }
{
    let place = Place {
        step: at,
        field: Field::Of,
    };
    earlier(place, "of", value)
}

#[tactic(auto, unfolding(crate::specs::Steps::source_in))]
fn source(at: usize, value: &Value, members: &Map<String, Value>) -> Result<Step, PlanText>
    ensures { Gives result (source_in at (view value.now) (members_view members.now.entries)) }
{
    let name = name(at, value)?;
    no_other(at, StepKind::Source, members)?;
    Ok(Step::Source { name })
}

#[tactic(auto, unfolding(crate::specs::Steps::where_in))]
fn filter(
    alloc: Global,
    at: usize,
    value: &Value,
    members: &Map<String, Value>,
) -> Result<Step, PlanText>
    ensures { Gives result (where_in at (view value.now) (members_view members.now.entries)) }
{
    let of = of(at, value)?;
    let place = Place {
        step: at,
        field: Field::If,
    };
    let Some(test) = value.get("if") else {
        return shape(place);
    };
    let test = expr(alloc, place, test)?;
    no_other(at, StepKind::Where, members)?;
    Ok(Step::Filter { of, test })
}

#[tactic(auto, unfolding(crate::specs::Steps::select_in))]
fn select(
    alloc: Global,
    at: usize,
    value: &Value,
    members: &Map<String, Value>,
) -> Result<Step, PlanText>
    ensures { Gives result (select_in at (view value.now) (members_view members.now.entries)) }
{
    let of = of(at, value)?;
    let place = Place {
        step: at,
        field: Field::Row,
    };
    let row = exprs(alloc, place, value.get("row"))?;
    no_other(at, StepKind::Select, members)?;
    Ok(Step::Select { of, row })
}

#[tactic(auto, unfolding(crate::specs::Steps::many_in))]
fn many(
    alloc: Global,
    at: usize,
    value: &Value,
    members: &Map<String, Value>,
) -> Result<Step, PlanText>
    ensures { Gives result (many_in at (view value.now) (members_view members.now.entries)) }
{
    let of = of(at, value)?;
    let over = over(at, value)?;
    let place = Place {
        step: at,
        field: Field::Items,
    };
    let items = items(alloc, place, value.get("items"))?;
    no_other(at, StepKind::Many, members)?;
    Ok(Step::Many { of, over, items })
}

// What the weights of the items are over.
#[tactic(auto, unfolding(crate::specs::Steps::over_in))]
fn over(at: usize, value: &Value) -> Result<u32, PlanText>
    ensures { Gives result (over_in at (view value.now)) }
{
    let place = Place {
        step: at,
        field: Field::Over,
    };
    whole(place, "over", 1, MAX_WEIGHT, value)
}

#[tactic(auto, unfolding(crate::specs::Steps::shave_in))]
fn shave(
    alloc: Global,
    at: usize,
    value: &Value,
    members: &Map<String, Value>,
) -> Result<Step, PlanText>
    ensures { Gives result (shave_in at (view value.now) (members_view members.now.entries)) }
{
    let of = of(at, value)?;
    let place = Place {
        step: at,
        field: Field::Runs,
    };
    let runs = runs(alloc, place, value.get("runs"))?;
    no_other(at, StepKind::Shave, members)?;
    Ok(Step::Shave { of, runs })
}

#[tactic(auto, unfolding(crate::specs::Steps::set_in))]
fn set_step(
    kind: SetKind,
    at: usize,
    value: &Value,
    members: &Map<String, Value>,
) -> Result<Step, PlanText>
    ensures { Gives result (set_in kind at (view value.now) (members_view members.now.entries)) }
{
    let left = left(at, value)?;
    let right = right(at, value)?;
    no_other(at, StepKind::Set(kind), members)?;
    Ok(Step::Set { kind, left, right })
}

// The earlier step that the field `left` refers to.
#[tactic(auto, unfolding(crate::specs::Steps::left_in))]
fn left(at: usize, value: &Value) -> Result<usize, PlanText>
    ensures { Gives result (left_in at (view value.now)) }
{
    let place = Place {
        step: at,
        field: Field::Left,
    };
    earlier(place, "left", value)
}

// The earlier step that the field `right` refers to.
#[tactic(auto, unfolding(crate::specs::Steps::right_in))]
fn right(at: usize, value: &Value) -> Result<usize, PlanText>
    ensures { Gives result (right_in at (view value.now)) }
{
    let place = Place {
        step: at,
        field: Field::Right,
    };
    earlier(place, "right", value)
}

#[tactic(auto, unfolding(crate::specs::Steps::join_in))]
fn join(
    alloc: Global,
    at: usize,
    value: &Value,
    members: &Map<String, Value>,
) -> Result<Step, PlanText>
    ensures { Gives result (join_in at (view value.now) (members_view members.now.entries)) }
{
    let left = left(at, value)?;
    let right = right(at, value)?;
    let left_key = left_key(alloc, at, value)?;
    let right_key = right_key(alloc, at, value)?;
    no_other(at, StepKind::Join, members)?;
    Ok(Step::Join {
        left,
        right,
        left_key,
        right_key,
    })
}

// The key on which the left input is joined.
#[tactic(auto, unfolding(crate::specs::Steps::left_key_in))]
fn left_key(alloc: Global, at: usize, value: &Value) -> Result<Exprs, PlanText>
    ensures { Gives result (left_key_in at (view value.now)) }
{
    let place = Place {
        step: at,
        field: Field::LeftKey,
    };
    exprs(alloc, place, value.get("left_key"))
}

// The key on which the right input is joined.
#[tactic(auto, unfolding(crate::specs::Steps::right_key_in))]
fn right_key(alloc: Global, at: usize, value: &Value) -> Result<Exprs, PlanText>
    ensures { Gives result (right_key_in at (view value.now)) }
{
    let place = Place {
        step: at,
        field: Field::RightKey,
    };
    exprs(alloc, place, value.get("right_key"))
}

#[tactic(auto, unfolding(crate::specs::Steps::group_in))]
fn group(
    alloc: Global,
    at: usize,
    value: &Value,
    members: &Map<String, Value>,
) -> Result<Step, PlanText>
    ensures { Gives result (group_in at (view value.now) (members_view members.now.entries)) }
{
    let of = of(at, value)?;
    let key = key(alloc, at, value)?;
    let place = Place {
        step: at,
        field: Field::Reduce,
    };
    let reduce = reducer(place, value.get("reduce"))?;
    no_other(at, StepKind::Group, members)?;
    Ok(Step::Group { of, key, reduce })
}

// The key by which rows are grouped.
#[tactic(auto, unfolding(crate::specs::Steps::key_in))]
fn key(alloc: Global, at: usize, value: &Value) -> Result<Exprs, PlanText>
    ensures { Gives result (key_in at (view value.now)) }
{
    let place = Place {
        step: at,
        field: Field::Key,
    };
    exprs(alloc, place, value.get("key"))
}
