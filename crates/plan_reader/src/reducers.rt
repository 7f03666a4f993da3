//! The reducer of a step `group`, from a value and to a value.
ghost use Rattle.std.specs.Prelude.{◌≡◌, IfOk, map, option_map};
ghost use Rattle.serde_json.specs.View.{view};
ghost use Rattle.expr_text.specs.Gives.{Gives};
ghost use Rattle.plan_reader.specs.Reducers.{column_in, kind_named, kind_of, reducer_fields, reducer_in, reducer_of};
ghost use Rattle.plan_reader.specs.Written.{ReducerReadsAs, column_reducer_data, count_data};

use crate::fields::only_known;
use expr_text::{Place, PlanText, shape};
use plan_model::{Memory, Reducer};
use serde_json::{Value, json};
use std::alloc::Global;

/// The greatest column that a reducer names.
const MAX_COLUMN: u64 = 255;

/// What a reducer does with the rows of a key.
#[derive(Clone, Copy)]
enum ReducerKind {
    Count,
    Min,
    Max,
    Sum,
}

/// The reducer that a field denotes.
#[tactic(auto, unfolding(crate::specs::Reducers::reducer_in))]
pub fn reducer(place: Place, field: Option<&Value>) -> Result<Reducer, PlanText>
    ensures { Gives result (reducer_in place (option_map (λ v. view v.now) field.entry)) }
{
    let Some(value) = field else {
        return shape(place);
    };
    let Some(members) = value.as_object() else {
        return shape(place);
    };
    let Some(kind) = kind(value) else {
        return shape(place);
    };
    let reduce = reducer_of(place, value, kind)?;
    only_known(place, members, fields(kind))?;
    Ok(reduce)
}

// What the field `fn` asks for.
fn kind(value: &Value) -> Option<ReducerKind>
    ensures { result ≡ kind_of (view value.now) }
{
    match value.get("fn").and_then(Value::as_str) {
        Some(text) => kind_named(text),
        None => None,
    }
}

// What the text of that field asks for.
#[tactic(auto, unfolding(crate::specs::Reducers::kind_named))]
fn kind_named(text: &str) -> Option<ReducerKind>
    ensures { result ≡ kind_named text.now }
{
    if text == "count" {
        Some(ReducerKind::Count)
    } else if text == "min" {
        Some(ReducerKind::Min)
    } else if text == "max" {
        Some(ReducerKind::Max)
    } else if text == "sum" {
        Some(ReducerKind::Sum)
    } else {
        None
    }
}

// The reducer of this kind, which but for a count has a column.
fn reducer_of(place: Place, value: &Value, kind: ReducerKind) -> Result<Reducer, PlanText>
    ensures { Gives result (reducer_of place (view value.now) kind) }
{
    match kind {
        ReducerKind::Count => Ok(Reducer::Count),
        ReducerKind::Min => Ok(Reducer::Min(column(place, value)?)),
        ReducerKind::Max => Ok(Reducer::Max(column(place, value)?)),
        ReducerKind::Sum => Ok(Reducer::Sum(column(place, value)?)),
    }
}

// The column of a reducer.
fn column(place: Place, value: &Value) -> Result<u8, PlanText>
    ensures { Gives result (column_in place (view value.now)) }
{
    match value.get("col").and_then(Value::as_u64) {
        Some(column) if column <= MAX_COLUMN => Ok(column as u8),
        _ => shape(place),
    }
}

// The fields of a reducer.
fn fields(kind: ReducerKind) -> &'static [&'static str]
    ensures { map (λ name. name.now) result.now ≡ reducer_fields kind }
{
    match kind {
        ReducerKind::Count => &["fn"],
        ReducerKind::Min | ReducerKind::Max | ReducerKind::Sum => &["fn", "col"],
    }
}

/// The reducer as a value that is read as that reducer.
pub fn reducer_to_json(alloc: Global, reduce: Reducer) -> Result<Value, Memory>
    ensures { IfOk result (λ value. ReducerReadsAs reduce (view value)) }
{
    match reduce {
        Reducer::Count => count_of(alloc),
        Reducer::Min(column) => column_reducer_of(alloc, "min", column),
        Reducer::Max(column) => column_reducer_of(alloc, "max", column),
        Reducer::Sum(column) => column_reducer_of(alloc, "sum", column),
    }
}

fn count_of(alloc: Global) -> Result<Value, Memory>
    ensures { IfOk result (λ value. view value ≡ count_data) }
{
    json!(in alloc; {"fn": "count"})
}

fn column_reducer_of(alloc: Global, function: &str, column: u8) -> Result<Value, Memory>
    ensures { IfOk result (λ value. view value ≡ column_reducer_data function.now column) }
{
    json!(in alloc; {"col": column, "fn": function})
}
