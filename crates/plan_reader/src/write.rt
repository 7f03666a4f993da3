//! From a plan to a value.
ghost use Rattle.std.specs.Prelude.{◌≡◌, ℕ, IfOk, IsTrue, Ok, map};
ghost use Rattle.json_fields.specs.Walk.{each};
ghost use Rattle.serde_json.specs.View.{view};
ghost use Rattle.plan_model.specs.Limits.{is_plan, is_step};
ghost use Rattle.plan_reader.specs.Plans.{plan_walk};
ghost use Rattle.plan_reader.specs.Steps.{step_at};
ghost use Rattle.plan_reader.specs.Written.{StepReadsAs, group_data, join_data, many_data, plan_data, select_data, set_data, set_name, shave_data, source_data, where_data};

use crate::items::items_to_json;
use crate::reducers::reducer_to_json;
use crate::runs::runs_to_json;
use expr_text::{expr_to_json, exprs_to_json};
use plan_model::{Memory, Plan, SetKind, Step};
use serde_json::{Value, json};
use std::alloc::Global;

/// The plan as a value that `read_plan` reads as that plan.
pub fn plan_to_json(alloc: Global, plan: &Plan) -> Result<Value, Memory>
    ensures { IfOk result (λ value. plan_walk (view value) ≡ Ok plan.now) }
{
    let steps = steps_to_json(alloc, plan)?;
    plan_of(alloc, steps)
}

fn plan_of(alloc: Global, steps: Vec<Value>) -> Result<Value, Memory>
    ensures { IfOk result (λ value. view value ≡ plan_data (map view steps.items)) }
{
    json!(in alloc; {"format": 1, "steps": (Value::Array(steps))})
}

fn steps_to_json(alloc: Global, plan: &Plan) -> Result<Vec<Value>, Memory>
    ensures values { IfOk result (λ values. each step_at 0 (map view values.items) ≡ Ok plan.now) }
    ensures plan { IfOk result (λ _. IsTrue (is_plan plan.now)) }
{
    let mut values = Vec::with_capacity(alloc, plan.len())?;
    for at in 0..plan.len() {
        values.push(step_to_json(alloc, plan.step(at))?)?;
    }
    Ok(values)
}

fn step_to_json(alloc: Global, step: &Step) -> Result<Value, Memory>
    requires { (at : ℕ) × IsTrue (is_step at step.now) }
    ensures { IfOk result (λ value. StepReadsAs step.now (view value)) }
{
    match step {
        Step::Source { name } => source_of(alloc, name.as_str()),
        Step::Filter { of, test } => {
            let test = expr_to_json(alloc, test)?;
            where_of(alloc, *of, test)
        }
        Step::Select { of, row } => {
            let row = exprs_to_json(alloc, row)?;
            select_of(alloc, *of, row)
        }
        Step::Many { of, over, items } => {
            let items = items_to_json(alloc, items)?;
            many_of(alloc, *of, *over, items)
        }
        Step::Shave { of, runs } => {
            let runs = runs_to_json(alloc, runs)?;
            shave_of(alloc, *of, runs)
        }
        Step::Set { kind, left, right } => set_of(alloc, set_name(*kind), *left, *right),
        Step::Join {
            left,
            right,
            left_key,
            right_key,
        } => {
            let left_key = exprs_to_json(alloc, left_key)?;
            let right_key = exprs_to_json(alloc, right_key)?;
            join_of(alloc, *left, *right, left_key, right_key)
        }
        Step::Group { of, key, reduce } => {
            let key = exprs_to_json(alloc, key)?;
            let reduce = reducer_to_json(alloc, *reduce)?;
            group_of(alloc, *of, key, reduce)
        }
    }
}

fn source_of(alloc: Global, name: &str) -> Result<Value, Memory>
    ensures { IfOk result (λ value. view value ≡ source_data name.now) }
{
    json!(in alloc; {"do": "source", "name": name})
}

fn where_of(alloc: Global, of: usize, test: Value) -> Result<Value, Memory>
    ensures { IfOk result (λ value. view value ≡ where_data of (view test)) }
{
    json!(in alloc; {"do": "where", "if": test, "of": of})
}

fn select_of(alloc: Global, of: usize, row: Value) -> Result<Value, Memory>
    ensures { IfOk result (λ value. view value ≡ select_data of (view row)) }
{
    json!(in alloc; {"do": "select", "of": of, "row": row})
}

fn many_of(alloc: Global, of: usize, over: u32, items: Value) -> Result<Value, Memory>
    ensures { IfOk result (λ value. view value ≡ many_data of over (view items)) }
{
    json!(in alloc; {"do": "many", "items": items, "of": of, "over": over})
}

fn shave_of(alloc: Global, of: usize, runs: Value) -> Result<Value, Memory>
    ensures { IfOk result (λ value. view value ≡ shave_data of (view runs)) }
{
    json!(in alloc; {"do": "shave", "of": of, "runs": runs})
}

fn set_of(alloc: Global, name: &str, left: usize, right: usize) -> Result<Value, Memory>
    ensures { IfOk result (λ value. view value ≡ set_data name.now left right) }
{
    json!(in alloc; {"do": name, "left": left, "right": right})
}

fn join_of(
    alloc: Global,
    left: usize,
    right: usize,
    left_key: Value,
    right_key: Value,
) -> Result<Value, Memory>
    ensures { IfOk result (λ value. view value ≡ join_data left right (view left_key) (view right_key)) }
{
    json!(in alloc; {"do": "join", "left": left, "left_key": left_key, "right": right, "right_key": right_key})
}

fn group_of(alloc: Global, of: usize, key: Value, reduce: Value) -> Result<Value, Memory>
    ensures { IfOk result (λ value. view value ≡ group_data of (view key) (view reduce)) }
{
    json!(in alloc; {"do": "group", "key": key, "of": of, "reduce": reduce})
}

// The name of a set operator.
fn set_name(kind: SetKind) -> &'static str
    ensures { result.now ≡ set_name kind }
{
    match kind {
        SetKind::Union => "union",
        SetKind::Intersect => "intersect",
        SetKind::Concat => "concat",
        SetKind::Except => "except",
    }
}
