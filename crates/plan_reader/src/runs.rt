//! The runs of a step `shave`, from a value and to a value.
ghost use Rattle.std.specs.Prelude.{◌≡◌, ◌<◌, ◌≤◌, IfOk, IsTrue, Ok, codes, length, map, option_map, string_bytes};
ghost use Rattle.std.specs.List.{list_all};
ghost use Rattle.frac_core.specs.Text.{weight_of};
ghost use Rattle.serde_json.specs.View.{view};
ghost use Rattle.plan_model.specs.Limits.{is_run};
ghost use Rattle.plan_model.specs.Sizes.{max_pieces};
ghost use Rattle.expr_text.specs.Gives.{Gives};
ghost use Rattle.plan_reader.specs.Fields.{whole_in};
ghost use Rattle.plan_reader.specs.Runs.{max_times, pieces_with, run_in, runs_after, runs_in, weight_in};
ghost use Rattle.plan_reader.specs.Written.{RunReadsAs, RunsReadAs, run_data};

use crate::fields::only_known;
use expr_text::{Limit, Place, PlanText, list, over, shape};
use frac_core::Frac;
use plan_model::{Memory, Run, Runs};
use serde_json::{Value, json};
use std::alloc::Global;

/// The most pieces of a step.
const MAX_PIECES: u32 = 4096;

/// One run or more, with at most 4,096 pieces together.
#[tactic(auto, unfolding(crate::specs::Runs::runs_in))]
pub fn runs(alloc: Global, place: Place, field: Option<&Value>) -> Result<Runs, PlanText>
    ensures { Gives result (runs_in place (option_map (λ v. view v.now) field.entry)) }
{
    let list = list(place, field)?;
    all_runs(alloc, place, list)
}

// The runs of these values.
fn all_runs(alloc: Global, place: Place, list: &[Value]) -> Result<Runs, PlanText>
    requires { 0 < length list.now }
    ensures { Gives result (runs_after place 0 (map view list.now)) }
{
    let mut runs = Vec::with_capacity(alloc, list.len())?;
    let mut pieces = 0;
    for value in list {
        let (weight, times) = run(place, value)?;
        pieces = pieces_with(place, pieces, times)?;
        // There are at most 4,096 pieces by now.
        runs.push(Run {
            weight,
            times: times as u32,
        })?;
    }
    Ok(Runs::from_vec(runs))
}

// The pieces before and those of a run, together at most 4,096.
fn pieces_with(place: Place, before: u32, more: u64) -> Result<u32, PlanText>
    requires { before ≤ max_pieces }
    ensures { Gives result (pieces_with place before more) }
{
    if more > u64::from(MAX_PIECES - before) {
        return over(place.step, Limit::Pieces);
    }
    Ok(before + more as u32)
}

// The weight and the times of a run.
#[tactic(auto, unfolding(crate::specs::Runs::run_in))]
fn run(place: Place, value: &Value) -> Result<(Frac, u64), PlanText>
    ensures { Gives result (run_in place (view value.now)) }
{
    let Some(members) = value.as_object() else {
        return shape(place);
    };
    let weight = weight(place, value)?;
    let times = times(place, value)?;
    only_known(place, members, &["weight", "times"])?;
    Ok((weight, times))
}

// How often a run has its piece, at least once.
fn times(place: Place, value: &Value) -> Result<u64, PlanText>
    ensures { Gives result (whole_in place (codes "times") 1 max_times (view value.now)) }
{
    match value.get("times").and_then(Value::as_u64) {
        Some(times) if times > 0 => Ok(times),
        _ => shape(place),
    }
}

// The weight of a run, which is above 0.
fn weight(place: Place, value: &Value) -> Result<Frac, PlanText>
    ensures { Gives result (weight_in place (view value.now)) }
{
    let Some(text) = value.get("weight").and_then(Value::as_str) else {
        return shape(place);
    };
    match Frac::read(text.as_bytes()) {
        Ok(weight) if Frac::zero() < weight => Ok(weight),
        _ => shape(place),
    }
}

/// The runs as a value that is read as that list.
pub fn runs_to_json(alloc: Global, runs: &Runs) -> Result<Value, Memory>
    requires { IsTrue (list_all is_run runs.now) }
    ensures { IfOk result (λ value. RunsReadAs runs.now (view value)) }
{
    let mut values = Vec::with_capacity(alloc, runs.len())?;
    for i in 0..runs.len() {
        values.push(run_to_json(alloc, runs.at(i))?)?;
    }
    Ok(Value::from(values))
}

fn run_to_json(alloc: Global, run: &Run) -> Result<Value, Memory>
    requires { IsTrue (is_run run.now) }
    ensures { IfOk result (λ value. RunReadsAs run.now (view value)) }
{
    let weight = weight_text(alloc, run.weight)?;
    run_of(alloc, weight.as_str(), run.times)
}

// The text of a weight.
fn weight_text(alloc: Global, weight: Frac) -> Result<String, Memory>
    ensures { IfOk result (λ text. weight_of (string_bytes text) ≡ Ok weight) }
{
    let mut text = Vec::new(alloc);
    weight.write(alloc, &mut text)?;
    match String::from_utf8(text) {
        Ok(text) => Ok(text),
        Err(_) => unreachable!(),
    }
}

fn run_of(alloc: Global, weight: &str, times: u32) -> Result<Value, Memory>
    ensures { IfOk result (λ value. view value ≡ run_data weight.now times) }
{
    json!(in alloc; {"times": times, "weight": weight})
}
