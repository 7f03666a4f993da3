//! Texts of plans and of their parts, for tests.
#![tactic(auto)]

ghost use Rattle.std.specs.Prelude.{◌≡◌, ◌-◌, IfOk, codes};
ghost use Rattle.std.specs.String.{string_bytes};
ghost use Rattle.trial_plans.specs.Texts.{IsTextOf, added_text, followed, negated_text, step_text, test_text, tree_text};

use plan_model::Plan;
use plan_reader::read_plan;
use serde_json::Value;
pub use std::alloc::AllocError as Memory;
use std::alloc::Global;
use std::test::Fail;

/// The plan that a text denotes.
pub fn plan(alloc: Global, text: &str) -> Result<Plan, Fail>
    ensures { IfOk result (λ plan. IsTextOf text.now plan) }
{
    let value = Value::from_str(alloc, text)?;
    Ok(read_plan(alloc, &value)?)
}

/// The text of a plan of a source and this step.
pub fn with_step(alloc: Global, step: &str) -> Result<String, Memory>
    ensures { IfOk result (λ s. string_bytes s ≡ step_text step.now) }
{
    format!(in alloc; "{{\"format\":1,\"steps\":[{{\"do\":\"source\",\"name\":\"a\"}},{step}]}}")
}

/// The text of a plan of a source and its rows that pass this test.
pub fn with_test(alloc: Global, test: &str) -> Result<String, Memory>
    ensures { IfOk result (λ s. string_bytes s ≡ test_text test.now) }
{
    let step = format!(in alloc; "{{\"do\":\"where\",\"of\":0,\"if\":{test}}}")?;
    with_step(alloc, step.as_str())
}

/// A text so often, with commas between.
pub fn listed(alloc: Global, text: &str, times: usize) -> Result<String, Memory>
    ensures { IfOk result (λ s. string_bytes s ≡ followed (times - 1) text.now) }
{
    let mut list = String::from_str(alloc, text)?;
    for _ in 1..times {
        list.push(',')?;
        list.push_str(text)?;
    }
    Ok(list)
}

/// So many negations of an expression.
pub fn negated(alloc: Global, times: usize, expr: &str) -> Result<String, Memory>
    ensures { IfOk result (λ s. string_bytes s ≡ negated_text times expr.now) }
{
    let mut text = String::from_str(alloc, expr)?;
    for _ in 0..times {
        text = format!(in alloc; "{{\"call\":\"neg\",\"args\":[{text}]}}")?;
    }
    Ok(text)
}

/// The sum of two expressions.
pub fn added(alloc: Global, left: &str, right: &str) -> Result<String, Memory>
    ensures { IfOk result (λ s. string_bytes s ≡ added_text left.now right.now) }
{
    let mut text = String::from_str(alloc, "{\"call\":\"add\",\"args\":[")?;
    text.push_str(left)?;
    text.push(',')?;
    text.push_str(right)?;
    text.push_str("]}")?;
    Ok(text)
}

/// An expression so deep, each of whose sums has two such arguments: 1, 3, 7, .. nodes.
pub fn tree(alloc: Global, depth: usize) -> Result<String, Memory>
    ensures { IfOk result (λ s. string_bytes s ≡ tree_text (depth - 1)) }
{
    let mut text = String::from_str(alloc, "{\"col\":0}")?;
    for _ in 1..depth {
        text = added(alloc, text.as_str(), text.as_str())?;
    }
    Ok(text)
}
