//! The operations that requests ask for.
ghost use Rattle.std.specs.Prelude.{◌≡◌, map};
ghost use Rattle.serde_json.specs.View.{view};
ghost use Rattle.request_text.specs.Ops.{op_fields, op_named, op_of};

use serde_json::Value;

/// The operations, by the text of the field `op`.
#[derive(Clone, Copy)]
pub enum Op {
    Sum,
    Source,
    Update,
    Load,
    Plan,
    Drop,
    Measure,
    Exact,
    Budget,
}

/// The operation that the field `op` names.
#[tactic(auto, unfolding(crate::specs::Ops::op_of))]
pub fn op_of(value: &Value) -> Option<Op>
    ensures { result ≡ op_of (view value.now) }
{
    match value.get("op").and_then(Value::as_str) {
        Some(name) => op_named(name),
        None => None,
    }
}

// The operation of this name.
fn op_named(name: &str) -> Option<Op>
    ensures { result ≡ op_named name.now }
{
    if name == "sum" {
        Some(Op::Sum)
    } else if name == "source" {
        Some(Op::Source)
    } else if name == "update" {
        Some(Op::Update)
    } else if name == "load" {
        Some(Op::Load)
    } else if name == "plan" {
        Some(Op::Plan)
    } else if name == "drop" {
        Some(Op::Drop)
    } else if name == "measure" {
        Some(Op::Measure)
    } else if name == "exact" {
        Some(Op::Exact)
    } else if name == "budget" {
        Some(Op::Budget)
    } else {
        None
    }
}

/// The fields that an operation has, `op` among them.
#[tactic(auto, unfolding(crate::specs::Ops::op_fields))]
pub fn fields(op: Op) -> &'static [&'static str]
    ensures { map (λ name. name.now) result.now ≡ op_fields op }
{
    match op {
        Op::Sum => &["op", "weights"],
        Op::Source => &["op", "name", "kinds", "signed", "budget"],
        Op::Update => &["op", "source", "csv", "header"],
        Op::Load => &["op", "source", "path", "header"],
        Op::Plan => &["op", "name", "plan"],
        Op::Drop => &["op", "plan"],
        Op::Measure => &["op", "plan", "rows", "epsilon"],
        Op::Exact => &["op", "plan", "source", "rows"],
        Op::Budget => &["op", "source"],
    }
}
