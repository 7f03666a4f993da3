//! From a line to a request.
ghost use Rattle.std.specs.Prelude.{IfOk};
ghost use Rattle.serde_json.specs.View.{view};
ghost use Rattle.request_fields.specs.Gives.{Gives};
ghost use Rattle.request_text.specs.Requests.{IsWithinLimits, request_in_json, request_of, request_on};

use crate::op::{Op, op_of};
use crate::ops::{budget, drop_plan, exact, load, measure, new_plan, source, sum, update};
use messages::{ReadFault, Refusal, Request};
use request_fields::refuse;
use serde_json::Value;
use std::alloc::Global;

/// The most bytes that a request line may have, without its LF and one CR at its end.
pub const MAX_LINE: usize = 1_048_576;

/// The request on a line of at most `MAX_LINE` bytes, or the first fault: `Line`, then `Json`, then those of
/// one walk over the fields, and last `Name`. `Memory` may come in place of any answer.
#[tactic(auto, unfolding(crate::specs::Requests::request_on))]
pub fn read_request(alloc: Global, line: &[u8]) -> Result<Request, ReadFault>
    ensures value { Gives result (request_on line.now) }
    ensures limits { IfOk result IsWithinLimits }
{
    if line.len() > MAX_LINE {
        Err(ReadFault::Refused(Refusal::Line))
    } else {
        parsed(alloc, line)
    }
}

// The request of a text, which has to be JSON.
#[tactic(auto, unfolding(crate::specs::Requests::request_in_json))]
fn parsed(alloc: Global, line: &[u8]) -> Result<Request, ReadFault>
    ensures value { Gives result (request_in_json line.now) }
    ensures limits { IfOk result IsWithinLimits }
{
    match Value::from_slice(alloc, line) {
        Ok(value) => request(alloc, &value),
        Err(e) => {
            if e.is_memory() {
                Err(ReadFault::Memory)
            } else {
                Err(ReadFault::Refused(Refusal::Json))
            }
        }
    }
}

// The request that an object with a known operation is.
#[tactic(auto, unfolding(crate::specs::Requests::request_of))]
fn request(alloc: Global, value: &Value) -> Result<Request, ReadFault>
    ensures value { Gives result (request_of (view value.now)) }
    ensures limits { IfOk result IsWithinLimits }
{
    let Some(members) = value.as_object() else {
        return refuse(alloc, "request");
    };
    match op_of(value) {
        None => refuse(alloc, "op"),
        Some(op) => match op {
            Op::Sum => sum(alloc, value, members),
            Op::Source => source(alloc, value, members),
            Op::Update => update(alloc, value, members),
            Op::Load => load(alloc, value, members),
            Op::Plan => new_plan(alloc, value, members),
            Op::Drop => drop_plan(alloc, value, members),
            Op::Measure => measure(alloc, value, members),
            Op::Exact => exact(alloc, value, members),
            Op::Budget => budget(alloc, value, members),
        },
    }
}
