//! From a reply to its line.
ghost use Rattle.std.specs.Prelude.{◌≡◌, ◌++◌, IfOk, OnOk, OnErr};
ghost use Rattle.reply_text.specs.Replies.{budget_data, looked_up_data, measured_data, planned_data, reply_data, reply_line, sum_data};
ghost use Rattle.reply_text.specs.Shows.{Shows};

use crate::lists::{kinds_value, uses_value, weight_text, weights_value, wides_value};
use crate::refused::refusal_value;
use frac_core::Frac;
use messages::{Memory, Reply};
use record_text::{Kinds, Name};
use serde_json::{Value, json};
use std::alloc::Global;

/// Appends the reply's line with its LF. After `Memory`, `into` is unchanged.
pub fn write_reply(alloc: Global, reply: &Reply, into: &mut Vec<u8>) -> Result<(), Memory>
    ensures ok { OnOk result (into.new.items ≡ into.old.items ++ reply_line reply.now) }
    ensures err { OnErr result (into.new.items ≡ into.old.items) }
{
    let line = line_of(alloc, reply)?;
    into.extend_from_slice(&line)
}

// The line of a reply.
fn line_of(alloc: Global, reply: &Reply) -> Result<Vec<u8>, Memory>
    ensures { IfOk result (λ line. line.items ≡ reply_line reply.now) }
{
    let value = reply_value(alloc, reply)?;
    let mut line = value.to_vec(alloc)?;
    line.push(b'\n')?;
    Ok(line)
}

// The object of a reply.
fn reply_value(alloc: Global, reply: &Reply) -> Result<Value, Memory>
    ensures { Shows result (reply_data reply.now) }
{
    match reply {
        Reply::Done => json!(in alloc; {"ok": true}),
        Reply::SumOf { sum } => sum_value(alloc, *sum),
        Reply::Records { count } => json!(in alloc; {"ok": true, "records": (*count)}),
        Reply::Planned { cols, uses } => planned_value(alloc, *cols, uses.as_slice()),
        Reply::Values { charged, values } => {
            measured_value(alloc, charged.as_slice(), values.as_slice())
        }
        Reply::Weights { weights } => looked_up_value(alloc, weights.as_slice()),
        Reply::Budget { left, spent, total } => budget_value(alloc, *left, *spent, *total),
        Reply::Refused(refusal) => refusal_value(alloc, refusal),
    }
}

fn sum_value(alloc: Global, sum: Frac) -> Result<Value, Memory>
    ensures { Shows result (sum_data sum) }
{
    let text = weight_text(alloc, sum)?;
    json!(in alloc; {"ok": true, "sum": text})
}

fn planned_value(alloc: Global, cols: Kinds, uses: &[(Name, u64)]) -> Result<Value, Memory>
    ensures { Shows result (planned_data cols uses.now) }
{
    let cols = kinds_value(alloc, cols)?;
    let uses = uses_value(alloc, uses)?;
    json!(in alloc; {"cols": cols, "ok": true, "uses": uses})
}

fn looked_up_value(alloc: Global, weights: &[Frac]) -> Result<Value, Memory>
    ensures { Shows result (looked_up_data weights.now) }
{
    let weights = weights_value(alloc, weights)?;
    json!(in alloc; {"ok": true, "weights": weights})
}

fn measured_value(alloc: Global, charged: &[(Name, u64)], values: &[i128]) -> Result<Value, Memory>
    ensures { Shows result (measured_data charged.now values.now) }
{
    let charged = uses_value(alloc, charged)?;
    let values = wides_value(alloc, values)?;
    json!(in alloc; {"charged": charged, "ok": true, "values": values})
}

fn budget_value(alloc: Global, left: u64, spent: u64, total: u64) -> Result<Value, Memory>
    ensures { Shows result (budget_data left spent total) }
{
    json!(in alloc; {"left": left, "ok": true, "spent": spent, "total": total})
}
