//! The lists in replies.
ghost use Rattle.std.specs.Prelude.{◌≡◌, IfOk, string_bytes};
ghost use Rattle.frac_core.specs.Text.{ratio_text};
ghost use Rattle.reply_text.specs.Replies.{kind_data, list_data, use_data, weight_data, wide_data};
ghost use Rattle.reply_text.specs.Shows.{Shows};
ghost use Rattle.reply_text.specs.Words.{kind_word};

use frac_core::Frac;
use messages::Memory;
use record_text::{Kind, Kinds, Name};
use serde_json::{Value, json};
use std::alloc::Global;

/// The names of the kinds, in their order.
pub fn kinds_value(alloc: Global, kinds: Kinds) -> Result<Value, Memory>
    ensures { Shows result (list_data kind_data kinds) }
{
    let mut list = Vec::with_capacity(alloc, kinds.len())?;
    for column in 0..kinds.len() {
        let value = kind_value(alloc, kinds.at(column))?;
        list.push(value)?;
    }
    Ok(Value::Array(list))
}

fn kind_value(alloc: Global, kind: Kind) -> Result<Value, Memory>
    ensures { Shows result (kind_data kind) }
{
    let text = String::from_str(alloc, kind_text(kind))?;
    Ok(Value::String(text))
}

fn kind_text(kind: Kind) -> &'static str
    ensures { result.now ≡ kind_word kind }
{
    match kind {
        Kind::Int => "int",
        Kind::Text => "text",
    }
}

/// A pair for each source, of its name and its number.
pub fn uses_value(alloc: Global, uses: &[(Name, u64)]) -> Result<Value, Memory>
    ensures { Shows result (list_data use_data uses.now) }
{
    let mut list = Vec::with_capacity(alloc, uses.len())?;
    for source in uses {
        let value = use_value(alloc, source.0, source.1)?;
        list.push(value)?;
    }
    Ok(Value::Array(list))
}

fn use_value(alloc: Global, source: Name, uses: u64) -> Result<Value, Memory>
    ensures { Shows result (use_data (source, uses)) }
{
    json!(in alloc; [(source.as_str()), uses])
}

/// The texts of the weights, in their order.
pub fn weights_value(alloc: Global, weights: &[Frac]) -> Result<Value, Memory>
    ensures { Shows result (list_data weight_data weights.now) }
{
    let mut list = Vec::with_capacity(alloc, weights.len())?;
    for weight in weights {
        let text = weight_text(alloc, *weight)?;
        list.push(Value::String(text))?;
    }
    Ok(Value::Array(list))
}

/// The text of a weight.
pub fn weight_text(alloc: Global, weight: Frac) -> Result<String, Memory>
    ensures { IfOk result (λ s. string_bytes s ≡ ratio_text weight) }
{
    let mut text = Vec::new(alloc);
    weight.write(alloc, &mut text)?;
    match String::from_utf8(text) {
        Ok(text) => Ok(text),
        Err(_) => unreachable!(),
    }
}

/// The texts of whole numbers, in their order.
pub fn wides_value(alloc: Global, wides: &[i128]) -> Result<Value, Memory>
    ensures { Shows result (list_data wide_data wides.now) }
{
    let mut list = Vec::with_capacity(alloc, wides.len())?;
    for wide in wides {
        let text = format!(in alloc; "{wide}")?;
        list.push(Value::String(text))?;
    }
    Ok(Value::Array(list))
}
