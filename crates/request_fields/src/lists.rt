//! The lists of requests: weights, kinds and rows.
ghost use Rattle.std.specs.Prelude.{◌≡◌, ◌≤◌, length, IfOk, map};
ghost use Rattle.serde_json.specs.View.{view};
ghost use Rattle.json_fields.specs.Walk.{each};
ghost use Rattle.request_fields.specs.Gives.{Gives, GivesBy};
ghost use Rattle.request_fields.specs.Fields.{kind_in, kinds_in, max_rows, row_in, rows_in, weight_in, weights_in};

use crate::fields::{list, refuse};
use frac_core::Frac;
use json_fields::{are_texts, list_of};
use messages::{ReadFault, Refusal, Rows, Weights};
use record_text::{Kind, Kinds, Row, RowFault, row_from_json};
use serde_json::Value;
use std::alloc::Global;

/// The most columns of a source.
const MAX_WIDTH: usize = 16;

/// The most rows that a request may ask for.
const MAX_ROWS: usize = 1024;

/// A list of texts, each a weight. `Weight` names the first text that is none, once all are texts.
#[tactic(auto, unfolding(crate::specs::Fields::weights_in))]
pub fn weights(alloc: Global, value: &Value) -> Result<Weights, ReadFault>
    ensures { Gives result (weights_in (view value.now)) }
{
    let Some(list) = value.get("weights").and_then(list_of) else {
        return refuse(alloc, "weights");
    };
    if !are_texts(list) {
        return refuse(alloc, "weights");
    }
    all_weights(alloc, list)
}

// The weights that these texts are.
fn all_weights(alloc: Global, list: &[Value]) -> Result<Weights, ReadFault>
    ensures { Gives result (each weight_in 0 (map view list.now)) }
{
    let mut weights = Vec::new(alloc);
    for (at, value) in list.iter().enumerate() {
        let weight = weight(alloc, at, value)?;
        weights.push(weight)?;
    }
    Ok(Weights::from_vec(weights))
}

// The weight that the text at a place is.
#[tactic(auto, unfolding(crate::specs::Fields::weight_in))]
fn weight(alloc: Global, at: usize, value: &Value) -> Result<Frac, ReadFault>
    ensures { Gives result (weight_in at (view value.now)) }
{
    let Some(text) = value.as_str() else {
        return refuse(alloc, "weights");
    };
    match Frac::read(text.as_bytes()) {
        Ok(weight) => Ok(weight),
        Err(fault) => Err(ReadFault::Refused(Refusal::Weight { at, fault })),
    }
}

/// A list of 1 to 16 kinds: as many as a row may have columns.
#[tactic(auto, unfolding(crate::specs::Fields::kinds_in))]
pub fn kinds(alloc: Global, value: &Value) -> Result<Kinds, ReadFault>
    ensures { Gives result (kinds_in (view value.now)) }
{
    let list = list(alloc, value, "kinds", 1, MAX_WIDTH)?;
    let kinds = all_kinds(alloc, list)?;
    Ok(Kinds::from_slice(&kinds))
}

// The kinds that these texts name.
fn all_kinds(alloc: Global, list: &[Value]) -> Result<Vec<Kind>, ReadFault>
    ensures kinds { GivesBy (λ kinds. kinds.items) result (each (λ at. kind_in) 0 (map view list.now)) }
    ensures len { IfOk result (λ kinds. length kinds.items ≡ length list.now) }
{
    let mut kinds = Vec::new(alloc);
    for value in list {
        let kind = kind(alloc, value)?;
        kinds.push(kind)?;
    }
    Ok(kinds)
}

// The kind that a text names.
#[tactic(auto, unfolding(crate::specs::Fields::kind_in))]
fn kind(alloc: Global, value: &Value) -> Result<Kind, ReadFault>
    ensures { Gives result (kind_in (view value.now)) }
{
    let Some(name) = value.as_str() else {
        return refuse(alloc, "kinds");
    };
    if name == "int" {
        Ok(Kind::Int)
    } else if name == "text" {
        Ok(Kind::Text)
    } else {
        refuse(alloc, "kinds")
    }
}

/// A list of 1 to 1,024 rows.
#[tactic(auto, unfolding(crate::specs::Fields::rows_in))]
pub fn rows(alloc: Global, value: &Value) -> Result<Rows, ReadFault>
    ensures value { Gives result (rows_in (view value.now)) }
    ensures count { IfOk result (λ rows. (1 ≤ length rows) × (length rows ≤ max_rows)) }
{
    let list = list(alloc, value, "rows", 1, MAX_ROWS)?;
    all_rows(alloc, list)
}

// The rows that these lists are.
fn all_rows(alloc: Global, list: &[Value]) -> Result<Rows, ReadFault>
    ensures value { Gives result (each (λ at. row_in) 0 (map view list.now)) }
    ensures count { IfOk result (λ rows. length rows ≡ length list.now) }
{
    let mut rows = Vec::new(alloc);
    for value in list {
        let row = row(alloc, value)?;
        rows.push(row)?;
    }
    Ok(Rows::from_vec(rows))
}

// The row that a list of atoms is.
#[tactic(auto, unfolding(crate::specs::Fields::row_in))]
fn row(alloc: Global, value: &Value) -> Result<Row, ReadFault>
    ensures { Gives result (row_in (view value.now)) }
{
    match row_from_json(alloc, value) {
        Ok(row) => Ok(row),
        Err(RowFault::Memory) => Err(ReadFault::Memory),
        Err(_) => refuse(alloc, "rows"),
    }
}
