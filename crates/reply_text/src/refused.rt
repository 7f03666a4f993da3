//! From a refusal to its object.
ghost use Rattle.std.specs.Prelude.{◌≡◌};
ghost use Rattle.serde_json.specs.Data.{object};
ghost use Rattle.reply_text.specs.Refusals.{csv_data, field_data, full_data, name_data, over_data, plan_data, range_data, record_data, refusal_data, refused_for, row_fault_data, shape_data, short_data, weight_fault_data};
ghost use Rattle.reply_text.specs.Shows.{Shows};
ghost use Rattle.reply_text.specs.Words.{csv_word, fault_word, limit_word, what_word};

use csv_changes::CsvWhat;
use expr_text::Limit;
use frac_core::FracFault;
use messages::{Memory, Refusal, Thing};
use plan_model::What;
use serde_json::{Value, json};
use std::alloc::Global;

/// The object of a refusal.
pub fn refusal_value(alloc: Global, refusal: &Refusal) -> Result<Value, Memory>
    ensures { Shows result (refusal_data refusal.now) }
{
    match refusal {
        Refusal::Line => plain_value(alloc, "line"),
        Refusal::Json => plain_value(alloc, "json"),
        Refusal::Shape { field, step } => shape_value(alloc, field.as_str(), *step),
        Refusal::Over { step, limit } => over_value(alloc, *step, *limit),
        Refusal::Weight { at, fault } => weight_fault_value(alloc, *at, *fault),
        Refusal::Name { field } => field_value(alloc, field.as_str(), "name"),
        Refusal::Exists { what, name } => name_value(alloc, *what, name.as_str(), "exists"),
        Refusal::Unknown { what, name } => name_value(alloc, *what, name.as_str(), "unknown"),
        Refusal::Full { what } => full_value(alloc, *what),
        Refusal::Curator => plain_value(alloc, "curator"),
        Refusal::File => plain_value(alloc, "file"),
        Refusal::FileMissing => plain_value(alloc, "file_missing"),
        Refusal::FileLong => plain_value(alloc, "file_long"),
        Refusal::Csv { at, what } => csv_value(alloc, *at, *what),
        Refusal::RecordRange { at } => record_value(alloc, *at, "record_range"),
        Refusal::Negative { at } => record_value(alloc, *at, "negative"),
        Refusal::Plan { step, what } => plan_value(alloc, *step, *what),
        Refusal::Row { at } => row_fault_value(alloc, *at, "row"),
        Refusal::Repeat { at } => row_fault_value(alloc, *at, "repeat"),
        Refusal::SumRange { at } => json!(in alloc; {"at": (*at), "ok": false, "why": "range"}),
        Refusal::Range { plan, step } => range_value(alloc, plan.as_str(), *step),
        Refusal::Budget {
            source,
            left,
            asked,
        } => short_value(alloc, source.as_str(), *left, *asked),
        Refusal::Noise => plain_value(alloc, "noise"),
    }
}

fn plain_value(alloc: Global, why: &str) -> Result<Value, Memory>
    ensures { Shows result (object (refused_for why.now)) }
{
    json!(in alloc; {"ok": false, "why": why})
}

fn field_value(alloc: Global, field: &str, why: &str) -> Result<Value, Memory>
    ensures { Shows result (field_data field.now why.now) }
{
    json!(in alloc; {"field": field, "ok": false, "why": why})
}

fn shape_value(alloc: Global, field: &str, step: Option<usize>) -> Result<Value, Memory>
    ensures { Shows result (shape_data field.now step) }
{
    match step {
        None => field_value(alloc, field, "shape"),
        Some(step) => {
            json!(in alloc; {"field": field, "ok": false, "step": step, "why": "shape"})
        }
    }
}

fn over_value(alloc: Global, step: usize, limit: Limit) -> Result<Value, Memory>
    ensures { Shows result (over_data step limit) }
{
    json!(in alloc; {"limit": (limit_text(limit)), "ok": false, "step": step, "why": "over"})
}

fn weight_fault_value(alloc: Global, at: usize, fault: FracFault) -> Result<Value, Memory>
    ensures { Shows result (weight_fault_data at fault) }
{
    json!(in alloc; {"at": at, "ok": false, "text": (fault_text(fault)), "why": "weight"})
}

fn name_value(alloc: Global, what: Thing, name: &str, why: &str) -> Result<Value, Memory>
    ensures { Shows result (name_data what name.now why.now) }
{
    json!(in alloc; {"name": name, "ok": false, "what": (what.word()), "why": why})
}

fn full_value(alloc: Global, what: Thing) -> Result<Value, Memory>
    ensures { Shows result (full_data what) }
{
    json!(in alloc; {"ok": false, "what": (what.word()), "why": "full"})
}

fn csv_value(alloc: Global, at: usize, what: CsvWhat) -> Result<Value, Memory>
    ensures { Shows result (csv_data at what) }
{
    json!(in alloc; {"ok": false, "record": at, "what": (csv_text(what)), "why": "csv"})
}

fn record_value(alloc: Global, at: usize, why: &str) -> Result<Value, Memory>
    ensures { Shows result (record_data at why.now) }
{
    json!(in alloc; {"ok": false, "record": at, "why": why})
}

fn plan_value(alloc: Global, step: usize, what: What) -> Result<Value, Memory>
    ensures { Shows result (plan_data step what) }
{
    json!(in alloc; {"ok": false, "step": step, "what": (what_text(what)), "why": "plan"})
}

fn range_value(alloc: Global, plan: &str, step: usize) -> Result<Value, Memory>
    ensures { Shows result (range_data plan.now step) }
{
    json!(in alloc; {"ok": false, "plan": plan, "step": step, "why": "range"})
}

fn row_fault_value(alloc: Global, at: usize, why: &str) -> Result<Value, Memory>
    ensures { Shows result (row_fault_data at why.now) }
{
    json!(in alloc; {"ok": false, "row": at, "why": why})
}

fn short_value(alloc: Global, source: &str, left: u64, asked: u64) -> Result<Value, Memory>
    ensures { Shows result (short_data source.now left asked) }
{
    json!(in alloc; {"asked": asked, "left": left, "ok": false, "source": source, "why": "budget"})
}

fn fault_text(fault: FracFault) -> &'static str
    ensures { result.now ≡ fault_word fault }
{
    match fault {
        FracFault::BadText => "bad",
        FracFault::ZeroDenominator => "zero",
        FracFault::OutOfRange => "range",
    }
}

fn csv_text(what: CsvWhat) -> &'static str
    ensures { result.now ≡ csv_word what }
{
    match what {
        CsvWhat::Width => "width",
        CsvWhat::Int => "int",
        CsvWhat::Text => "text",
        CsvWhat::Weight => "weight",
    }
}

fn limit_text(limit: Limit) -> &'static str
    ensures { result.now ≡ limit_word limit }
{
    match limit {
        Limit::Steps => "steps",
        Limit::Width => "width",
        Limit::Depth => "depth",
        Limit::Nodes => "nodes",
        Limit::Items => "items",
        Limit::Pieces => "pieces",
    }
}

fn what_text(what: What) -> &'static str
    ensures { result.now ≡ what_word what }
{
    match what {
        What::UnknownSource => "unknown_source",
        What::Column => "column",
        What::Kind => "kind",
        What::TooWide => "too_wide",
        What::Negative => "negative",
        What::UsesOver => "uses_over",
    }
}
