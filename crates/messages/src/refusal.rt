//! Why a request is refused.

use crate::field_text::FieldText;
use crate::thing::Thing;
use csv_changes::CsvWhat;
use expr_text::Limit;
use frac_core::FracFault;
use plan_model::What;
use record_text::Name;
use thiserror::Error;

/// The first fault of a request. All places count from 0.
#[derive(Debug, Drop, Error)]
pub enum Refusal {
    /// The line has over 1,048,576 bytes.
    #[error("the line is too long")]
    Line,
    /// The line is no JSON, or nests deeper than 127.
    #[error("the line is no JSON")]
    Json,
    /// The field is missing, is not as it must be, or is one that the request doesn't have. Where a step is
    /// told, it is a field of the request's plan, at that step.
    #[error("the field {0} is not as it must be", field.as_str())]
    Shape {
        field: FieldText,
        step: Option<usize>,
    },
    /// The step of the request's plan has more than the limit.
    #[error("the step {step} is over the limit {limit:?}")]
    Over {
        step: usize,
        limit: Limit,
    },
    /// The text at this place is no weight.
    #[error("the weight at {at} is refused: {fault}")]
    Weight {
        at: usize,
        fault: FracFault,
    },
    /// The text of this field is no name.
    #[error("the field {0} is no name", field.as_str())]
    Name {
        field: FieldText,
    },
    /// There is one of this name already.
    #[error("the name {0} is taken", name.as_str())]
    Exists {
        what: Thing,
        name: Name,
    },
    /// There is none of this name.
    #[error("there is no {0}", name.as_str())]
    Unknown {
        what: Thing,
        name: Name,
    },
    /// There are as many as there may be.
    #[error("there is no room for another")]
    Full {
        what: Thing,
    },
    /// Exact answers are the curator's alone.
    #[error("exact answers are not open")]
    Curator,
    /// The shelf of files failed.
    #[error("the file can't be read")]
    File,
    /// The shelf has no file at the path.
    #[error("there is no such file")]
    FileMissing,
    /// The file has over 16,777,216 bytes.
    #[error("the file is too long")]
    FileLong,
    /// The record is not as the source's columns ask.
    #[error("the record {at} is not as it must be")]
    Csv {
        at: usize,
        what: CsvWhat,
    },
    /// The running weight of the record's row is out of range.
    #[error("the weight of record {at} is out of range")]
    RecordRange {
        at: usize,
    },
    /// The record's row ends below 0, where no weight may be negative.
    #[error("the row of record {at} ends below 0")]
    Negative {
        at: usize,
    },
    /// The step keeps the plan from being accepted.
    #[error("the step {step} is not accepted: {what:?}")]
    Plan {
        step: usize,
        what: What,
    },
    /// The row doesn't fit the columns.
    #[error("the row {at} doesn't fit")]
    Row {
        at: usize,
    },
    /// The row is one that came before.
    #[error("the row {at} came before")]
    Repeat {
        at: usize,
    },
    /// The running sum leaves the range of fractions at the weight of this place.
    #[error("the sum is out of range at {at}")]
    SumRange {
        at: usize,
    },
    /// The step's output in this plan would leave the range of fractions.
    #[error("the plan {0} is out of range at step {step}", plan.as_str())]
    Range {
        plan: Name,
        step: usize,
    },
    /// More is asked of the source's budget than is left of it, both in millionths of epsilon.
    #[error("of the budget of {0} only {left} are left", source.as_str())]
    Budget {
        source: Name,
        left: u64,
        asked: u64,
    },
    /// The noise failed.
    #[error("the noise failed")]
    Noise,
}
