//! Requests and replies as lines of JSON: a line is read as the request that it denotes or refused for its
//! first fault, and a reply is written as the compact text of an object with its keys in byte order. The
//! formats are those of docs/FORMATS.md.
//!
//! The types are those of `messages`, the writer is that of `reply_text`, and the reader of CSV updates that of
//! `csv_changes`.
#![tactic(auto)]

mod op;
mod ops;
mod plans;
mod read;

pub use csv_changes::{Added, CsvFault, CsvWhat, read_changes};
pub use messages::{
    Bytes, FieldText, Memory, ReadFault, Refusal, Reply, Request, Rows, Target, Thing, Uses,
    Weights, Wides,
};
pub use read::{MAX_LINE, read_request};
pub use reply_text::write_reply;
