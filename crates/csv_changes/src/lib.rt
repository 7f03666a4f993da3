//! CSV updates: a CSV text is read as the changes that it adds to a source, or its first faulty record is
//! named. The format is that of docs/FORMATS.md.
#![tactic(auto)]

mod changes;
mod fault;
mod records;

pub use changes::{Added, read_changes};
pub use fault::{CsvFault, CsvWhat};
pub use record_text::Memory;
