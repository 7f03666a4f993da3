//! The primitives that query expressions call: their tables, and their answers.
//!
//! Each primitive has a place in the table of its number of arguments. What it answers is defined in
//! `specs/`. Truth is 1, falsity 0, and any number but 0 counts as true. A result past either end of
//! an `i64` is that end.
#![tactic(auto)]

mod apply;
mod tables;

pub use apply::{apply1, apply2, apply3};
pub use record_text::{Atom, Kind, Memory};
pub use tables::{ONE, PrimId, PrimRow, THREE, TWO, find, row1, row2, row3};
