//! Expressions as JSON values: a value is read as the expression, or the list of them, that it denotes, or refused
//! for the first fault of one walk, and each is written as a value that reads as it. The walk is defined in
//! `specs/`. The faults of a whole plan stand here too.
#![tactic(auto)]

mod fault;
mod fields;
mod form;
mod read;
mod write;

pub use fault::{Field, Limit, Place, PlanText, over, shape};
pub use fields::{has_only, list};
pub use read::{expr, exprs};
pub use write::{expr_to_json, exprs_to_json};
