//! Plans as JSON values: a value is read as the plan that it denotes or refused for the first fault of one
//! walk, and a plan is written as a value that reads as that plan. The walk is defined in `specs/`.
#![tactic(auto)]

mod fields;
mod items;
mod plan;
mod reducers;
mod runs;
mod step;
mod write;

pub use expr_text::{Field, Limit, PlanText};
pub use plan::read_plan;
pub use write::plan_to_json;
