//! Query plans: expressions over rows, steps, plans, and the types of the sources that they read.
//!
//! Contracts see lists as lists and a plan as its steps. What an expression and a plan mean, and which
//! plans are accepted, is defined in `specs/`.
#![tactic(auto)]

mod expr;
mod laws;
mod lists;
mod plan;
mod source_types;
mod step;

pub use expr::{Expr, ExprFault};
pub use laws::{law_evaluation, law_misfit, law_typed, law_uses, law_values};
pub use lists::{Exprs, Items, Runs};
pub use plan::{Plan, What};
pub use record_text::Memory;
pub use source_types::{SourceType, SourceTypes};
pub use step::{Item, Reducer, Run, SetKind, Step};
