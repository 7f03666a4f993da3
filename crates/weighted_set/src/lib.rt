//! Weighted datasets: rows with exact weights, sets of them that change in two steps, and stores of them by
//! key.
//!
//! Contracts see a `WSet` as a dataset. What changes in two steps they see as the committed dataset and the
//! one that is pending, a store at each key.
#![tactic(auto)]

mod adding;
mod changed;
mod compared;
mod held;
mod laws;
mod operator;
mod part;
mod part_op;
mod part_store;
mod set;
mod source_set;
mod touched;
mod weighted;
mod wset;

pub use adding::AddFault;
pub use changed::push_changes;
pub use held::View;
pub use laws::law_changes;
pub use operator::Operator;
pub use part_op::{OpFault, PartOp, Side};
pub use part_store::PartStore;
pub use set::HeldSet;
pub use source_set::SourceSet;
pub use std::alloc::AllocError as Memory;
pub use weighted::{Change, Weighted};
pub use wset::WSet;
