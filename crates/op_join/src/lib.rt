//! Join: the pairs of the rows of two inputs whose keys are equal.
//!
//! The key of a row on either side is the row that the side's expressions make of it, and the output at a key is
//! worked out from the rows of that key alone.
#![tactic(auto)]

mod join;
mod norms;
mod pairs;

pub use join::JoinOp;
pub use weighted_set::Memory;
