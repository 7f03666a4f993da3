//! Shave: the weight of each row cut into pieces.
//!
//! Each row is its own key, and its output rows are the row followed by the places of its pieces.
#![tactic(auto)]

mod pieces;
mod shave;

pub use shave::ShaveOp;
pub use weighted_set::Memory;
