//! Group: the rows of each key, reduced at each level of their weights.
//!
//! The rows of a key are walked by falling weight. At each level the rows so far are reduced to an atom, and
//! half of what the level is above the next one is added at the key followed by that atom.
#![tactic(auto)]

mod group;
mod order;
mod taken;
mod walk;

pub use group::GroupOp;
pub use weighted_set::Memory;
