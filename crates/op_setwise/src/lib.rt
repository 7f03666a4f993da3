//! Union, Intersect, Concat and Except: the operators that work on two inputs row by row.
//!
//! A row is its own key on both sides, and the output at a row is worked out from its two weights alone.
#![tactic(auto)]

mod set;

pub use set::SetOp;
pub use weighted_set::Memory;
