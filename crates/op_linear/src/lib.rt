//! Filter, Select and Many: the operators that work row by row.
//!
//! Each works one key at a time: the keys of an input row are the output rows that it gives, each with a factor,
//! and the output at a key is worked out from the input rows of that key alone.
#![tactic(auto)]

mod filter;
mod many;
mod select;
mod shares;
mod sums;

pub use filter::FilterOp;
pub use many::ManyOp;
pub use select::SelectOp;
pub use weighted_set::Memory;
