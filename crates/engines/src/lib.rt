//! Operators that are kept up to date as their inputs change.
//!
//! One engine keeps an operator up to date at the keys that change, the other works its whole output out anew.
#![tactic(auto)]

mod inputs;
mod keyed;
mod outputs;
mod whole;

pub use inputs::check_range;
pub use keyed::Keyed;
pub use std::alloc::AllocError as Memory;
pub use whole::Whole;
