//! What the operators share: the rows that expressions make, lists of weighted rows, and what a row's keys
//! and parts are where each row has one key.
#![tactic(auto)]

mod lists;
mod rows;

pub use lists::{is_zero, push_made, push_row, push_rows, tick_each};
pub use rows::{followed_by, made_row, passes};
pub use weighted_set::Memory;
