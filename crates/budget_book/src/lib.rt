//! A book of budgets: how much epsilon each source may give away, and how much of it is spent. All amounts are in
//! millionths of epsilon. A total is at most 10^15, and no more than the total is ever spent.
#![tactic(auto)]

mod ask;
mod book;
mod budget;
mod short;

pub use ask::Ask;
pub use book::Book;
pub use short::Short;
pub use std::alloc::AllocError as Memory;
