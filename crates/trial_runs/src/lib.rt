//! Runs of the top call over devices in memory, and sessions with the replies that they are to have: what tests of the top
//! call share.
#![tactic(auto)]

mod runs;
mod sessions;
mod texts;

pub use runs::{Told, answer, answer_over, run, run_with_files};
pub use sessions::{converse, converse_over};
pub use std::alloc::AllocError as Memory;
pub use texts::{first_lines, numbered, of_rows, repeated};
