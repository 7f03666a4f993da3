//! Graphs of operators that are kept up to date under changes of their sources.
//!
//! A graph runs a plan, whose steps have sources or earlier steps as their inputs. Changes of its sources are
//! prepared first in every step, and then committed or aborted.
#![tactic(auto)]

mod laws;
mod passes;
mod rows;
mod step;
mod wire;
mod wired;

pub use laws::law_evals;
pub use passes::{GraphFault, abort_all, commit_all, prepare_all};
pub use rows::{put_rows, row_weight};
pub use step::changes_at;
pub use wire::Wire;
pub use wired::{abort_wired, commit_wired, prepare_wired};
