//! Lines of a byte stream, and runs of a machine that replies to lines.
//!
//! The definitions stand in `specs/`. The functions here hold no code, and their contracts are laws of the
//! definitions.
#![tactic(auto)]

mod laws;

pub use laws::{Machine, law_pieces, law_runs, law_worked_lines};
