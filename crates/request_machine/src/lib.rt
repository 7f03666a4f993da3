//! The request machine: what every line is answered in every state, as definitions.
//!
//! The definitions stand in `specs/`: the state in `State.antt`, what holds of each in `Sound.antt`, and the step in
//! `Machine.antt`. The functions here hold no code, and their contracts are laws of the definitions.
#![tactic(auto)]

mod laws;

pub use laws::{law_file, law_noise, law_replies};
