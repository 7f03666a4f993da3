//! Numbers of noise from the lines of a source, as from a file in the working folder.
#![tactic(auto)]

mod byte;
mod file_source;
mod front;
mod number;
mod on_lines;
mod take;

pub use file_source::{FileNoise, FileSource, NOISE_FILE};
pub use on_lines::LineNoise;
