//! The words of the command line, read with clap as one command: the flag `--curator`, and the options
//! `--demo` and `--max-bytes` with a number each.
#![tactic(auto)]

mod command;
mod fault;
mod laws;
mod number;
mod options;
mod read;
mod word;

pub use fault::WordsFault;
pub use laws::{law_word_values, law_words};
pub use options::Options;
pub use read::read_words;
pub use word::Word;
