//! Replies as lines: each is the compact text of a JSON object with its keys in byte order, and LF. The formats are
//! those of docs/FORMATS.md.
#![tactic(auto)]

mod lists;
mod refused;
mod write;

pub use write::write_reply;
