//! The fields of requests: each is read as what it denotes, or refused. The definitions of what a request's walk
//! comes to are in `specs/`.
#![tactic(auto)]

mod fields;
mod lists;

pub use fields::{boolean, flag, named, only_known, path_of, refuse, text, thing, whole};
pub use lists::{kinds, rows, weights};
