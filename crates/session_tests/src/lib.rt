//! Tests of sessions: lines that are answered one after another.
#![tactic(auto)]

#[cfg(test)]
mod memory;
#[cfg(test)]
mod sessions;
