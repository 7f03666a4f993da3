//! Tests of replies as lines.
#![tactic(auto)]

#[cfg(test)]
mod replies;
