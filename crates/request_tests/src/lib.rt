//! Tests of reading CSV updates, and of requests as lines.
#![tactic(auto)]

#[cfg(test)]
mod csv;
#[cfg(test)]
mod requests;
