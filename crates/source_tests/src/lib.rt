//! Tests of sessions with sources and budgets through the top call.
#![tactic(auto)]

#[cfg(test)]
mod measures;
#[cfg(test)]
mod sources;
