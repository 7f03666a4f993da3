//! Tests of graphs of plans: of what no contract says, that calls succeed, and that the definitions say what is meant.
#![tactic(auto)]

#[cfg(test)]
mod graphs;
#[cfg(test)]
mod paths;
#[cfg(test)]
mod stores;
