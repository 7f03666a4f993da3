//! Tests of weighted sets and of stores of them by key: of what no contract says, that calls succeed, and that the
//! definitions say what is meant.
#![tactic(auto)]

#[cfg(test)]
mod apart;
#[cfg(test)]
mod comparers;
#[cfg(test)]
mod sets;
#[cfg(test)]
mod stores;
