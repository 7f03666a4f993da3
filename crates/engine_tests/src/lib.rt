//! Tests of operators that both engines keep up to date: of what no contract says, that calls succeed, and that the
//! definitions say what is meant.
#![tactic(auto)]

#[cfg(test)]
mod both_engines;
#[cfg(test)]
mod joined_grouped;
#[cfg(test)]
mod turns;
