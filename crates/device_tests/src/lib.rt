//! Tests of the crates of devices, lines, budgets, words and the demo's lines.
#![tactic(auto)]

#[cfg(test)]
mod budgets;
#[cfg(test)]
mod demo;
#[cfg(test)]
mod devices;
#[cfg(test)]
mod lines;
#[cfg(test)]
mod words;
