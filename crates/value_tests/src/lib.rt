//! Tests of the crates of values and their texts.
#![tactic(auto)]

#[cfg(test)]
mod fields;
#[cfg(test)]
mod fractions;
#[cfg(test)]
mod orders;
#[cfg(test)]
mod primitives;
#[cfg(test)]
mod rows;
