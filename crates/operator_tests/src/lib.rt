//! Tests of operators, key by key: of what no contract says, that calls succeed, and that the definitions say what is
//! meant.
#![tactic(auto)]

#[cfg(test)]
mod grouped_parts;
#[cfg(test)]
mod linear;
#[cfg(test)]
mod many_shave_set;
