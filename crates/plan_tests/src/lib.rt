//! Tests of expressions and plans: of what no contract says, that calls succeed, and that the definitions say what is
//! meant.
#![tactic(auto)]

#[cfg(test)]
mod model;
