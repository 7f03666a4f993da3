//! Tests of the top call: its words, and runs over devices in memory.
#![tactic(auto)]

#[cfg(test)]
mod demos;
#[cfg(test)]
mod loads;
#[cfg(test)]
mod runs;
