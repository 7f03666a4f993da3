//! Tests of sessions with plans through the top call.
#![tactic(auto)]

#[cfg(test)]
mod joins_groups;
#[cfg(test)]
mod plan_steps;
#[cfg(test)]
mod plans;
#[cfg(test)]
mod sessions;
