//! Tests of the top call under hostile use: devices that fail at each of their calls, input that is cut at each byte, and
//! lines and plans at the limits and one past them.
#![tactic(auto)]

#[cfg(test)]
mod devices;
#[cfg(test)]
mod lines;
#[cfg(test)]
mod plans;
#[cfg(test)]
mod script;
#[cfg(test)]
mod sent_again;
