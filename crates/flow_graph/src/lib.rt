//! Plans that are kept up to date as their sources change.
//!
//! A graph keeps a node for each step of a plan, and the output of the last. Changes of a source are prepared in
//! every step, and then committed or aborted.
#![tactic(auto)]

mod build;
mod flow;
mod fresh;
mod laws;
mod node;
mod plans;
mod rows;
mod wires;

pub use dataflow::GraphFault;
pub use engines::{Keyed, Whole};
pub use flow::FlowGraph;
pub use laws::law_work;
pub use node::{Node, NodeOf};
pub use std::alloc::AllocError as Memory;
