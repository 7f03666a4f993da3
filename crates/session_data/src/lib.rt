//! What a session holds: the sources, whose rows change in two steps, and the plans over them, which are kept up to
//! date. What is done with them on a request is the affair of `session_core`.
#![tactic(auto)]

mod plans;
mod sources;

pub use plans::{Planned, PlansFault, abort_all, commit_all, prepare_all};
pub use sources::{MAX_SOURCES, Sources};
