//! The checks of plans: which plans are accepted for some sources, and the first fault of the others.
//!
//! What acceptance is, is defined in `plan_model`. Here it is decided step by step, and for an accepted plan the
//! columns, the sign and the uses of its sources are told.
#![tactic(auto)]

mod checked;
mod checks;
mod columns;
mod counts;
mod exprs;
mod items;
mod made;
mod places;
mod walk;

pub use checked::Checked;
pub use columns::columns_of;
pub use places::place_of;
pub use record_text::Memory;
pub use walk::{PlanFault, check};
