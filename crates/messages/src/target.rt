//! What rows are looked up in.

use record_text::Name;

/// What rows are looked up in.
#[derive(Clone, Copy)]
pub enum Target {
    /// The source of this name.
    Source(Name),
    /// The output of the plan of this name.
    Plan(Name),
}
