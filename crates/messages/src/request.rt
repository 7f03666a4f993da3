//! What a line asks for.

use crate::lists::{Bytes, Rows, Weights};
use crate::target::Target;
use plan_model::Plan;
use record_text::{Kinds, Name};

/// A request that was read.
#[derive(Drop)]
pub enum Request {
    /// The sum of the weights.
    Sum {
        weights: Weights,
    },
    /// A new source with these columns, whose weights may be negative only where it is signed. Its budget
    /// is in millionths of epsilon, at most 10^15.
    Source {
        name: Name,
        kinds: Kinds,
        signed: bool,
        budget: u64,
    },
    /// Weights to be added to the source's rows, as a CSV text, with or without a header.
    Update {
        source: Name,
        csv: Bytes,
        header: bool,
    },
    /// Weights to be added to the source's rows, from the CSV text of the file at this path.
    Load {
        source: Name,
        path: Bytes,
        header: bool,
    },
    /// A new plan.
    Plan {
        name: Name,
        plan: Plan,
    },
    /// The plan of this name is to be taken out.
    Drop {
        plan: Name,
    },
    /// The weights of 1 to 1,024 rows in the plan's output, each with a number of noise. For each use of a source
    /// its budget is charged the epsilon, which is 1 to 1,000,000,000 millionths.
    Measure {
        plan: Name,
        rows: Rows,
        epsilon: u64,
    },
    /// The weights of 1 to 1,024 rows.
    Exact {
        of: Target,
        rows: Rows,
    },
    /// The budget of the source, and what is spent of it.
    Budget {
        source: Name,
    },
}
