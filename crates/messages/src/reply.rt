//! What a request is answered.

use crate::lists::{Uses, Weights, Wides};
use crate::refusal::Refusal;
use frac_core::Frac;
use record_text::Kinds;

/// What a request is answered.
#[derive(Drop)]
pub enum Reply {
    /// It is done.
    Done,
    /// The sum that was asked for.
    SumOf { sum: Frac },
    /// So many records were added; the header isn't counted.
    Records { count: u64 },
    /// The plan is accepted, with these columns. The sources that it uses, in order of declaration, stand with
    /// the number of their uses.
    Planned { cols: Kinds, uses: Uses },
    /// The values of the rows that were measured, in their order: the floor of a row's weight times 2^20, with its
    /// noise added. The sources that were charged, in order of declaration, stand with the amount in millionths of
    /// epsilon.
    Values { charged: Uses, values: Wides },
    /// The weights of the rows that were looked up, in their order.
    Weights { weights: Weights },
    /// A source's budget, in millionths of epsilon: what is left of it, what is spent and the total.
    Budget { left: u64, spent: u64, total: u64 },
    /// The request is refused.
    Refused(Refusal),
}
