//! A part by falling weight.
ghost use Rattle.std.specs.Prelude.{IfOk};
ghost use Rattle.weighted_set.specs.Changes.{entries_of};
ghost use Rattle.level_walks.specs.Walks.{IsByWeight};
ghost use Rattle.op_groupby.specs.Group.{ordered};

use std::alloc::Global;
use weighted_set::{Memory, Weighted};

/// The rows of a part by falling weight.
pub fn by_falling_weight<'a>(
    alloc: Global,
    part: &'a [Weighted],
) -> Result<Vec<&'a Weighted>, Memory>
    ensures { IfOk result (λ order. IsByWeight (entries_of part.now) (ordered order.items)) }
{
    let mut order = Vec::with_capacity(alloc, part.len())?;
    for entry in part {
        order.push(entry)?;
    }
    order.sort_unstable_by(|a, b| b.weight.cmp(&a.weight));
    Ok(order)
}
