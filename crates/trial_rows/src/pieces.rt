//! Items and runs of operators on rows of two numbers.
ghost use Rattle.std.specs.Prelude.{◌≡◌, ◌≤◌, IfOk, true};
ghost use Rattle.std.specs.List.{list_all};
ghost use Rattle.op_linear.specs.Many.{items_have_kinds};
ghost use Rattle.plan_model.specs.Limits.{is_item, is_run};
ghost use Rattle.plan_model.specs.Pieces.{piece_count};
ghost use Rattle.trial_rows.specs.Columns.{two_ints};

use crate::only_second_column;
use frac_core::Frac;
use plan_model::{Item, Items, Run, Runs};
use std::alloc::Global;
use weighted_set::Memory;

/// Two pieces of 1.
pub fn two_pieces(alloc: Global) -> Result<Runs, Memory>
    ensures runs { IfOk result (λ runs. list_all is_run runs ≡ true) }
    ensures few { IfOk result (λ runs. piece_count runs ≤ 4096) }
{
    let mut list = Vec::new(alloc);
    list.push(Run {
        weight: Frac::one(),
        times: 2,
    })?;
    Ok(Runs::from_vec(list))
}

/// One item that gives the second number of a row, with the weight 3.
pub fn one_item(alloc: Global) -> Result<Items, Memory>
    ensures kinds { IfOk result (λ items. items_have_kinds two_ints items ≡ true) }
    ensures items { IfOk result (λ items. list_all is_item items ≡ true) }
{
    let row = only_second_column(alloc)?;
    let mut list = Vec::new(alloc);
    list.push(Item {
        weight: 3,
        guard: None,
        row,
    })?;
    Ok(Items::from_vec(list))
}
