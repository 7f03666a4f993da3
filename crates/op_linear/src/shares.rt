//! The rows that items make of a row, with their factors.
ghost use Rattle.std.specs.Prelude.{◌≡◌, ◌+◌, ◌<◌, ◌≤◌, ◌^◌, [], IfOk, IsTrue, OnOk, option_to_list, pos};
ghost use Rattle.std.specs.List.{list_all};
ghost use Rattle.std.specs.Map.{keys_of};
ghost use Rattle.datasets.specs.Entries.{AreRising, Row};
ghost use Rattle.plan_model.specs.Acceptance.{are_ints, have_kinds};
ghost use Rattle.plan_model.specs.Evaluation.{giving, guarded};
ghost use Rattle.plan_model.specs.Limits.{is_item};
ghost use Rattle.ratios.specs.Ratio.{ratio};
ghost use Rattle.record_text.specs.KindLists.{kinds_of};
ghost use Rattle.weighted_set.specs.Changes.{entries_of};
ghost use Rattle.op_parts.specs.Appended.{Appends};
ghost use Rattle.op_linear.specs.Many.{items_have_kinds};
ghost use Rattle.operators.specs.Keys.{shares as row_shares};
ghost use Rattle.op_linear.specs.Shares.{AddsItem, AddsWeight, AreAboveZero, divided, giving_of, sum_at, weight_on};

use frac_core::Frac;
use op_parts::{made_row, passes};
use plan_model::{Expr, Item, Items};
use record_text::Row;
use std::alloc::Global;
use std::collections::BTreeMap;
use weighted_set::{Memory, Weighted};

// Whether an item with this guard applies to a row.
fn applies(alloc: Global, guard: &Option<Expr>, row: &Row) -> Result<bool, Memory>
    requires { IsTrue (are_ints (kinds_of row.now) (option_to_list guard.now)) }
    ensures { IfOk result (λ applies. applies ≡ guarded guard.now row.now) }
{
    match guard {
        Some(test) => passes(alloc, test, row),
        None => Ok(true),
    }
}

// Adds to the weight of a row.
fn add_weight(sums: &mut BTreeMap<Row, u32>, row: Row, weight: u32) -> Result<(), Memory>
    requires some { 0 < weight }
    requires room { sum_at sums.old.entries row + weight < 2 ^ 32 }
    ensures sums { OnOk result (AddsWeight row weight sums.old.entries sums.new.entries) }
    ensures above_zero { OnOk result (AreAboveZero sums.old.entries → AreAboveZero sums.new.entries) }
{
    let sum = match sums.get(&row) {
        Some(sum) => *sum,
        None => 0,
    };
    sums.insert(row, sum + weight)?;
    Ok(())
}

// Adds the weight of an item to that of the row that it makes of a row, where it applies, and answers the
// weight added.
fn add_item(
    alloc: Global,
    item: &Item,
    row: &Row,
    sums: &mut BTreeMap<Row, u32>,
) -> Result<u32, Memory>
    requires guard { IsTrue (are_ints (kinds_of row.now) (option_to_list item.now.guard)) }
    requires kinds { IsTrue (have_kinds (kinds_of row.now) item.now.row) }
    requires room { (z : Row) → sum_at sums.old.entries z + item.now.weight < 2 ^ 32 }
    ensures weight { IfOk result (λ weight. weight ≡ weight_on (giving_of item.now) row.now) }
    ensures sums { OnOk result (AddsItem (giving_of item.now) row.now sums.old.entries sums.new.entries) }
    ensures above_zero { OnOk result (AreAboveZero sums.old.entries → AreAboveZero sums.new.entries) }
{
    if item.weight == 0 {
        return Ok(0);
    }
    if !applies(alloc, &item.guard, row)? {
        return Ok(0);
    }
    let made = made_row(alloc, &item.row, row)?;
    add_weight(sums, made, item.weight)?;
    Ok(item.weight)
}

// A part of a whole.
fn share(weight: u32, divisor: u32) -> Frac
    requires { 0 < divisor }
    ensures { result ≡ ratio (pos weight) (pos divisor) }
{
    match Frac::new(i64::from(weight), i64::from(divisor)) {
        Ok(share) => share,
        Err(_) => unreachable!(),
    }
}

// Lists rows in order, each with its weight divided.
fn push_shares(
    sums: BTreeMap<Row, u32>,
    divisor: u32,
    into: &mut Vec<Weighted>,
) -> Result<(), Memory>
    requires { 0 < divisor }
    ensures ok { OnOk result (Appends into.old.items (divided divisor sums.entries) into.new.items) }
    ensures rising { AreRising (keys_of sums.entries) }
{
    // Tells that the rows are in order.
    let _len = sums.len();
    for (row, weight) in sums {
        into.push(Weighted {
            row,
            weight: share(weight, divisor),
        })?;
    }
    Ok(())
}

/// Lists the rows that items make of a row in row order, each with its factor.
pub fn list_shares(
    alloc: Global,
    over: u32,
    items: &Items,
    row: &Row,
    into: &mut Vec<Weighted>,
) -> Result<(), Memory>
    requires some { 0 < over }
    requires limits { IsTrue (list_all is_item items.now) }
    requires kinds { IsTrue (items_have_kinds (kinds_of row.now) items.now) }
    requires empty { into.old.items ≡ [] }
    ensures { OnOk result (entries_of into.new.items ≡ (row_shares over (giving items.now) row.now).entries) }
{
    let mut sums = BTreeMap::new(alloc);
    let mut total: u32 = 0;
    for at in 0..items.len() {
        total += add_item(alloc, items.at(at), row, &mut sums)?;
    }
    push_shares(sums, over.max(total), into)
}
