//! The items of a step `many`, from a value and to a value.
ghost use Rattle.std.specs.Prelude.{◌≡◌, ◌<◌, ◌≤◌, IfOk, IsTrue, length, map, option_map};
ghost use Rattle.std.specs.List.{list_all};
ghost use Rattle.json_fields.specs.Walk.{each};
ghost use Rattle.serde_json.specs.View.{view};
ghost use Rattle.plan_model.specs.Limits.{is_item};
ghost use Rattle.plan_model.specs.Sizes.{max_items};
ghost use Rattle.expr_text.specs.Gives.{Gives};
ghost use Rattle.plan_reader.specs.Items.{guard_in, item_at, item_in, items_in};
ghost use Rattle.plan_reader.specs.Written.{ItemReadsAs, ItemsReadAs, guarded_item_data, item_data};

use crate::fields::{only_known, whole};
use expr_text::{
    Limit, Place, PlanText, expr, expr_to_json, exprs, exprs_to_json, list, over, shape,
};
use plan_model::{Expr, Item, Items, Memory};
use serde_json::{Value, json};
use std::alloc::Global;

/// The most items of a step.
const MAX_ITEMS: usize = 64;

/// The greatest weight of an item, and the greatest `over`.
pub const MAX_WEIGHT: u32 = 1_048_576;

/// The 1 to 64 items of a list.
#[tactic(auto, unfolding(crate::specs::Items::items_in))]
pub fn items(alloc: Global, place: Place, field: Option<&Value>) -> Result<Items, PlanText>
    ensures { Gives result (items_in place (option_map (λ v. view v.now) field.entry)) }
{
    let list = list(place, field)?;
    if list.len() > MAX_ITEMS {
        return over(place.step, Limit::Items);
    }
    all_items(alloc, place, list)
}

// The items of these values.
fn all_items(alloc: Global, place: Place, list: &[Value]) -> Result<Items, PlanText>
    requires some { 0 < length list.now }
    requires few { length list.now ≤ max_items }
    ensures { Gives result (each (item_at place) 0 (map view list.now)) }
{
    let mut items = Vec::with_capacity(alloc, list.len())?;
    for value in list {
        items.push(item(alloc, place, value)?)?;
    }
    Ok(Items::from_vec(items))
}

#[tactic(auto, unfolding(crate::specs::Items::item_in))]
fn item(alloc: Global, place: Place, value: &Value) -> Result<Item, PlanText>
    ensures { Gives result (item_in place (view value.now)) }
{
    let Some(members) = value.as_object() else {
        return shape(place);
    };
    let weight = whole(place, "weight", 0, MAX_WEIGHT, value)?;
    let guard = guard(alloc, place, value.get("if"))?;
    let row = exprs(alloc, place, value.get("row"))?;
    only_known(place, members, &["weight", "if", "row"])?;
    Ok(Item { weight, guard, row })
}

// The guard, which may be absent.
fn guard(alloc: Global, place: Place, field: Option<&Value>) -> Result<Option<Expr>, PlanText>
    ensures { Gives result (guard_in place (option_map (λ v. view v.now) field.entry)) }
{
    match field {
        Some(value) => Ok(Some(expr(alloc, place, value)?)),
        None => Ok(None),
    }
}

/// The items as a value that is read as that list.
pub fn items_to_json(alloc: Global, items: &Items) -> Result<Value, Memory>
    requires { IsTrue (list_all is_item items.now) }
    ensures { IfOk result (λ value. ItemsReadAs items.now (view value)) }
{
    let mut values = Vec::with_capacity(alloc, items.len())?;
    for i in 0..items.len() {
        values.push(item_to_json(alloc, items.at(i))?)?;
    }
    Ok(Value::from(values))
}

fn item_to_json(alloc: Global, item: &Item) -> Result<Value, Memory>
    requires { IsTrue (is_item item.now) }
    ensures { IfOk result (λ value. ItemReadsAs item.now (view value)) }
{
    let row = exprs_to_json(alloc, &item.row)?;
    match &item.guard {
        Some(guard) => {
            let guard = expr_to_json(alloc, guard)?;
            guarded_item_of(alloc, item.weight, guard, row)
        }
        None => item_of(alloc, item.weight, row),
    }
}

fn item_of(alloc: Global, weight: u32, row: Value) -> Result<Value, Memory>
    ensures { IfOk result (λ value. view value ≡ item_data weight (view row)) }
{
    json!(in alloc; {"row": row, "weight": weight})
}

fn guarded_item_of(alloc: Global, weight: u32, guard: Value, row: Value) -> Result<Value, Memory>
    ensures { IfOk result (λ value. view value ≡ guarded_item_data weight (view guard) (view row)) }
{
    json!(in alloc; {"if": guard, "row": row, "weight": weight})
}
