//! The items of a step over some columns.
ghost use Rattle.std.specs.Prelude.{◌≡◌, ◌++◌, IsTrue, Some, option_to_list, slice_get, true};
ghost use Rattle.std.specs.List.{list_all};
ghost use Rattle.plan_model.specs.Acceptance.{are_ints, guards, have_columns, item_exprs};
ghost use Rattle.plan_model.specs.Types.{first_row, kinds_over};
ghost use Rattle.plan_model.specs.Limits.{is_guard, is_item};
ghost use Rattle.plan_checker.specs.Steps.{row_has_kinds, rows_have_kinds};

use crate::exprs::{expr_has_columns, have_columns, have_kinds, is_int, kinds_over};
use plan_model::{Expr, Item, Items};
use record_text::Kinds;

// Every column that a guard reads is below the width.
fn guard_has_columns(cols: Kinds, guard: &Option<Expr>) -> bool
    requires { IsTrue (is_guard guard.now) }
    ensures { result ≡ have_columns cols (option_to_list guard.now) }
{
    match guard {
        Some(test) => expr_has_columns(cols, test),
        None => true,
    }
}

// Every column that an item reads is below the width.
fn item_has_columns(cols: Kinds, item: &Item) -> bool
    requires { IsTrue (is_item item.now) }
    ensures { result ≡ have_columns cols (option_to_list item.now.guard ++ item.now.row) }
{
    guard_has_columns(cols, &item.guard) && have_columns(cols, &item.row)
}

// Every column that the items read is below the width.
pub(crate) fn items_have_columns(cols: Kinds, items: &Items) -> bool
    requires { IsTrue (list_all is_item items.now) }
    ensures { result ≡ have_columns cols (item_exprs items.now) }
{
    for i in 0..items.len() {
        if !item_has_columns(cols, items.at(i)) {
            return false;
        }
    }
    true
}

// A guard is an Int.
fn guard_is_int(cols: Kinds, guard: &Option<Expr>) -> bool
    requires guard { IsTrue (is_guard guard.now) }
    requires columns { have_columns cols (option_to_list guard.now) ≡ true }
    ensures { result ≡ are_ints cols (option_to_list guard.now) }
{
    match guard {
        Some(test) => is_int(cols, test),
        None => true,
    }
}

// The guards of the items are Ints.
pub(crate) fn guards_are_ints(cols: Kinds, items: &Items) -> bool
    requires items { IsTrue (list_all is_item items.now) }
    requires columns { have_columns cols (item_exprs items.now) ≡ true }
    ensures { result ≡ are_ints cols (guards items.now) }
{
    for i in 0..items.len() {
        if !guard_is_int(cols, &items.at(i).guard) {
            return false;
        }
    }
    true
}

// The row of an item has kinds, which are these.
fn row_has_kinds(cols: Kinds, first: Kinds, item: &Item) -> bool
    requires item { IsTrue (is_item item.now) }
    requires columns { have_columns cols item.now.row ≡ true }
    ensures { result ≡ row_has_kinds cols first item.now }
{
    have_kinds(cols, &item.row) && first == kinds_over(cols, &item.row)
}

// The rows of the items have kinds, those of the first item's row.
pub(crate) fn rows_have_kinds(cols: Kinds, items: &Items) -> bool
    requires items { IsTrue (list_all is_item items.now) }
    requires columns { have_columns cols (item_exprs items.now) ≡ true }
    ensures { result ≡ rows_have_kinds cols items.now }
{
    let first = first_kinds(cols, items);
    for i in 0..items.len() {
        if !row_has_kinds(cols, first, items.at(i)) {
            return false;
        }
    }
    true
}

// The first item.
pub(crate) fn first_item(items: &Items) -> &Item
    ensures { slice_get items.now 0 ≡ Some result.now }
{
    // Tells that there is an item.
    let _len = items.len();
    items.at(0)
}

// The kinds of the first item's row.
pub(crate) fn first_kinds(cols: Kinds, items: &Items) -> Kinds
    requires items { IsTrue (list_all is_item items.now) }
    requires columns { have_columns cols (item_exprs items.now) ≡ true }
    ensures { result ≡ kinds_over cols (first_row items.now) }
{
    kinds_over(cols, &first_item(items).row)
}
