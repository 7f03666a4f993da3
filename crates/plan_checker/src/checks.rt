//! The checks of a step, over what was made of the steps before.
ghost use Rattle.std.specs.Prelude.{◌≡◌, IsTrue, length, true};
ghost use Rattle.plan_model.specs.Acceptance.{first_fault, is_narrow, knows_source, may_group, reducer_has_kind, step_has_columns, step_has_kinds};
ghost use Rattle.plan_model.specs.Limits.{is_step};
ghost use Rattle.plan_model.specs.Types.{columns_step};
ghost use Rattle.plan_checker.specs.Steps.{reducer_has_columns};

use crate::counts::Counts;
use crate::exprs::{MAX_WIDTH, expr_has_columns, have_columns, have_kinds, is_int, kinds_over};
use crate::items::{first_item, guards_are_ints, items_have_columns, rows_have_kinds};
use crate::places::{place_of, source_named};
use plan_model::{Reducer, SourceTypes, Step, What};
use record_text::{Kind, Kinds};

// A source step names a source.
fn knows_source(types: &SourceTypes, step: &Step) -> bool
    ensures { result ≡ knows_source types.now step.now }
{
    match step {
        Step::Source { name } => place_of(name, types).is_some(),
        _ => true,
    }
}

// The column that a reducer reads is below the width.
fn reducer_has_columns(cols: Kinds, reduce: Reducer) -> bool
    ensures { result ≡ reducer_has_columns cols reduce }
{
    match reduce {
        Reducer::Count => true,
        Reducer::Min(c) | Reducer::Max(c) | Reducer::Sum(c) => (c as usize) < cols.len(),
    }
}

// Every column that the step reads is below its input's width.
fn step_has_columns(types: &SourceTypes, step: &Step, columns: &[Kinds]) -> bool
    requires { IsTrue (is_step (length columns.now) step.now) }
    ensures { result ≡ step_has_columns types.now step.now columns.now }
{
    match step {
        Step::Source { .. } | Step::Shave { .. } | Step::Set { .. } => true,
        Step::Filter { of, test } => expr_has_columns(columns[*of], test),
        Step::Select { of, row } => have_columns(columns[*of], row),
        Step::Many { of, items, .. } => items_have_columns(columns[*of], items),
        Step::Join {
            left,
            right,
            left_key,
            right_key,
        } => have_columns(columns[*left], left_key) && have_columns(columns[*right], right_key),
        Step::Group { of, key, reduce } => {
            have_columns(columns[*of], key) && reducer_has_columns(columns[*of], *reduce)
        }
    }
}

// A sum is of an Int column.
fn reducer_has_kind(cols: Kinds, reduce: Reducer) -> bool
    requires { reducer_has_columns cols reduce ≡ true }
    ensures { result ≡ reducer_has_kind cols reduce }
{
    match reduce {
        Reducer::Count | Reducer::Min(_) | Reducer::Max(_) => true,
        Reducer::Sum(c) => match cols.at(c as usize) {
            Kind::Int => true,
            Kind::Text => false,
        },
    }
}

// The expressions of the step have kinds, and those that they have to have.
fn step_has_kinds(types: &SourceTypes, step: &Step, columns: &[Kinds]) -> bool
    requires step { IsTrue (is_step (length columns.now) step.now) }
    requires columns { step_has_columns types.now step.now columns.now ≡ true }
    ensures { result ≡ step_has_kinds types.now step.now columns.now }
{
    match step {
        Step::Source { .. } | Step::Shave { .. } => true,
        Step::Filter { of, test } => is_int(columns[*of], test),
        Step::Select { of, row } => have_kinds(columns[*of], row),
        Step::Many { of, items, .. } => {
            guards_are_ints(columns[*of], items) && rows_have_kinds(columns[*of], items)
        }
        Step::Set { left, right, .. } => columns[*left] == columns[*right],
        Step::Join {
            left,
            right,
            left_key,
            right_key,
        } => {
            let left = columns[*left];
            let right = columns[*right];
            have_kinds(left, left_key)
                && have_kinds(right, right_key)
                && kinds_over(left, left_key) == kinds_over(right, right_key)
        }
        Step::Group { of, key, reduce } => {
            have_kinds(columns[*of], key) && reducer_has_kind(columns[*of], *reduce)
        }
    }
}

// How many columns the step has.
fn width_of(types: &SourceTypes, step: &Step, columns: &[Kinds]) -> usize
    requires { IsTrue (is_step (length columns.now) step.now) }
    ensures { result ≡ length (columns_step types.now step.now columns.now) }
{
    match step {
        Step::Source { name } => match source_named(name, types) {
            Some(source) => source.kinds.len(),
            None => 0,
        },
        Step::Filter { of, .. } | Step::Set { left: of, .. } => columns[*of].len(),
        Step::Select { row, .. } => row.len(),
        Step::Many { items, .. } => first_item(items).row.len(),
        Step::Shave { of, .. } => columns[*of].len() + 1,
        Step::Join { left, right, .. } => columns[*left].len() + columns[*right].len(),
        Step::Group { key, .. } => key.len() + 1,
    }
}

// The step has no more columns than a row may have.
fn is_narrow(types: &SourceTypes, step: &Step, columns: &[Kinds]) -> bool
    requires { IsTrue (is_step (length columns.now) step.now) }
    ensures { result ≡ is_narrow types.now step.now columns.now }
{
    width_of(types, step, columns) <= MAX_WIDTH
}

// A group's input can't be negative.
fn may_group(types: &SourceTypes, step: &Step, signs: &[bool]) -> bool
    requires { IsTrue (is_step (length signs.now) step.now) }
    ensures { result ≡ may_group types.now step.now signs.now }
{
    match step {
        Step::Group { of, .. } => !signs[*of],
        _ => true,
    }
}

// The first fault of a step, in the order of the checks.
pub(crate) fn first_fault(
    types: &SourceTypes,
    step: &Step,
    columns: &[Kinds],
    signs: &[bool],
    counts: &Counts,
) -> Option<What>
    requires columns { IsTrue (is_step (length columns.now) step.now) }
    requires signs { IsTrue (is_step (length signs.now) step.now) }
    ensures { result ≡ first_fault types.now step.now columns.now signs.now counts.now }
{
    if !knows_source(types, step) {
        return Some(What::UnknownSource);
    }
    if !step_has_columns(types, step, columns) {
        return Some(What::Column);
    }
    if !step_has_kinds(types, step, columns) {
        return Some(What::Kind);
    }
    if !is_narrow(types, step, columns) {
        return Some(What::TooWide);
    }
    if !may_group(types, step, signs) {
        return Some(What::Negative);
    }
    if !counts.are_few() {
        return Some(What::UsesOver);
    }
    None
}
