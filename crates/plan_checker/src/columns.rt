//! The columns and the sign of a step, from those of the steps before.
ghost use Rattle.std.specs.Prelude.{◌≡◌, ◌<◌, ◌≤◌, ◌+◌, ◌++◌, ◌∷◌, [], IsTrue, length, slice_get, true};
ghost use Rattle.plan_model.specs.Acceptance.{is_narrow, knows_source, step_has_columns};
ghost use Rattle.plan_model.specs.Limits.{is_step};
ghost use Rattle.plan_model.specs.Sizes.{max_width};
ghost use Rattle.plan_model.specs.Types.{columns_step, reducer_kind, set_sign, sign_step};
ghost use Rattle.plan_checker.specs.Steps.{reducer_has_columns};

use crate::exprs::{MAX_WIDTH, kinds_over};
use crate::items::first_kinds;
use crate::places::source_named;
use plan_model::{Reducer, SetKind, SourceTypes, Step};
use record_text::{Kind, Kinds};

// The kind at a place of both, one list after the other.
fn at_either(left: Kinds, right: Kinds, i: usize) -> Kind
    requires { i < length left + length right }
    ensures { slice_get (left ++ right) i ≡ Some result }
{
    let width = left.len();
    if i < width {
        left.at(i)
    } else {
        right.at(i - width)
    }
}

// The columns of both, one list after the other.
fn appended(left: Kinds, right: Kinds) -> Kinds
    requires { length left + length right ≤ max_width }
    ensures { result ≡ left ++ right }
{
    let mut kinds = [Kind::Int; MAX_WIDTH];
    let width = left.len() + right.len();
    for i in 0..width {
        kinds[i] = at_either(left, right, i);
    }
    Kinds::from_slice(&kinds[..width])
}

// The columns and one more.
fn with_one_more(cols: Kinds, kind: Kind) -> Kinds
    requires { length cols < max_width }
    ensures { result ≡ cols ++ kind ∷ [] }
{
    appended(cols, Kinds::from_slice(&[kind]))
}

// The kind of what a reducer answers.
fn reducer_kind(cols: Kinds, reduce: Reducer) -> Kind
    requires { reducer_has_columns cols reduce ≡ true }
    ensures { result ≡ reducer_kind cols reduce }
{
    match reduce {
        Reducer::Count | Reducer::Sum(_) => Kind::Int,
        Reducer::Min(c) | Reducer::Max(c) => cols.at(c as usize),
    }
}

/// The columns of a step that passes its checks, from those of the steps before.
pub fn columns_of(types: &SourceTypes, step: &Step, columns: &[Kinds]) -> Kinds
    requires step { IsTrue (is_step (length columns.now) step.now) }
    requires known { knows_source types.now step.now ≡ true }
    requires columns { step_has_columns types.now step.now columns.now ≡ true }
    requires narrow { is_narrow types.now step.now columns.now ≡ true }
    ensures { result ≡ columns_step types.now step.now columns.now }
{
    match step {
        Step::Source { name } => match source_named(name, types) {
            Some(source) => source.kinds,
            None => unreachable!(),
        },
        Step::Filter { of, .. } => columns[*of],
        Step::Select { of, row } => kinds_over(columns[*of], row),
        Step::Many { of, items, .. } => first_kinds(columns[*of], items),
        Step::Shave { of, .. } => with_one_more(columns[*of], Kind::Int),
        Step::Set { left, .. } => columns[*left],
        Step::Join { left, right, .. } => appended(columns[*left], columns[*right]),
        Step::Group { of, key, reduce } => {
            let cols = columns[*of];
            with_one_more(kinds_over(cols, key), reducer_kind(cols, *reduce))
        }
    }
}

// Whether what a set operator gives may be negative.
fn set_sign(kind: SetKind, left: bool, right: bool) -> bool
    ensures { result ≡ set_sign kind left right }
{
    match kind {
        SetKind::Union => left && right,
        SetKind::Intersect | SetKind::Concat => left || right,
        SetKind::Except => true,
    }
}

// Whether a weight of a step may be negative.
pub(crate) fn sign_of(types: &SourceTypes, step: &Step, signs: &[bool]) -> bool
    requires { IsTrue (is_step (length signs.now) step.now) }
    ensures { result ≡ sign_step types.now step.now signs.now }
{
    match step {
        Step::Source { name } => match source_named(name, types) {
            Some(source) => source.signed,
            None => true,
        },
        Step::Filter { of, .. } | Step::Select { of, .. } | Step::Many { of, .. } => signs[*of],
        Step::Shave { .. } | Step::Group { .. } => false,
        Step::Set { kind, left, right } => set_sign(*kind, signs[*left], signs[*right]),
        Step::Join { left, right, .. } => signs[*left] || signs[*right],
    }
}
