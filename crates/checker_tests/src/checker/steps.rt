//! Plans and source types for tests.
ghost use Rattle.std.specs.Prelude.{◌≡◌, ◌+◌, ◌<◌, ◌≤◌, ℕ, IfOk, IsTrue, OnOk, length};
ghost use Rattle.std.specs.List.{list_all};
ghost use Rattle.plan_model.specs.Limits.{are_exprs, are_steps, has_sizes, has_width, is_item, is_run, is_size, is_step};
ghost use Rattle.plan_model.specs.Pieces.{piece_count};
ghost use Rattle.plan_model.specs.Sizes.{max_items, max_pieces};

use frac_core::Frac;
use plan_checker::place_of;
use plan_model::{
    Expr, Exprs, Item, Items, Memory, Plan, Reducer, Run, Runs, SetKind, SourceType, SourceTypes,
    Step,
};
use record_text::{Kinds, Name};
use std::alloc::Global;
use std::test::Fail;

/// A step as a test writes it. Each but a source is of the step before.
#[derive(Clone, Copy)]
pub(super) enum Written {
    /// The source of a name.
    Source(&'static str),
    /// The rows at which a column isn't 0.
    Filter(u8),
    /// A column and those after it, so many together.
    Select(u8, u8),
    /// The rows of one column, and the rows of another one.
    Many(u8, u8),
    /// Three pieces of one.
    Shave,
    /// A set operator on the two steps before.
    Set(SetKind),
    /// The step before added to itself.
    Twice,
    /// The pairs of rows that agree in their first columns.
    Join,
    /// Grouped by the first columns, so many.
    Group(u8, Reducer),
}

// The rows of a column and those after it, so many together.
fn row(alloc: Global, first: u8, count: u8) -> Result<Exprs, Fail>
    ensures limits { IfOk result (λ row. IsTrue (are_exprs row)) }
    ensures width { IfOk result (λ row. IsTrue (has_width row)) }
{
    if count == 0 || count > 16 {
        return Err(Fail::from("no row"));
    }
    let mut list = Vec::new(alloc);
    for i in 0..count {
        list.push(Expr::Col(first.saturating_add(i)))?;
    }
    Ok(Exprs::from_vec(list))
}

fn item(row: Exprs) -> Item
    requires limits { IsTrue (are_exprs row) }
    requires width { IsTrue (has_width row) }
    ensures limits { IsTrue (is_item result) }
    ensures width { IsTrue (has_width result.row) }
{
    Item {
        weight: 1,
        guard: None,
        row,
    }
}

// The rows of one column, and the rows of another one.
fn items(alloc: Global, first: u8, second: u8) -> Result<Items, Fail>
    ensures limits { IfOk result (λ items. IsTrue (list_all is_item items)) }
    ensures count { IfOk result (λ items. IsTrue (is_size max_items (length items))) }
    ensures widths { IfOk result (λ items. IsTrue (list_all (λ i. has_width i.row) items)) }
{
    let mut list = Vec::new(alloc);
    list.push(item(row(alloc, first, 1)?))?;
    list.push(item(row(alloc, second, 1)?))?;
    Ok(Items::from_vec(list))
}

fn whole_pieces() -> Run
    ensures run { IsTrue (is_run result) }
    ensures times { result.times ≡ 3 }
{
    Run {
        weight: Frac::one(),
        times: 3,
    }
}

fn runs(alloc: Global) -> Result<Runs, Memory>
    ensures limits { IfOk result (λ runs. IsTrue (list_all is_run runs)) }
    ensures some { IfOk result (λ runs. 0 < length runs) }
    ensures few { IfOk result (λ runs. piece_count runs ≤ max_pieces) }
{
    let mut list = Vec::new(alloc);
    list.push(whole_pieces())?;
    Ok(Runs::from_vec(list))
}

fn source(name: &str) -> Result<Step, Fail>
    ensures limits { IfOk result (λ step. (at : ℕ) → IsTrue (is_step at step)) }
    ensures sizes { IfOk result (λ step. IsTrue (has_sizes step)) }
{
    let name = Name::read(name.as_bytes()).ok_or("no name")?;
    Ok(Step::Source { name })
}

fn many(alloc: Global, of: usize, first: u8, second: u8) -> Result<Step, Fail>
    ensures limits { IfOk result (λ step. (at : ℕ) → of < at → IsTrue (is_step at step)) }
    ensures sizes { IfOk result (λ step. IsTrue (has_sizes step)) }
{
    let items = items(alloc, first, second)?;
    Ok(Step::Many { of, over: 2, items })
}

fn join(alloc: Global, of: usize) -> Result<Step, Fail>
    ensures limits { IfOk result (λ step. (at : ℕ) → of < at → IsTrue (is_step at step)) }
    ensures sizes { IfOk result (λ step. IsTrue (has_sizes step)) }
{
    Ok(Step::Join {
        left: of,
        right: of,
        left_key: row(alloc, 0, 1)?,
        right_key: row(alloc, 0, 1)?,
    })
}

fn set(kind: SetKind, left: usize, right: usize) -> Step
    ensures limits { (at : ℕ) → left < at → right < at → IsTrue (is_step at result) }
    ensures sizes { IsTrue (has_sizes result) }
{
    Step::Set { kind, left, right }
}

// The step, where `of` is the place of the step before.
fn step_over(alloc: Global, of: usize, step: Written) -> Result<Step, Fail>
    ensures limits { IfOk result (λ step. (at : ℕ) → of < at → IsTrue (is_step at step)) }
    ensures sizes { IfOk result (λ step. IsTrue (has_sizes step)) }
{
    match step {
        Written::Source(name) => source(name),
        Written::Filter(column) => Ok(Step::Filter {
            of,
            test: Expr::Col(column),
        }),
        Written::Select(first, count) => Ok(Step::Select {
            of,
            row: row(alloc, first, count)?,
        }),
        Written::Many(first, second) => many(alloc, of, first, second),
        Written::Shave => Ok(Step::Shave {
            of,
            runs: runs(alloc)?,
        }),
        Written::Set(kind) => Ok(set(kind, of.saturating_sub(1), of)),
        Written::Twice => Ok(set(SetKind::Concat, of, of)),
        Written::Join => join(alloc, of),
        Written::Group(count, reduce) => Ok(Step::Group {
            of,
            key: row(alloc, 0, count)?,
            reduce,
        }),
    }
}

fn add(steps: &mut Vec<Step>, step: Step) -> Result<(), Memory>
    requires steps { IsTrue (are_steps 0 steps.old.items) }
    requires step { IsTrue (is_step (length steps.old.items) step) }
    requires sizes { IsTrue (list_all has_sizes steps.old.items) }
    requires size { IsTrue (has_sizes step) }
    ensures steps { OnOk result (IsTrue (are_steps 0 steps.new.items)) }
    ensures sizes { OnOk result (IsTrue (list_all has_sizes steps.new.items)) }
    ensures len { OnOk result (length steps.new.items ≡ length steps.old.items + 1) }
{
    steps.push(step)?;
    Ok(())
}

/// The plan of a source and these steps.
pub(super) fn plan_of(alloc: Global, name: &str, rest: &[Written]) -> Result<Plan, Fail> {
    if rest.len() > 63 {
        return Err(Fail::from("no plan"));
    }
    let mut steps = Vec::new(alloc);
    add(&mut steps, source(name)?)?;
    for (of, step) in rest.iter().enumerate() {
        add(&mut steps, step_over(alloc, of, *step)?)?;
    }
    Ok(Plan::from_steps(steps))
}

/// Declares a source of a new name.
pub(super) fn declare(
    types: &mut SourceTypes,
    name: &str,
    kinds: Kinds,
    signed: bool,
) -> Result<(), Fail> {
    let name = Name::read(name.as_bytes()).ok_or("no name")?;
    if place_of(&name, types).is_some() {
        return Err(Fail::from("no new name"));
    }
    types.push(SourceType {
        name,
        kinds,
        signed,
    })?;
    Ok(())
}
