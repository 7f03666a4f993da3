//! Tests of `plan_model`.
ghost use Rattle.std.specs.Prelude.{◌≡◌, ◌∷◌, [], IfOk, IfSome, IsTrue};
ghost use Rattle.record_text.specs.KindLists.{kind_of, kinds_of};
ghost use Rattle.plan_model.specs.Limits.{is_plan};
ghost use Rattle.plan_model.specs.Values.{has_places, term_of};

use frac_core::Frac;
use plan_model::{
    Expr, ExprFault, Exprs, Item, Items, Memory, Plan, Run, Runs, SetKind, SourceType, SourceTypes,
    Step,
};
use record_text::{Atom, Kind, Kinds, Name, Row, ShortText};
use std::alloc::Global;
use std::test::Fail;
use trial_plans::{plan, with_test};

// The plan of a source and its rows that pass a test.
fn tested(alloc: Global, test: &str) -> Result<Plan, Fail> {
    let text = with_test(alloc, test)?;
    plan(alloc, text.as_str())
}

// The test of such a plan.
fn test_of(plan: &Plan) -> Option<&Expr>
    ensures { IfSome result (λ test. IsTrue (has_places (term_of test.now))) }
{
    if plan.len() < 2 {
        return None;
    }
    match plan.step(1) {
        Step::Filter { test, .. } => Some(test),
        _ => None,
    }
}

// The kind of an expression over rows of these columns.
fn kind_of(
    alloc: Global,
    expr: &str,
    cols: Kinds,
) -> Result<Option<Result<Kind, ExprFault>>, Fail> {
    let plan = tested(alloc, expr)?;
    match test_of(&plan) {
        Some(expr) => Ok(Some(expr.kind(cols))),
        None => Ok(None),
    }
}

type KindRow = (&'static str, Result<Kind, ExprFault>);

// The first expression whose kind over rows of these columns isn't the one beside it.
fn first_other_kind(
    alloc: Global,
    cols: Kinds,
    rows: &[KindRow],
) -> Result<Option<&'static str>, Fail> {
    for (expr, expected) in rows {
        if kind_of(alloc, expr, cols)? != Some(*expected) {
            return Ok(Some(*expr));
        }
    }
    Ok(None)
}

#[test]
fn gives_kinds_and_the_first_fault(rt: HostRuntime) -> Result<(), Fail> {
    let cols = Kinds::from_slice(&[Kind::Int, Kind::Text]);
    let rows = [
        ("{\"col\":1}", Ok(Kind::Text)),
        ("{\"col\":2}", Err(ExprFault::Column)),
        ("{\"int\":9}", Ok(Kind::Int)),
        ("{\"call\":\"len\",\"args\":[{\"col\":1}]}", Ok(Kind::Int)),
        (
            "{\"call\":\"len\",\"args\":[{\"col\":0}]}",
            Err(ExprFault::Kind),
        ),
        (
            "{\"call\":\"add\",\"args\":[{\"col\":0},{\"int\":1}]}",
            Ok(Kind::Int),
        ),
        (
            "{\"call\":\"add\",\"args\":[{\"col\":1},{\"int\":1}]}",
            Err(ExprFault::Kind),
        ),
        (
            "{\"call\":\"add\",\"args\":[{\"col\":1},{\"col\":2}]}",
            Err(ExprFault::Column),
        ),
        (
            "{\"call\":\"part\",\"args\":[{\"col\":1},{\"int\":0},{\"int\":1}]}",
            Ok(Kind::Text),
        ),
        (
            "{\"call\":\"part\",\"args\":[{\"col\":0},{\"int\":0},{\"int\":1}]}",
            Err(ExprFault::Kind),
        ),
    ];
    assert_eq!(rt; first_other_kind(rt.alloc(), cols, &rows)?, None);
    Ok(())
}

fn row_of(alloc: Global, atom: Atom) -> Result<Row, Memory>
    ensures { IfOk result (λ row. kinds_of row ≡ kind_of atom ∷ []) }
{
    let mut atoms = Vec::new(alloc);
    atoms.push(atom)?;
    Ok(Row::from_atoms(atoms))
}

// The value of an expression on a row of one atom, if it has one.
fn value_of(alloc: Global, expr: &Expr, atom: Atom) -> Result<Option<Atom>, Memory>
    requires { IsTrue (has_places (term_of expr.now)) }
{
    let cols = Kinds::from_slice(&[atom.kind()]);
    let row = row_of(alloc, atom)?;
    match expr.kind(cols) {
        Ok(_) => Ok(Some(expr.eval(alloc, &row)?)),
        Err(_) => Ok(None),
    }
}

// The value of an expression on a row of one atom.
fn value_at(alloc: Global, expr: &str, atom: Atom) -> Result<Option<Atom>, Fail> {
    let plan = tested(alloc, expr)?;
    match test_of(&plan) {
        Some(expr) => Ok(value_of(alloc, expr, atom)?),
        None => Ok(None),
    }
}

// The value of a copy of an expression on a row of one atom.
fn value_of_copy_at(alloc: Global, expr: &str, atom: Atom) -> Result<Option<Atom>, Fail> {
    let plan = tested(alloc, expr)?;
    match test_of(&plan) {
        Some(expr) => {
            let copy = expr.try_copy(alloc)?;
            Ok(value_of(alloc, &copy, atom)?)
        }
        None => Ok(None),
    }
}

const ODD: &str = "{\"call\":\"mod\",\"args\":[{\"col\":0},{\"int\":2}]}";

#[test]
fn evaluates_numbers(rt: HostRuntime) -> Result<(), Fail> {
    for (number, expected) in [(1, 1), (2, 0), (3, 1)] {
        let value = value_at(rt.alloc(), ODD, Atom::Int(number))?;
        assert!(rt; value == Some(Atom::Int(expected)));
    }
    Ok(())
}

#[test]
fn evaluates_a_copy(rt: HostRuntime) -> Result<(), Fail> {
    let value = value_of_copy_at(rt.alloc(), ODD, Atom::Int(-3))?;
    assert!(rt; value == Some(Atom::Int(1)));
    Ok(())
}

#[test]
fn evaluates_a_text(rt: HostRuntime) -> Result<(), Fail> {
    let second = "{\"call\":\"part\",\"args\":[{\"col\":0},{\"int\":1},{\"int\":1}]}";
    let name = Atom::Text(ShortText::new(rt.alloc(), "Åsa")?);
    let letter = Atom::Text(ShortText::new(rt.alloc(), "s")?);
    let value = value_at(rt.alloc(), second, name)?;
    assert!(rt; value == Some(letter));
    Ok(())
}

fn two_columns(alloc: Global) -> Result<Exprs, Memory> {
    let mut list = Vec::new(alloc);
    list.push(Expr::Col(3))?;
    list.push(Expr::Col(5))?;
    Ok(Exprs::from_vec(list))
}

fn one_item(alloc: Global, row: Exprs) -> Result<Items, Memory> {
    let mut list = Vec::new(alloc);
    list.push(Item {
        weight: 3,
        guard: None,
        row,
    })?;
    Ok(Items::from_vec(list))
}

fn most_pieces(alloc: Global) -> Result<Runs, Memory> {
    let mut list = Vec::new(alloc);
    list.push(Run {
        weight: Frac::one(),
        times: 4096,
    })?;
    Ok(Runs::from_vec(list))
}

#[test]
fn holds_expressions_and_items(rt: HostRuntime) -> Result<(), Fail> {
    let row = two_columns(rt.alloc())?;
    assert!(rt; row.len() == 2 && matches!(row.at(1), Expr::Col(5)));
    let copy = row.try_copy(rt.alloc())?;
    let items = one_item(rt.alloc(), copy)?;
    assert!(rt; items.len() == 1 && items.at(0).weight == 3);
    Ok(())
}

#[test]
fn holds_runs(rt: HostRuntime) -> Result<(), Fail> {
    let runs = most_pieces(rt.alloc())?;
    assert!(rt; runs.len() == 1 && runs.at(0).times == 4096);
    Ok(())
}

fn steps_of(alloc: Global, name: Name) -> Result<Vec<Step>, Memory>
    ensures { IfOk result (λ steps. IsTrue (is_plan steps.items)) }
{
    let mut steps = Vec::new(alloc);
    steps.push(Step::Source { name })?;
    steps.push(Step::Set {
        kind: SetKind::Union,
        left: 0,
        right: 0,
    })?;
    Ok(steps)
}

#[test]
fn holds_steps_of_a_plan(rt: HostRuntime) -> Result<(), Fail> {
    let name = Name::read(b"people").ok_or("no name")?;
    let plan = Plan::from_steps(steps_of(rt.alloc(), name)?);
    assert!(rt; plan.len() == 2);
    assert!(rt; matches!(plan.step(1), Step::Set { left: 0, .. }));
    Ok(())
}

#[test]
fn copies_a_plan(rt: HostRuntime) -> Result<(), Fail> {
    let name = Name::read(b"people").ok_or("no name")?;
    let plan = Plan::from_steps(steps_of(rt.alloc(), name)?);
    let copy = plan.try_copy(rt.alloc())?;
    assert!(rt; copy.len() == 2);
    let step = copy.step(1).try_copy(rt.alloc())?;
    assert!(rt; step.left() == Some(0) && step.right() == Some(0));
    Ok(())
}

#[test]
fn adds_and_drops_source_types(rt: HostRuntime) -> Result<(), Fail> {
    let name = Name::read(b"people").ok_or("no name")?;
    let kinds = Kinds::from_slice(&[Kind::Int]);
    let mut types = SourceTypes::new(rt.alloc());
    types.push(SourceType {
        name,
        kinds,
        signed: true,
    })?;
    assert!(rt; types.len() == 1 && types.at(0).name == name && types.at(0).signed);
    let copy = types.try_copy(rt.alloc())?;
    assert!(rt; copy.len() == 1 && copy.at(0).name == name);
    types.drop_last();
    assert!(rt; types.len() == 0);
    Ok(())
}
