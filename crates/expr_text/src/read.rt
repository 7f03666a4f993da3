//! From a value to an expression.
ghost use Rattle.std.specs.Prelude.{◌≡◌, ◌<◌, ◌≤◌, IfOk, Ok, length, map, option_map};
ghost use Rattle.serde_json.specs.View.{view};
ghost use Rattle.plan_model.specs.Sizes.{max_width};
ghost use Rattle.json_fields.specs.Walk.{each};
ghost use Rattle.expr_text.specs.Gives.{Gives};
ghost use Rattle.expr_text.specs.Exprs.{expr_at, expr_in, exprs_in, member_in};

use crate::fault::{Limit, Place, PlanText, over, shape};
use crate::fields::list;
use crate::form::{Form, node};
use plan_model::{Expr, Exprs, Memory};
use record_text::{Atom, ShortText, TextFault};
use serde_json::Value;
use sqlite_items::Boxed;
use std::alloc::Global;

/// The most expressions of a list.
const MAX_WIDTH: usize = 16;

/// The deepest expression.
const MAX_DEPTH: usize = 16;

/// The most columns, constants and calls of an expression.
const MAX_NODES: usize = 256;

/// The expression that a value denotes, at most 16 deep and of at most 256 nodes.
pub fn expr(alloc: Global, place: Place, value: &Value) -> Result<Expr, PlanText>
    ensures { Gives result (expr_in place (view value.now)) }
{
    let (expr, _left) = expr_below(alloc, place, value, MAX_DEPTH, MAX_NODES)?;
    Ok(expr)
}

/// The 1 to 16 expressions of a list.
pub fn exprs(alloc: Global, place: Place, field: Option<&Value>) -> Result<Exprs, PlanText>
    ensures { Gives result (exprs_in place (option_map (λ v. view v.now) field.entry)) }
{
    let list = list(place, field)?;
    if list.len() > MAX_WIDTH {
        return over(place.step, Limit::Width);
    }
    all_exprs(alloc, place, list)
}

// The expressions of these values.
fn all_exprs(alloc: Global, place: Place, list: &[Value]) -> Result<Exprs, PlanText>
    requires some { 0 < length list.now }
    requires few { length list.now ≤ max_width }
    ensures { Gives result (each (member_in place) 0 (map view list.now)) }
{
    let mut exprs = Vec::with_capacity(alloc, list.len())?;
    for value in list {
        exprs.push(expr(alloc, place, value)?)?;
    }
    Ok(Exprs::from_vec(exprs))
}

// An expression at most so many levels deep and of at most so many nodes, and the nodes that are left.
#[tactic(auto, unfolding(crate::specs::Exprs::expr_at))]
fn expr_below(
    alloc: Global,
    place: Place,
    value: &Value,
    levels: usize,
    nodes: usize,
) -> Result<(Expr, usize), PlanText>
    ensures { Gives result (expr_at place levels nodes (view value.now)) }
{
    if levels == 0 {
        return over(place.step, Limit::Depth);
    }
    if nodes == 0 {
        return over(place.step, Limit::Nodes);
    }
    let Some(form) = node(value) else {
        return shape(place);
    };
    let left = nodes - 1;
    match form {
        Form::Col(column) => Ok((Expr::Col(column), left)),
        Form::Int(number) => Ok((Expr::Const(Atom::Int(number)), left)),
        Form::Text(text) => Ok((Expr::Const(text_atom(alloc, text)?), left)),
        Form::One(at, a) => {
            let (a, left) = expr_below(alloc, place, a, levels - 1, left)?;
            Ok((one_of(alloc, at, a)?, left))
        }
        Form::Two(at, a, b) => {
            let (a, left) = expr_below(alloc, place, a, levels - 1, left)?;
            let (b, left) = expr_below(alloc, place, b, levels - 1, left)?;
            Ok((two_of(alloc, at, a, b)?, left))
        }
        Form::Three(at, a, b, c) => {
            let (a, left) = expr_below(alloc, place, a, levels - 1, left)?;
            let (b, left) = expr_below(alloc, place, b, levels - 1, left)?;
            let (c, left) = expr_below(alloc, place, c, levels - 1, left)?;
            Ok((three_of(alloc, at, a, b, c)?, left))
        }
    }
}

fn one_of(alloc: Global, at: u8, a: Expr) -> Result<Expr, Memory>
    ensures { IfOk result (λ expr. expr ≡ Expr.One at a) }
{
    Ok(Expr::One(at, Boxed::new(alloc, a)?))
}

fn two_of(alloc: Global, at: u8, a: Expr, b: Expr) -> Result<Expr, Memory>
    ensures { IfOk result (λ expr. expr ≡ Expr.Two at a b) }
{
    let a = Boxed::new(alloc, a)?;
    let b = Boxed::new(alloc, b)?;
    Ok(Expr::Two(at, a, b))
}

fn three_of(alloc: Global, at: u8, a: Expr, b: Expr, c: Expr) -> Result<Expr, Memory>
    ensures { IfOk result (λ expr. expr ≡ Expr.Three at a b c) }
{
    let a = Boxed::new(alloc, a)?;
    let b = Boxed::new(alloc, b)?;
    let c = Boxed::new(alloc, c)?;
    Ok(Expr::Three(at, a, b, c))
}

// The atom of a text of at most 255 bytes.
fn text_atom(alloc: Global, text: &str) -> Result<Atom, PlanText>
    requires { length text.now ≤ 255 }
    ensures { Gives result (Ok (Atom.Text text.now)) }
{
    match ShortText::new(alloc, text) {
        Ok(text) => Ok(Atom::Text(text)),
        Err(TextFault::Long) => unreachable!(),
        Err(TextFault::Memory) => Err(PlanText::Memory),
    }
}
