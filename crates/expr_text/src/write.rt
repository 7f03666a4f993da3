//! From an expression to a value.
ghost use Rattle.std.specs.Prelude.{◌≡◌, ◌∷◌, [], IfOk, IsTrue, Some, is_some, map, slice_get};
ghost use Rattle.serde_json.specs.View.{view};
ghost use Rattle.prim_table.specs.Tables.{args1, args2, args3, names1, names2, names3};
ghost use Rattle.plan_model.specs.Limits.{are_exprs};
ghost use Rattle.plan_model.specs.Values.{has_places, term_of};
ghost use Rattle.record_text.specs.Held.{IsAtom};
ghost use Rattle.record_text.specs.declared.atom.Atom.TheVariants as atom;
ghost use Rattle.expr_text.specs.Written.{ListReadsAs, ReadsAs, call_data, col_data, const_data};

use plan_model::{Expr, Exprs, Memory};
use prim_table::{ONE, THREE, TWO};
use record_text::Atom;
use serde_json::{Value, json};
use std::alloc::Global;

/// The list of these expressions as a value that is read as that list.
pub fn exprs_to_json(alloc: Global, exprs: &Exprs) -> Result<Value, Memory>
    requires { IsTrue (are_exprs exprs.now) }
    ensures { IfOk result (λ value. ListReadsAs exprs.now (view value)) }
{
    let mut values = Vec::with_capacity(alloc, exprs.len())?;
    for i in 0..exprs.len() {
        values.push(expr_to_json(alloc, exprs.at(i))?)?;
    }
    Ok(Value::from(values))
}

/// The expression as a value that is read as that expression.
pub fn expr_to_json(alloc: Global, expr: &Expr) -> Result<Value, Memory>
    requires { IsTrue (has_places (term_of expr.now)) }
    ensures { IfOk result (λ value. ReadsAs expr.now (view value)) }
{
    match expr {
        Expr::Col(column) => col_of(alloc, *column),
        Expr::Const(atom) => const_of(alloc, atom),
        Expr::One(at, a) => {
            let a = expr_to_json(alloc, a.get())?;
            call1(alloc, name1(*at), a)
        }
        Expr::Two(at, a, b) => {
            let a = expr_to_json(alloc, a.get())?;
            let b = expr_to_json(alloc, b.get())?;
            call2(alloc, name2(*at), a, b)
        }
        Expr::Three(at, a, b, c) => {
            let a = expr_to_json(alloc, a.get())?;
            let b = expr_to_json(alloc, b.get())?;
            let c = expr_to_json(alloc, c.get())?;
            call3(alloc, name3(*at), a, b, c)
        }
    }
}

fn col_of(alloc: Global, column: u8) -> Result<Value, Memory>
    ensures { IfOk result (λ value. view value ≡ col_data column) }
{
    json!(in alloc; {"col": column})
}

fn const_of(alloc: Global, atom: &Atom) -> Result<Value, Memory>
    ensures value { IfOk result (λ value. view value ≡ const_data atom.now) }
    ensures held { IfOk result (λ _. IsAtom atom.now) }
{
    match atom {
        Atom::Int(number) => int_of(alloc, *number),
        Atom::Text(text) => text_of(alloc, text.as_str()),
    }
}

fn int_of(alloc: Global, number: i64) -> Result<Value, Memory>
    ensures { IfOk result (λ value. view value ≡ const_data (atom.Int number)) }
{
    json!(in alloc; {"int": number})
}

fn text_of(alloc: Global, text: &str) -> Result<Value, Memory>
    ensures { IfOk result (λ value. view value ≡ const_data (atom.Text text.now)) }
{
    json!(in alloc; {"text": text})
}

fn call1(alloc: Global, name: &str, a: Value) -> Result<Value, Memory>
    ensures { IfOk result (λ value. view value ≡ call_data name.now (view a ∷ [])) }
{
    let mut args = Vec::with_capacity(alloc, 1)?;
    args.push(a)?;
    call_of(alloc, name, args)
}

fn call2(alloc: Global, name: &str, a: Value, b: Value) -> Result<Value, Memory>
    ensures { IfOk result (λ value. view value ≡ call_data name.now (view a ∷ view b ∷ [])) }
{
    let mut args = Vec::with_capacity(alloc, 2)?;
    args.push(a)?;
    args.push(b)?;
    call_of(alloc, name, args)
}

fn call3(alloc: Global, name: &str, a: Value, b: Value, c: Value) -> Result<Value, Memory>
    ensures { IfOk result (λ value. view value ≡ call_data name.now (view a ∷ view b ∷ view c ∷ [])) }
{
    let mut args = Vec::with_capacity(alloc, 3)?;
    args.push(a)?;
    args.push(b)?;
    args.push(c)?;
    call_of(alloc, name, args)
}

// The call of a primitive.
fn call_of(alloc: Global, name: &str, args: Vec<Value>) -> Result<Value, Memory>
    ensures { IfOk result (λ value. view value ≡ call_data name.now (map view args.items)) }
{
    json!(in alloc; {"args": (Value::Array(args)), "call": name})
}

// The name of the primitive at this place of `ONE`.
fn name1(at: u8) -> &'static str
    requires { IsTrue (is_some (args1 at)) }
    ensures { slice_get names1 at ≡ Some result.now }
{
    ONE[at as usize].name
}

// The name of the primitive at this place of `TWO`.
fn name2(at: u8) -> &'static str
    requires { IsTrue (is_some (args2 at)) }
    ensures { slice_get names2 at ≡ Some result.now }
{
    TWO[at as usize].name
}

// The name of the primitive at this place of `THREE`.
fn name3(at: u8) -> &'static str
    requires { IsTrue (is_some (args3 at)) }
    ensures { slice_get names3 at ≡ Some result.now }
{
    THREE[at as usize].name
}
