//! Expressions over some columns.
ghost use Rattle.std.specs.Prelude.{◌≡◌, IsTrue, length, true};
ghost use Rattle.plan_model.specs.Acceptance.{have_columns, have_kinds};
ghost use Rattle.plan_model.specs.Limits.{are_exprs, is_expr};
ghost use Rattle.plan_model.specs.Types.{kinds_over};
ghost use Rattle.plan_model.specs.Values.{has_columns, kind_in, term_of};
ghost use Rattle.plan_checker.specs.Steps.{is_int};

use plan_model::{Expr, ExprFault, Exprs};
use record_text::{Kind, Kinds};

// The most columns of a row.
pub(crate) const MAX_WIDTH: usize = 16;

// Every column that the expression reads is below the width.
pub(crate) fn expr_has_columns(cols: Kinds, e: &Expr) -> bool
    requires { IsTrue (is_expr e.now) }
    ensures { result ≡ has_columns (length cols) (term_of e.now) }
{
    match e.kind(cols) {
        Ok(_) | Err(ExprFault::Kind) => true,
        Err(ExprFault::Column) => false,
    }
}

// The kind of an expression that reads no column past the width, if it has one.
pub(crate) fn kind_of_expr(cols: Kinds, e: &Expr) -> Option<Kind>
    requires expr { IsTrue (is_expr e.now) }
    requires columns { has_columns (length cols) (term_of e.now) ≡ true }
    ensures { result ≡ kind_in cols (term_of e.now) }
{
    e.kind(cols).ok()
}

// The expression is an Int.
pub(crate) fn is_int(cols: Kinds, e: &Expr) -> bool
    requires expr { IsTrue (is_expr e.now) }
    requires columns { has_columns (length cols) (term_of e.now) ≡ true }
    ensures { result ≡ is_int cols e.now }
{
    match kind_of_expr(cols, e) {
        Some(Kind::Int) => true,
        Some(Kind::Text) | None => false,
    }
}

// Every column that the expressions read is below the width.
pub(crate) fn have_columns(cols: Kinds, es: &Exprs) -> bool
    requires { IsTrue (are_exprs es.now) }
    ensures { result ≡ have_columns cols es.now }
{
    for i in 0..es.len() {
        if !expr_has_columns(cols, es.at(i)) {
            return false;
        }
    }
    true
}

// Each expression has a kind.
pub(crate) fn have_kinds(cols: Kinds, es: &Exprs) -> bool
    requires exprs { IsTrue (are_exprs es.now) }
    requires columns { have_columns cols es.now ≡ true }
    ensures { result ≡ have_kinds cols es.now }
{
    for i in 0..es.len() {
        if kind_of_expr(cols, es.at(i)).is_none() {
            return false;
        }
    }
    true
}

// The kinds of the expressions.
pub(crate) fn kinds_over(cols: Kinds, es: &Exprs) -> Kinds
    requires exprs { IsTrue (are_exprs es.now) }
    requires columns { have_columns cols es.now ≡ true }
    ensures { result ≡ kinds_over cols es.now }
{
    let mut kinds = [Kind::Int; MAX_WIDTH];
    for i in 0..es.len() {
        kinds[i] = kind_of_expr(cols, es.at(i)).unwrap_or(Kind::Int);
    }
    Kinds::from_slice(&kinds[..es.len()])
}
