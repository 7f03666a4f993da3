//! Columns and expressions of rows of two numbers.
ghost use Rattle.std.specs.Prelude.{◌≡◌, All, IfOk, IsTrue, length, true};
ghost use Rattle.plan_model.specs.Acceptance.{have_kinds};
ghost use Rattle.plan_model.specs.Limits.{are_exprs};
ghost use Rattle.plan_model.specs.Types.{kinds_over};
ghost use Rattle.plan_model.specs.Values.{col, term_of};
ghost use Rattle.record_text.specs.KindLists.{kinds_of};
ghost use Rattle.trial_rows.specs.Columns.{one_int, two_ints};

use plan_model::{Expr, Exprs};
use record_text::{Kind, Kinds};
use std::alloc::Global;
use weighted_set::{Change, Memory};

/// The columns of rows of two numbers.
pub fn two_ints() -> Kinds
    ensures { result ≡ two_ints }
{
    Kinds::from_slice(&[Kind::Int, Kind::Int])
}

/// The second number of a row.
pub fn second_column() -> Expr
    ensures { term_of result ≡ col 1 }
{
    Expr::Col(1)
}

/// The row of the first number of a row.
pub fn only_first_column(alloc: Global) -> Result<Exprs, Memory>
    ensures typed { IfOk result (λ row. have_kinds two_ints row ≡ true) }
    ensures kinds { IfOk result (λ row. kinds_over two_ints row ≡ one_int) }
{
    let mut list = Vec::new(alloc);
    list.push(Expr::Col(0))?;
    Ok(Exprs::from_vec(list))
}

/// The row of the second number of a row.
pub fn only_second_column(alloc: Global) -> Result<Exprs, Memory>
    ensures typed { IfOk result (λ row. have_kinds two_ints row ≡ true) }
    ensures kinds { IfOk result (λ row. kinds_over two_ints row ≡ one_int) }
    ensures narrow { IfOk result (λ row. length row ≡ 1) }
    ensures exprs { IfOk result (λ row. are_exprs row ≡ true) }
{
    let mut list = Vec::new(alloc);
    list.push(second_column())?;
    Ok(Exprs::from_vec(list))
}

/// Whether all changes are of rows of these columns.
pub fn have_columns(changes: &[Change], cols: Kinds) -> bool
    ensures { IsTrue result → All (λ c. kinds_of c.row ≡ cols) changes.now }
{
    for change in changes {
        if !change.row.fits(cols) {
            return false;
        }
    }
    true
}
