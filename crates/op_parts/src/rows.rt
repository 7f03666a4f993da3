//! What expressions make of a row, and rows with an atom more.
ghost use Rattle.std.specs.Prelude.{◌≡◌, ◌<◌, ◌++◌, [], ◌∷◌, IfOk, IsTrue, length};
ghost use Rattle.plan_model.specs.Acceptance.{have_kinds};
ghost use Rattle.plan_model.specs.Evaluation.{passes, row_of};
ghost use Rattle.plan_model.specs.Sizes.{max_width};
ghost use Rattle.plan_model.specs.Types.{kind_over};
ghost use Rattle.plan_model.specs.Values.{is_typed, term_of};
ghost use Rattle.record_text.specs.KindLists.{kinds_of};
ghost use Rattle.record_text.specs.declared.kinds.Kind.TheVariants as kind;

use plan_model::{Expr, Exprs};
use record_text::{Atom, Row};
use std::alloc::Global;
use weighted_set::Memory;

/// Whether a test, an Int over the row's columns, isn't 0.
pub fn passes(alloc: Global, test: &Expr, row: &Row) -> Result<bool, Memory>
    requires typed { IsTrue (is_typed (kinds_of row.now) (term_of test.now)) }
    requires int { kind_over (kinds_of row.now) test.now ≡ kind.Int }
    ensures { IfOk result (λ is_kept. is_kept ≡ passes test.now row.now) }
{
    match test.eval(alloc, row)? {
        Atom::Int(number) => Ok(number != 0),
        Atom::Text(_) => Ok(true),
    }
}

/// The row that expressions with kinds over the row's columns make.
pub fn made_row(alloc: Global, exprs: &Exprs, row: &Row) -> Result<Row, Memory>
    requires { IsTrue (have_kinds (kinds_of row.now) exprs.now) }
    ensures { IfOk result (λ made. made ≡ row_of exprs.now row.now) }
{
    let mut atoms = Vec::with_capacity(alloc, exprs.len())?;
    for at in 0..exprs.len() {
        let atom = exprs.at(at).eval(alloc, row)?;
        atoms.push(atom)?;
    }
    Ok(Row::from_atoms(atoms))
}

/// The row followed by an atom.
pub fn followed_by(alloc: Global, row: &Row, atom: Atom) -> Result<Row, Memory>
    requires { length row.now < max_width }
    ensures { IfOk result (λ made. made ≡ row.now ++ atom ∷ []) }
{
    let mut atoms = Vec::with_capacity(alloc, row.len() + 1)?;
    for at in 0..row.len() {
        let copy = row.atom(at).try_copy()?;
        atoms.push(copy)?;
    }
    atoms.push(atom)?;
    Ok(Row::from_atoms(atoms))
}
