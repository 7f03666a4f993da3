//! Expressions over the atoms of a row.
ghost use Rattle.std.specs.Prelude.{◌≡◌, IfOk, IsTrue, Some, length};
ghost use Rattle.plan_model.specs.Values.{checked_kind, has_columns, has_places, is_typed, kind_in, term_of, value_if};
ghost use Rattle.record_text.specs.KindLists.{kind_of, kinds_of};

use prim_table::{apply1, apply2, apply3, row1, row2, row3};
use record_text::{Atom, Kind, Kinds, Memory, Row};
use sqlite_items::Boxed;
use std::alloc::Global;

/// An expression: a column, a constant, or a primitive at a place of its table with as many arguments
/// as it takes.
#[derive(Debug, Drop)]
pub enum Expr {
    /// The atom of a column; the first is column 0.
    Col(u8),
    /// A constant.
    Const(Atom),
    /// A primitive of one argument.
    One(u8, Boxed<Expr>),
    /// A primitive of two arguments.
    Two(u8, Boxed<Expr>, Boxed<Expr>),
    /// A primitive of three arguments.
    Three(u8, Boxed<Expr>, Boxed<Expr>, Boxed<Expr>),
}

/// Why an expression has no kind.
#[derive(Clone, Copy, Debug, PartialEq, Eq)]
pub enum ExprFault {
    /// It reads a column at or past the width.
    Column,
    /// An argument has another kind than its primitive takes.
    Kind,
}

impl Expr {
    /// The kind over rows of these columns. The fault is `Column` where some column is at or past the
    /// width, and else `Kind` where an argument has another kind than its primitive takes.
    pub fn kind(&self, cols: Kinds) -> Result<Kind, ExprFault>
        requires { IsTrue (has_places (term_of self.now)) }
        ensures { result ≡ checked_kind cols (term_of self.now) }
    {
        if !self.has_columns(cols.len()) {
            return Err(ExprFault::Column);
        }
        self.kind_in(cols).ok_or(ExprFault::Kind)
    }

    /// The value on a row over whose kinds the expression has a kind, which is the value's.
    pub fn eval(&self, alloc: Global, row: &Row) -> Result<Atom, Memory>
        requires { IsTrue (is_typed (kinds_of row.now) (term_of self.now)) }
        ensures value { IfOk result (λ atom. value_if (term_of self.now) row.now ≡ Some atom) }
        ensures kind { IfOk result (λ atom. kind_in (kinds_of row.now) (term_of self.now) ≡ Some (kind_of atom)) }
    {
        match self {
            Expr::Col(at) => row.atom(*at as usize).try_copy(),
            Expr::Const(atom) => atom.try_copy(),
            Expr::One(place, a) => {
                let a = a.get().eval(alloc, row)?;
                apply1(*place, &a)
            }
            Expr::Two(place, a, b) => {
                let a = a.get().eval(alloc, row)?;
                let b = b.get().eval(alloc, row)?;
                apply2(*place, &a, &b)
            }
            Expr::Three(place, a, b, c) => {
                let a = a.get().eval(alloc, row)?;
                let b = b.get().eval(alloc, row)?;
                let c = c.get().eval(alloc, row)?;
                apply3(alloc, *place, &a, &b, &c)
            }
        }
    }

    /// An equal expression.
    pub fn try_copy(&self, alloc: Global) -> Result<Expr, Memory>
        ensures { IfOk result (λ copy. copy ≡ self.now) }
    {
        match self {
            Expr::Col(at) => Ok(Expr::Col(*at)),
            Expr::Const(atom) => Ok(Expr::Const(atom.try_copy()?)),
            Expr::One(place, a) => {
                let a = a.get().try_copy(alloc)?;
                Ok(Expr::One(*place, Boxed::new(alloc, a)?))
            }
            Expr::Two(place, a, b) => {
                let a = a.get().try_copy(alloc)?;
                let b = b.get().try_copy(alloc)?;
                Ok(Expr::Two(*place, Boxed::new(alloc, a)?, Boxed::new(alloc, b)?))
            }
            Expr::Three(place, a, b, c) => {
                let a = a.get().try_copy(alloc)?;
                let b = b.get().try_copy(alloc)?;
                let c = c.get().try_copy(alloc)?;
                Ok(Expr::Three(
                    *place,
                    Boxed::new(alloc, a)?,
                    Boxed::new(alloc, b)?,
                    Boxed::new(alloc, c)?,
                ))
            }
        }
    }

    fn has_columns(&self, width: usize) -> bool
        ensures { result ≡ has_columns width (term_of self.now) }
    {
        match self {
            Expr::Col(at) => (*at as usize) < width,
            Expr::Const(_) => true,
            Expr::One(_, a) => a.get().has_columns(width),
            Expr::Two(_, a, b) => a.get().has_columns(width) && b.get().has_columns(width),
            Expr::Three(_, a, b, c) => {
                a.get().has_columns(width)
                    && b.get().has_columns(width)
                    && c.get().has_columns(width)
            }
        }
    }

    // The kind where the columns are below the width, and none where an argument has a wrong one.
    fn kind_in(&self, cols: Kinds) -> Option<Kind>
        requires places { IsTrue (has_places (term_of self.now)) }
        requires columns { IsTrue (has_columns (length cols) (term_of self.now)) }
        ensures { result ≡ kind_in cols (term_of self.now) }
    {
        match self {
            Expr::Col(at) => Some(cols.at(*at as usize)),
            Expr::Const(atom) => Some(atom.kind()),
            Expr::One(place, a) => {
                let a = a.get().kind_in(cols)?;
                let row = row1(*place);
                if row.args == [a] {
                    Some(row.result)
                } else {
                    None
                }
            }
            Expr::Two(place, a, b) => {
                let a = a.get().kind_in(cols)?;
                let b = b.get().kind_in(cols)?;
                let row = row2(*place);
                if row.args == [a, b] {
                    Some(row.result)
                } else {
                    None
                }
            }
            Expr::Three(place, a, b, c) => {
                let a = a.get().kind_in(cols)?;
                let b = b.get().kind_in(cols)?;
                let c = c.get().kind_in(cols)?;
                let row = row3(*place);
                if row.args == [a, b, c] {
                    Some(row.result)
                } else {
                    None
                }
            }
        }
    }
}
