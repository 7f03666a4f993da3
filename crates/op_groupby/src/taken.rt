//! What a reducer has taken up of rows.
ghost use Rattle.std.specs.Prelude.{◌≡◌, ◌+◌, ◌<◌, ◌≤◌, ◌^◌, IfOk, unsigned_abs};
ghost use Rattle.prim_table.specs.Primitives.{clamped};
ghost use Rattle.op_groupby.specs.Taking.{ReadsRow, answer, atom_of, greater, lesser, none_taken, with_taken};

use plan_model::Reducer;
use record_text::{Atom, Row};
use std::marker::Model;
use weighted_set::Memory;

/// What a reducer has taken up of rows: their number or the sum of their column, and the least or the
/// greatest atom of it.
#[derive(Drop)]
pub struct Taken<'a> {
    number: i128,
    best: Option<&'a Atom>,
}

impl<'a> Model for Taken<'a> {
    ghost use Rattle.op_groupby.specs.Taking.{TakenRows, atom_of};

    ghost Value = { TakenRows };

    ghost view = { λ t. record { number = t.number; best = atom_of t.best } };
}

// The nearest number that an i64 holds.
fn clamped(number: i128) -> i64
    ensures { result ≡ clamped number }
{
    if number > i128::from(i64::MAX) {
        i64::MAX
    } else if number < i128::from(i64::MIN) {
        i64::MIN
    } else {
        number as i64
    }
}

// The less of an atom and the best before it, if there is one.
fn lesser<'a>(best: Option<&'a Atom>, atom: &'a Atom) -> &'a Atom
    ensures { result.now ≡ lesser (atom_of best.entry) atom.now }
{
    let Some(best) = best else {
        return atom;
    };
    if *atom < *best { atom } else { best }
}

// The greater of an atom and the best before it, if there is one.
fn greater<'a>(best: Option<&'a Atom>, atom: &'a Atom) -> &'a Atom
    ensures { result.now ≡ greater (atom_of best.entry) atom.now }
{
    let Some(best) = best else {
        return atom;
    };
    if *best < *atom { atom } else { best }
}

impl<'a> Taken<'a> {
    /// Before any row.
    pub fn new() -> Taken<'a>
        ensures { result ≡ none_taken }
    {
        Taken {
            number: 0,
            best: None,
        }
    }

    /// Takes up a row.
    pub fn take(&mut self, reduce: Reducer, row: &'a Row)
        requires reads { ReadsRow reduce row.now }
        requires room { unsigned_abs self.old.number + 2 ^ 63 < 2 ^ 127 }
        ensures taken { self.new ≡ with_taken reduce self.old row.now }
        ensures small { unsigned_abs self.new.number ≤ unsigned_abs self.old.number + 2 ^ 63 }
    {
        match reduce {
            Reducer::Count => self.number += 1,
            Reducer::Min(col) => self.best = Some(lesser(self.best, row.atom(usize::from(col)))),
            Reducer::Max(col) => self.best = Some(greater(self.best, row.atom(usize::from(col)))),
            Reducer::Sum(col) => {
                if let Atom::Int(number) = row.atom(usize::from(col)) {
                    self.number += i128::from(*number);
                }
            }
        }
    }

    /// The atom that the rows so far are reduced to.
    pub fn answer(&self, reduce: Reducer) -> Result<Atom, Memory>
        ensures { IfOk result (λ atom. atom ≡ answer reduce self.now) }
    {
        match reduce {
            Reducer::Count | Reducer::Sum(_) => Ok(Atom::Int(clamped(self.number))),
            Reducer::Min(_) | Reducer::Max(_) => match self.best {
                Some(atom) => atom.try_copy(),
                None => Ok(Atom::Int(0)),
            },
        }
    }
}
