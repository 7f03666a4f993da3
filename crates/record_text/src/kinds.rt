//! Kinds of atoms, and lists of kinds.
ghost use Rattle.std.specs.Prelude.{◌≡◌, ◌<◌, ◌≤◌, length, slice_get};
ghost use Rattle.std.specs.Cmp.{partial_equiv_from_equiv};
ghost use Rattle.record_text.specs.KindLists.{kinds_eq, kinds_equivalence};
ghost use Rattle.record_text.specs.Padded.{padded};
ghost use Rattle.record_text.specs.declared.kinds.Kind.TheVariants as kind;

use std::marker::Model;

// The most columns of a row.
pub(crate) const MAX_WIDTH: usize = 16;

/// The kind of an atom, and of the atoms in a column.
#[derive(Clone, Copy, Debug, PartialEq, Eq)]
pub enum Kind {
    /// Whole numbers.
    Int,
    /// Texts.
    Text,
}

/// The kinds of a row's columns, 1 to 16 of them, seen as their list.
#[derive(Clone, Copy, Debug)]
pub struct Kinds {
    cells: [Kind; MAX_WIDTH],
    len: usize,
}

impl Model for Kinds {
    ghost use Rattle.std.specs.Prelude.{◌<◌, List, length, take};
    ghost use Rattle.std.proofs.Common.{ap₂};
    ghost use Rattle.record_text.specs.declared.kinds.Kind.{Kind};
    ghost use Rattle.record_text.specs.declared.kinds.Kind.TheVariants as kind;
    ghost use Rattle.record_text.specs.Padded.{padded, IsPadded, length-front, padded-front};

    ghost Value = { List Kind };

    ghost view = { λ k. take k.len k.cells };

    ghost invariant = { λ k. (0 < k.len) × IsPadded kind.Int 16 k.cells k.len };

    ghost inverse = { λ kinds. record { cells = padded kind.Int 16 kinds; len = length kinds } };

    ghost inverse_ok = { λ k h. ap₂ (λ c n. record { cells = c; len = n }) (padded-front kind.Int 16 k.cells k.len h.1) (length-front kind.Int 16 k.cells k.len h.1) };
}

impl Kinds {
    /// The list of these kinds, 1 to 16 of them.
    pub fn from_slice(kinds: &[Kind]) -> Kinds
        requires some { 0 < length kinds.now }
        requires few { length kinds.now ≤ 16 }
        ensures { result ≡ kinds.now }
    {
        Kinds {
            cells: cells_of(kinds),
            len: kinds.len(),
        }
    }

    /// How many kinds there are, 1 to 16.
    pub fn len(self) -> usize
        ensures value { result ≡ length self }
        ensures some { 0 < result }
        ensures few { result ≤ 16 }
    {
        self.len
    }

    /// The kind of a column; the first is column 0.
    pub fn at(self, i: usize) -> Kind
        requires { i < length self }
        ensures { slice_get self i ≡ Some result }
    {
        self.cells[i]
    }

    pub(crate) fn as_slice(&self) -> &[Kind]
        ensures { result.now ≡ self.now }
    {
        &self.cells[..self.len]
    }
}

impl PartialEq for Kinds {
    ghost eq = { kinds_eq };

    ghost laws = { partial_equiv_from_equiv kinds_equivalence };

    fn eq(&self, other: &Kinds) -> bool {
        self.as_slice() == other.as_slice()
    }
}

impl Eq for Kinds {
    ghost laws = { kinds_equivalence };
}

fn cells_of(kinds: &[Kind]) -> [Kind; MAX_WIDTH]
    requires { length kinds.now ≤ 16 }
    ensures { result ≡ padded kind.Int 16 kinds.now }
{
    let mut cells = [Kind::Int; MAX_WIDTH];
    for i in 0..kinds.len() {
        cells[i] = kinds[i];
    }
    cells
}
