//! Rows of atoms.
ghost use Rattle.std.specs.Prelude.{◌≡◌, ◌↔◌, ◌<◌, ◌≤◌, ◌+◌, ◌++◌, length, slice_get, slice_index_or, refl, IfOk, IsTrue};
ghost use Rattle.std.specs.Cmp.{partial_equiv_from_equiv, partial_order_from_agreeing_total};
ghost use Rattle.std.specs.Ordering.{as_partial_cmp};
ghost use Rattle.record_text.specs.declared.atom.Atom.{Atom};
ghost use Rattle.record_text.specs.KindLists.{kinds_of, kinds_eq};
ghost use Rattle.record_text.specs.Order.{row_cmp, row_eq};
ghost use Rattle.record_text.specs.OrderLaws.{row_total, row_ties, row_equivalence};

use crate::Memory;
use crate::atom::Atom;
use crate::in_place::{Atoms, push_copies};
use crate::kinds::{Kind, Kinds};
use std::alloc::Global;
use std::cmp::Ordering;
use std::marker::Model;

/// A row of 1 to 16 atoms, seen as their list. Rows are ordered atom by atom, and a proper prefix comes
/// first.
#[derive(Debug, Drop)]
pub struct Row {
    atoms: Atoms,
    alloc: Global,
}

impl Model for Row {
    ghost use Rattle.std.specs.Prelude.{◌<◌, ◌≤◌, List, length};
    ghost use Rattle.record_text.specs.declared.atom.Atom.{Atom};
    ghost use Rattle.record_text.specs.InPlace.{listed};

    ghost Value = { List Atom };

    ghost view = { λ row. listed row.atoms };

    ghost invariant = { λ row. (0 < length (listed row.atoms)) × (length (listed row.atoms) ≤ 16) };
}

impl Row {
    /// The row of these atoms, 1 to 16 of them.
    pub fn from_atoms(atoms: Vec<Atom>) -> Row
        requires some { 0 < length atoms.items }
        requires few { length atoms.items ≤ 16 }
        ensures { result ≡ atoms.items }
    {
        let alloc = *atoms.allocator();
        Row {
            atoms: Atoms::from_vec(atoms),
            alloc,
        }
    }

    /// How many atoms there are, 1 to 16.
    pub fn len(&self) -> usize
        ensures value { result ≡ length self.now }
        ensures some { 0 < result }
        ensures few { result ≤ 16 }
    {
        self.atoms().len()
    }

    /// The atom of a column; the first is column 0.
    pub fn atom(&self, at: usize) -> &Atom
        requires { at < length self.now }
        ensures item { slice_get self.now at ≡ Some result.now }
        ensures index { (other : Atom) → slice_index_or self.now at other ≡ result.now }
    {
        &self.atoms()[at]
    }

    /// Whether the atoms have these kinds, each the kind of its column, and no column is left over.
    pub fn fits(&self, kinds: Kinds) -> bool
        ensures { IsTrue result ↔ (kinds_of self.now ≡ kinds) }
    {
        have_kinds(self.atoms(), kinds.as_slice())
    }

    /// An equal row.
    pub fn try_copy(&self) -> Result<Row, Memory>
        ensures { IfOk result (λ copy. copy ≡ self.now) }
    {
        Ok(Row {
            atoms: self.atoms.try_copy()?,
            alloc: self.alloc,
        })
    }

    /// The atoms of this row, and then those of the other, 16 at most in all.
    pub fn concat(&self, other: &Row) -> Result<Row, Memory>
        requires { length self.now + length other.now ≤ 16 }
        ensures { IfOk result (λ both. both ≡ self.now ++ other.now) }
    {
        if let (Atoms::One([first]), Atoms::One([second])) = (&self.atoms, &other.atoms) {
            return Ok(Row {
                atoms: Atoms::Two([first.try_copy()?, second.try_copy()?]),
                alloc: self.alloc,
            });
        }
        let (front, back) = (self.atoms(), other.atoms());
        let mut atoms = Vec::with_capacity(self.alloc, front.len() + back.len())?;
        push_copies(&mut atoms, front)?;
        push_copies(&mut atoms, back)?;
        Ok(Row {
            atoms: Atoms::shared(self.alloc, atoms)?,
            alloc: self.alloc,
        })
    }

    pub(crate) fn atoms(&self) -> &[Atom]
        ensures value { result.now ≡ self.now }
        ensures some { 0 < length result.now }
        ensures few { length result.now ≤ 16 }
    {
        self.atoms.as_slice()
    }
}

fn have_kinds(atoms: &[Atom], kinds: &[Kind]) -> bool
    ensures { result ≡ kinds_eq (kinds_of atoms.now) kinds.now }
{
    if atoms.len() != kinds.len() {
        return false;
    }
    for (at, atom) in atoms.iter().enumerate() {
        if atom.kind() != kinds[at] {
            return false;
        }
    }
    true
}

// Compares any two rows.
#[inline(never)]
fn compare(row: &Row, other: &Row) -> Ordering
    ensures { result ≡ row_cmp row.now other.now }
{
    row.atoms().cmp(other.atoms())
}

impl PartialEq for Row {
    ghost eq = { row_eq };

    ghost laws = { partial_equiv_from_equiv row_equivalence };

    fn eq(&self, other: &Row) -> bool {
        self.atoms() == other.atoms()
    }
}

impl Eq for Row {
    ghost laws = { row_equivalence };
}

impl PartialOrd for Row {
    ghost partial_cmp = { as_partial_cmp row_cmp };

    ghost laws = { partial_order_from_agreeing_total row_cmp row_total (λ a b. refl) row_ties };

    fn partial_cmp(&self, other: &Row) -> Option<Ordering> {
        Some(self.cmp(other))
    }
}

impl Ord for Row {
    ghost cmp = { row_cmp };

    ghost total = { row_total };

    ghost matches_partial_cmp = { λ a b. refl };

    ghost matches_eq = { row_ties };

    #[inline(always)]
    fn cmp(&self, other: &Row) -> Ordering {
        // Every search compares rows, so those of one or two Ints take no loop.
        match (&self.atoms, &other.atoms) {
            (Atoms::One([Atom::Int(a)]), Atoms::One([Atom::Int(b)])) => a.cmp(b),
            (Atoms::Two([Atom::Int(a), Atom::Int(c)]), Atoms::Two([Atom::Int(b), Atom::Int(d)])) =>
                match a.cmp(b) {
                    Ordering::Equal => c.cmp(d),
                    order => order,
                },
            _ => compare(self, other),
        }
    }
}
