//! The atoms of rows.
ghost use Rattle.std.specs.Prelude.{◌≡◌, refl, IfOk};
ghost use Rattle.std.specs.Cmp.{partial_equiv_from_equiv, partial_order_from_agreeing_total};
ghost use Rattle.std.specs.Ordering.{as_partial_cmp};
ghost use Rattle.record_text.specs.KindLists.{kind_of};
ghost use Rattle.record_text.specs.Order.{atom_cmp, atom_eq};
ghost use Rattle.record_text.specs.OrderLaws.{atom_total, atom_ties, atom_equivalence};

use crate::Memory;
use crate::kinds::Kind;
use crate::short_text::ShortText;
use std::cmp::Ordering;

/// An atom of a row. Every `Int` comes before every `Text`, Ints are ordered by value, and Texts by
/// their bytes.
#[derive(Debug, Drop)]
pub enum Atom {
    /// A whole number.
    Int(i64),
    /// A text of at most 255 bytes.
    Text(ShortText),
}

impl Atom {
    /// An equal atom.
    pub fn try_copy(&self) -> Result<Atom, Memory>
        ensures { IfOk result (λ copy. copy ≡ self.now) }
    {
        match self {
            Atom::Int(value) => Ok(Atom::Int(*value)),
            Atom::Text(text) => Ok(Atom::Text(text.try_copy()?)),
        }
    }

    /// The kind of the atom.
    pub fn kind(&self) -> Kind
        ensures { result ≡ kind_of self.now }
    {
        match self {
            Atom::Int(_) => Kind::Int,
            Atom::Text(_) => Kind::Text,
        }
    }
}

impl PartialEq for Atom {
    ghost eq = { atom_eq };

    ghost laws = { partial_equiv_from_equiv atom_equivalence };

    fn eq(&self, other: &Atom) -> bool {
        match (self, other) {
            (Atom::Int(a), Atom::Int(b)) => a == b,
            (Atom::Text(a), Atom::Text(b)) => a == b,
            _ => false,
        }
    }
}

impl Eq for Atom {
    ghost laws = { atom_equivalence };
}

impl PartialOrd for Atom {
    ghost partial_cmp = { as_partial_cmp atom_cmp };

    ghost laws = { partial_order_from_agreeing_total atom_cmp atom_total (λ a b. refl) atom_ties };

    fn partial_cmp(&self, other: &Atom) -> Option<Ordering> {
        Some(self.cmp(other))
    }
}

impl Ord for Atom {
    ghost cmp = { atom_cmp };

    ghost total = { atom_total };

    ghost matches_partial_cmp = { λ a b. refl };

    ghost matches_eq = { atom_ties };

    fn cmp(&self, other: &Atom) -> Ordering {
        match (self, other) {
            (Atom::Int(a), Atom::Int(b)) => a.cmp(b),
            (Atom::Int(_), Atom::Text(_)) => Ordering::Less,
            (Atom::Text(_), Atom::Int(_)) => Ordering::Greater,
            (Atom::Text(a), Atom::Text(b)) => a.cmp(b),
        }
    }
}
