//! The atoms of a row, of which one or two need no memory of their own.
ghost use Rattle.std.specs.Prelude.{◌≡◌, ◌++◌, IfOk};
ghost use Rattle.record_text.specs.InPlace.{listed, long_listed};

use crate::Memory;
use crate::atom::Atom;
use std::alloc::Global;
use std::rc::Rc;

/// A list of atoms. One or two lie in place, and more of them are shared with all copies.
#[derive(Debug)]
pub(crate) enum Atoms {
    One([Atom; 1]),
    Two([Atom; 2]),
    // No copy was made of it.
    Many(Vec<Atom>),
    Shared(Rc<Long>),
}

/// A list of more than two atoms. Three or four lie in place.
#[derive(Debug, Drop)]
pub(crate) enum Long {
    Three([Atom; 3]),
    Four([Atom; 4]),
    More(Vec<Atom>),
}

impl Long {
    // The list of these atoms. It takes no memory.
    fn from_vec(mut atoms: Vec<Atom>) -> Long
        ensures { long_listed result ≡ atoms.items }
    {
        if atoms.len() < 3 || atoms.len() > 4 {
            return Long::More(atoms);
        }
        match (atoms.pop(), atoms.pop(), atoms.pop(), atoms.pop()) {
            (Some(d), Some(c), Some(b), Some(a)) => Long::Four([a, b, c, d]),
            (Some(c), Some(b), Some(a), None) => Long::Three([a, b, c]),
            _ => unreachable!(),
        }
    }

    // The atoms, lent.
    fn as_slice(&self) -> &[Atom]
        ensures { result.now ≡ long_listed self.now }
    {
        match self {
            Long::Three(atoms) => atoms.as_slice(),
            Long::Four(atoms) => atoms.as_slice(),
            Long::More(atoms) => atoms.as_slice(),
        }
    }
}

impl Atoms {
    /// The list of these atoms. It takes no memory.
    pub(crate) fn from_vec(mut atoms: Vec<Atom>) -> Atoms
        ensures { listed result ≡ atoms.items }
    {
        if atoms.len() > 2 {
            return Atoms::Many(atoms);
        }
        match (atoms.pop(), atoms.pop()) {
            (Some(last), Some(first)) => Atoms::Two([first, last]),
            (Some(only), None) => Atoms::One([only]),
            (None, _) => Atoms::Many(atoms),
        }
    }

    /// The atoms, lent.
    pub(crate) fn as_slice(&self) -> &[Atom]
        ensures { result.now ≡ listed self.now }
    {
        match self {
            Atoms::One(atoms) => atoms.as_slice(),
            Atoms::Two(atoms) => atoms.as_slice(),
            Atoms::Many(atoms) => atoms.as_slice(),
            Atoms::Shared(atoms) => atoms.as_slice(),
        }
    }

    /// The list of these atoms, which its copies are to share where it has more than two.
    pub(crate) fn shared(alloc: Global, atoms: Vec<Atom>) -> Result<Atoms, Memory>
        ensures { IfOk result (λ list. listed list ≡ atoms.items) }
    {
        if atoms.len() > 2 {
            return Ok(Atoms::Shared(Rc::new(alloc, Long::from_vec(atoms))?));
        }
        Ok(Atoms::from_vec(atoms))
    }

    /// An equal list.
    pub(crate) fn try_copy(&self) -> Result<Atoms, Memory>
        ensures { IfOk result (λ copy. listed copy ≡ listed self.now) }
    {
        match self {
            Atoms::One([atom]) => Ok(Atoms::One([atom.try_copy()?])),
            Atoms::Two([first, second]) => {
                Ok(Atoms::Two([first.try_copy()?, second.try_copy()?]))
            }
            Atoms::Many(atoms) => {
                let alloc = *atoms.allocator();
                let mut copies = Vec::with_capacity(alloc, atoms.len())?;
                push_copies(&mut copies, atoms.as_slice())?;
                Ok(Atoms::Shared(Rc::new(alloc, Long::from_vec(copies))?))
            }
            Atoms::Shared(atoms) => Ok(Atoms::Shared(atoms.clone()?)),
        }
    }
}

// By hand, so that a row is dropped by a call.
impl Drop for Atoms {
    fn drop(self) {
        match self {
            Atoms::One(atoms) => drop(atoms),
            Atoms::Two(atoms) => drop(atoms),
            Atoms::Many(atoms) => drop(atoms),
            Atoms::Shared(atoms) => drop(atoms),
        }
    }
}

/// Puts copies of the atoms behind a list.
pub(crate) fn push_copies(copies: &mut Vec<Atom>, atoms: &[Atom]) -> Result<(), Memory>
    ensures { IfOk result (λ _. copies.new.items ≡ copies.old.items ++ atoms.now) }
{
    for atom in atoms {
        copies.push(atom.try_copy()?)?;
    }
    Ok(())
}
