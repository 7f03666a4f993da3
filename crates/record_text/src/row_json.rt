//! Rows as JSON values.
ghost use Rattle.std.specs.Prelude.{◌≡◌, false, length, map, All, IfOk, IsTrue};
ghost use Rattle.json_fields.specs.Walk.{each};
ghost use Rattle.serde_json.specs.View.{view};
ghost use Rattle.serde_json.specs.Written.{has_float};
ghost use Rattle.record_text.specs.JsonRows.{atom_in, is_width, row_of, atom_data, row_data, GivesRow};
ghost use Rattle.record_text.specs.Held.{IsAtom};
ghost use Rattle.record_text.specs.declared.row_json.RowFault.TheVariants as fault;

use crate::Memory;
use crate::atom::Atom;
use crate::kinds::MAX_WIDTH;
use crate::row::Row;
use crate::short_text::{ShortText, TextFault};
use json_fields::list_of;
use serde_json::Value;
use std::alloc::{AllocFailed, Global};
use thiserror::Error;

/// Why a JSON value is no row. Places count from 0.
#[derive(Clone, Copy, Debug, PartialEq, Eq, Error)]
pub enum RowFault {
    /// The value is no array.
    #[error("the row is no array")]
    NotList,
    /// The array doesn't have 1 to 16 members.
    #[error("the row doesn't have 1 to 16 atoms")]
    Width,
    /// The member at this place is neither a text nor a whole number that an i64 holds.
    #[error("the atom at {at} is neither a whole number nor a text")]
    Atom { at: usize },
    /// The text at this place has over 255 bytes.
    #[error("the text at {at} is too long")]
    TextLong { at: usize },
    /// There was no memory.
    #[error("out of memory")]
    Memory,
}

impl From<Memory> for RowFault {
    ghost from_gives = { λ _ e. e ≡ fault.Memory };

    fn from(_e: Memory) -> RowFault {
        RowFault::Memory
    }
}

impl<T: Drop> From<AllocFailed<T>> for RowFault {
    ghost from_gives = { λ _ e. e ≡ fault.Memory };

    fn from(_e: AllocFailed<T>) -> RowFault {
        RowFault::Memory
    }
}

/// The row that a value denotes: an array of 1 to 16 members, each a whole number that an i64 holds or
/// a text of at most 255 bytes. Else `NotList` where the value is no array, else `Width` where the array
/// has none or over 16, else the fault of the first member that is no atom.
#[tactic(auto, unfolding(crate::specs::JsonRows::row_of))]
pub fn row_from_json(alloc: Global, value: &Value) -> Result<Row, RowFault>
    ensures { GivesRow result (row_of (view value.now)) }
{
    let Some(list) = list_of(value) else {
        return Err(RowFault::NotList);
    };
    if list.is_empty() || list.len() > MAX_WIDTH {
        return Err(RowFault::Width);
    }
    atoms_from_json(alloc, list)
}

fn atoms_from_json(alloc: Global, list: &[Value]) -> Result<Row, RowFault>
    requires { IsTrue (is_width (length list.now)) }
    ensures { GivesRow result (each atom_in 0 (map view list.now)) }
{
    let mut atoms = Vec::with_capacity(alloc, list.len())?;
    for (at, value) in list.iter().enumerate() {
        atoms.push(atom_from_json(alloc, at, value)?)?;
    }
    Ok(Row::from_atoms(atoms))
}

fn atom_from_json(alloc: Global, at: usize, value: &Value) -> Result<Atom, RowFault>
    ensures { GivesRow result (atom_in at (view value.now)) }
{
    if let Some(number) = value.as_i64() {
        return Ok(Atom::Int(number));
    }
    let Some(text) = value.as_str() else {
        return Err(RowFault::Atom { at });
    };
    match ShortText::new(alloc, text) {
        Ok(text) => Ok(Atom::Text(text)),
        Err(TextFault::Long) => Err(RowFault::TextLong { at }),
        Err(TextFault::Memory) => Err(RowFault::Memory),
    }
}

/// The row as an array of its atoms, which `row_from_json` reads as that row.
pub fn row_to_json(alloc: Global, row: &Row) -> Result<Value, Memory>
    ensures value { IfOk result (λ value. view value ≡ row_data row.now) }
    ensures reads_back { IfOk result (λ value. row_of (view value) ≡ Ok row.now) }
    ensures plain { IfOk result (λ value. has_float (view value) ≡ false) }
{
    let values = values_of(alloc, row.atoms())?;
    Ok(Value::from(values))
}

fn values_of(alloc: Global, atoms: &[Atom]) -> Result<Vec<Value>, Memory>
    ensures values { IfOk result (λ values. map view values.items ≡ map atom_data atoms.now) }
    ensures held { IfOk result (λ _. All IsAtom atoms.now) }
{
    let mut values = Vec::with_capacity(alloc, atoms.len())?;
    for atom in atoms {
        values.push(atom_to_json(alloc, atom)?)?;
    }
    Ok(values)
}

fn atom_to_json(alloc: Global, atom: &Atom) -> Result<Value, Memory>
    ensures value { IfOk result (λ value. view value ≡ atom_data atom.now) }
    ensures held { IfOk result (λ _. IsAtom atom.now) }
{
    match atom {
        Atom::Int(number) => Ok(Value::from(*number)),
        Atom::Text(text) => Ok(Value::from(String::from_str(alloc, text.as_str())?)),
    }
}
