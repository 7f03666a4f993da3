//! Atoms in the fields of CSV records.
ghost use Rattle.std.specs.Prelude.{◌≡◌};
ghost use Rattle.std.specs.Str.Parse.{without_leading_sign};
ghost use Rattle.record_text.specs.FieldAtoms.{int_of_field, text_of_field, atom_of_field, GivesAtom};
ghost use Rattle.record_text.specs.FieldMemory.{WantsForText};

use crate::atom::Atom;
use crate::kinds::Kind;
use crate::short_text::{ShortText, TextFault};
use numerals::is_short_numeral;
use std::alloc::Global;
use std::str;
use thiserror::Error;

/// Why a field is no atom of a kind.
#[derive(Clone, Copy, Debug, PartialEq, Eq, Error)]
pub enum AtomFault {
    /// An Int is asked for, and the field is no optional sign and 1 to 19 digits whose value an i64 holds.
    #[error("the field is no whole number")]
    NotInt,
    /// A Text is asked for, and the field is no UTF-8.
    #[error("the field is no UTF-8")]
    NotUtf8,
    /// A Text is asked for, and the field has over 255 bytes.
    #[error("the field is too long")]
    TextLong,
    /// There was no memory.
    #[error("out of memory")]
    Memory,
}

/// The atom of a field that is to be of this kind: an Int of an optional `+` or `-` and 1 to 19 digits
/// whose value an i64 holds, or a Text of at most 255 bytes of UTF-8. `Memory` may come in place of a Text.
#[tactic(auto, unfolding(crate::specs::FieldAtoms::atom_of_field))]
pub fn atom_from_field(alloc: Global, field: &[u8], kind: Kind) -> Result<Atom, AtomFault>
    ensures atom { GivesAtom result (atom_of_field field.now kind) }
    ensures memory { WantsForText result (atom_of_field field.now kind) }
{
    match kind {
        Kind::Int => match int_from_field(field) {
            Some(number) => Ok(Atom::Int(number)),
            None => Err(AtomFault::NotInt),
        },
        Kind::Text => text_from_field(alloc, field),
    }
}

fn int_from_field(field: &[u8]) -> Option<i64>
    ensures { result ≡ int_of_field field.now }
{
    if !is_short_numeral(without_sign(field)) {
        return None;
    }
    match str::from_utf8(field) {
        Ok(text) => text.parse::<i64>().ok(),
        Err(_) => unreachable!(),
    }
}

fn without_sign(field: &[u8]) -> &[u8]
    ensures { result.now ≡ without_leading_sign field.now }
{
    match field.first() {
        Some(b'-' | b'+') => &field[1..],
        _ => field,
    }
}

fn text_from_field(alloc: Global, field: &[u8]) -> Result<Atom, AtomFault>
    ensures atom { GivesAtom result (text_of_field field.now) }
    ensures memory { WantsForText result (text_of_field field.now) }
{
    let Ok(text) = str::from_utf8(field) else {
        return Err(AtomFault::NotUtf8);
    };
    match ShortText::new(alloc, text) {
        Ok(text) => Ok(Atom::Text(text)),
        Err(TextFault::Long) => Err(AtomFault::TextLong),
        Err(TextFault::Memory) => Err(AtomFault::Memory),
    }
}
