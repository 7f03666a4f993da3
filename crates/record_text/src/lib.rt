//! Records of data: atoms, rows of atoms, their kinds, and names, with their reading from JSON and from
//! the fields of CSV records.
//!
//! Contracts see a row as the list of its atoms, a list of kinds as that list, and a text or a name as
//! its bytes. The order of rows and what each text denotes are defined in `specs/`.
#![tactic(auto)]

mod atom;
mod field;
mod in_place;
mod kinds;
mod laws;
mod name;
mod row;
mod row_json;
mod short_text;

pub use atom::Atom;
pub use field::{AtomFault, atom_from_field};
pub use kinds::{Kind, Kinds};
pub use laws::{law_equality, law_order, law_rows_read_back};
pub use name::Name;
pub use row::Row;
pub use row_json::{RowFault, row_from_json, row_to_json};
pub use short_text::{ShortText, TextFault};
pub use std::alloc::AllocError as Memory;
