//! Names.
ghost use Rattle.std.specs.Prelude.{◌≡◌, ◌≤◌, length, true};
ghost use Rattle.std.specs.Cmp.{partial_equiv_from_equiv};
ghost use Rattle.std.specs.Cmp.Lexicographic.{nat_list_eq_equiv};
ghost use Rattle.std.specs.List.{list_all};
ghost use Rattle.record_text.specs.Names.{is_name_byte, is_name, name_of, name_eq, name_input, name_input-name_eq};
ghost use Rattle.record_text.specs.Padded.{padded};

use std::hash::{Hash, Hasher};
use std::marker::Model;
use std::str;

// The most bytes of a name.
const MAX_NAME: usize = 32;

/// A name: 1 to 32 bytes, each an ASCII letter, an ASCII digit or `_`, seen as its bytes.
#[derive(Clone, Copy, Debug)]
pub struct Name {
    cells: [u8; MAX_NAME],
    len: usize,
}

impl Model for Name {
    ghost use Rattle.std.specs.Prelude.{◌≡◌, ℕ, List, length, take, true};
    ghost use Rattle.std.proofs.Common.{ap₂};
    ghost use Rattle.record_text.specs.Names.{is_name};
    ghost use Rattle.record_text.specs.Padded.{padded, IsPadded, length-front, padded-front};

    ghost Value = { List ℕ };

    ghost view = { λ name. take name.len name.cells };

    ghost invariant = { λ name. (is_name (take name.len name.cells) ≡ true) × IsPadded 0 32 name.cells name.len };

    ghost inverse = { λ text. record { cells = padded 0 32 text; len = length text } };

    ghost inverse_ok = { λ name h. ap₂ (λ c n. record { cells = c; len = n }) (padded-front 0 32 name.cells name.len h.1) (length-front 0 32 name.cells name.len h.1) };
}

impl Name {
    /// The name of this text, or `None` where it is no name.
    pub fn read(text: &[u8]) -> Option<Name>
        ensures { result ≡ name_of text.now }
    {
        if !is_name(text) {
            return None;
        }
        Some(Name {
            cells: cells_of(text),
            len: text.len(),
        })
    }

    /// The bytes, lent.
    pub fn as_bytes(&self) -> &[u8]
        ensures value { result.now ≡ self.now }
        ensures name { is_name self.now ≡ true }
    {
        &self.cells[..self.len]
    }

    /// The name as a text, lent.
    pub fn as_str(&self) -> &str
        ensures value { result.now ≡ self.now }
        ensures name { is_name self.now ≡ true }
    {
        match str::from_utf8(self.as_bytes()) {
            Ok(text) => text,
            Err(_) => unreachable!(),
        }
    }
}

fn is_name(text: &[u8]) -> bool
    ensures { result ≡ is_name text.now }
{
    0 < text.len() && text.len() <= MAX_NAME && has_name_bytes(text)
}

fn has_name_bytes(text: &[u8]) -> bool
    ensures { result ≡ list_all is_name_byte text.now }
{
    text.iter().all(|byte| is_name_byte(*byte))
}

fn is_name_byte(byte: u8) -> bool
    ensures { result ≡ is_name_byte byte }
{
    byte.is_ascii_alphanumeric() || byte == b'_'
}

fn cells_of(text: &[u8]) -> [u8; MAX_NAME]
    requires { length text.now ≤ 32 }
    ensures { result ≡ padded 0 32 text.now }
{
    let mut cells = [0; MAX_NAME];
    for i in 0..text.len() {
        cells[i] = text[i];
    }
    cells
}

impl PartialEq for Name {
    ghost eq = { name_eq };

    ghost laws = { partial_equiv_from_equiv nat_list_eq_equiv };

    fn eq(&self, other: &Name) -> bool {
        self.as_bytes() == other.as_bytes()
    }
}

impl Eq for Name {
    ghost laws = { nat_list_eq_equiv };
}

impl Hash for Name {
    ghost hash_input = { name_input };

    ghost respects_eq = { name_input-name_eq };

    fn hash<H: Hasher>(&self, state: &mut H) {
        self.as_bytes().hash(state)
    }
}
