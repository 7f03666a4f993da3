//! The lists that requests and replies hold.
ghost use Rattle.std.specs.Prelude.{◌≡◌, ℕ, ℤ, List};
ghost use Rattle.ratios.specs.Ratio.{Ratio};
ghost use Rattle.record_text.specs.declared.atom.Atom.{Atom};

use frac_core::Frac;
use record_text::{Name, Row};
use std::marker::Model;

/// Weights, in order.
#[derive(Drop)]
pub struct Weights {
    list: Vec<Frac>,
}

impl Model for Weights {
    ghost Value = { List Ratio };

    ghost view = { λ weights. weights.list.items };
}

impl Weights {
    /// The weights of this list.
    pub fn from_vec(list: Vec<Frac>) -> Weights
        ensures { result ≡ list.items }
    {
        Weights { list }
    }

    /// The weights, lent.
    pub fn as_slice(&self) -> &[Frac]
        ensures { result.now ≡ self.now }
    {
        self.list.as_slice()
    }
}

/// Bytes, in order.
#[derive(Drop)]
pub struct Bytes {
    list: Vec<u8>,
}

impl Model for Bytes {
    ghost Value = { List ℕ };

    ghost view = { λ bytes. bytes.list.items };
}

impl Bytes {
    /// The bytes of this list.
    pub fn from_vec(list: Vec<u8>) -> Bytes
        ensures { result ≡ list.items }
    {
        Bytes { list }
    }

    /// The bytes, lent.
    pub fn as_slice(&self) -> &[u8]
        ensures { result.now ≡ self.now }
    {
        self.list.as_slice()
    }
}

/// Rows, in order.
#[derive(Drop)]
pub struct Rows {
    list: Vec<Row>,
}

impl Model for Rows {
    ghost Value = { List (List Atom) };

    ghost view = { λ rows. rows.list.items };
}

impl Rows {
    /// The rows of this list.
    pub fn from_vec(list: Vec<Row>) -> Rows
        ensures { result ≡ list.items }
    {
        Rows { list }
    }

    /// The rows, lent.
    pub fn as_slice(&self) -> &[Row]
        ensures { result.now ≡ self.now }
    {
        self.list.as_slice()
    }
}

/// Sources by name, each with the number of its uses or what is charged for them.
#[derive(Drop)]
pub struct Uses {
    list: Vec<(Name, u64)>,
}

impl Model for Uses {
    ghost Value = { List (List ℕ × ℕ) };

    ghost view = { λ uses. uses.list.items };
}

impl Uses {
    /// The sources and numbers of this list.
    pub fn from_vec(list: Vec<(Name, u64)>) -> Uses
        ensures { result ≡ list.items }
    {
        Uses { list }
    }

    /// The sources and numbers, lent.
    pub fn as_slice(&self) -> &[(Name, u64)]
        ensures { result.now ≡ self.now }
    {
        self.list.as_slice()
    }
}

/// Whole numbers of 128 bits, in order.
#[derive(Drop)]
pub struct Wides {
    list: Vec<i128>,
}

impl Model for Wides {
    ghost Value = { List ℤ };

    ghost view = { λ wides. wides.list.items };
}

impl Wides {
    /// The numbers of this list.
    pub fn from_vec(list: Vec<i128>) -> Wides
        ensures { result ≡ list.items }
    {
        Wides { list }
    }

    /// The numbers, lent.
    pub fn as_slice(&self) -> &[i128]
        ensures { result.now ≡ self.now }
    {
        self.list.as_slice()
    }
}
