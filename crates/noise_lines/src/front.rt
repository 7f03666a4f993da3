//! The front of a line.
ghost use Rattle.std.specs.Prelude.{◌≡◌, ◌==◌, ◌++◌, ◌≤◌, [], ◌∷◌, length, take};
ghost use Rattle.noise_lines.specs.Lines.{front_len};

use std::marker::Model;

/// How many bytes of a line are kept: one past those of a number, and a CR that is dropped at the end, so that
/// what is kept of an overlong line is overlong.
pub const KEPT: usize = 22;

/// The front of a line, of at most `KEPT` bytes.
#[derive(Drop)]
pub struct LineFront {
    bytes: [u8; KEPT],
    len: usize,
}

impl Model for LineFront {
    ghost use Rattle.std.specs.Prelude.{◌≤◌, ℕ, List, take};
    ghost use Rattle.noise_lines.specs.Lines.{front_len};

    ghost Value = { List ℕ };

    ghost view = { λ front. take front.len front.bytes };

    ghost invariant = { λ front. front.len ≤ front_len };
}

impl LineFront {
    /// Of a line without a byte.
    pub fn new() -> LineFront
        ensures { result ≡ [] }
    {
        LineFront {
            bytes: [0; KEPT],
            len: 0,
        }
    }

    /// Appends a byte, unless as many are kept as may be.
    pub fn push(&mut self, byte: u8)
        ensures { self.new ≡ take front_len (self.old ++ byte ∷ []) }
    {
        if self.len < KEPT {
            self.bytes[self.len] = byte;
            self.len += 1;
        }
    }

    /// Drops the bytes.
    pub fn clear(&mut self)
        ensures { self.new ≡ [] }
    {
        self.len = 0;
    }

    /// How many bytes are kept.
    pub fn len(&self) -> usize
        ensures value { result ≡ length self.now }
        ensures limit { result ≤ front_len }
    {
        self.len
    }

    pub fn is_empty(&self) -> bool
        ensures { result ≡ (length self.now == 0) }
    {
        self.len == 0
    }

    /// The bytes, lent.
    pub fn as_slice(&self) -> &[u8]
        ensures { result.now ≡ self.now }
    {
        &self.bytes[..self.len]
    }
}
