//! The line that is not whole yet.
ghost use Rattle.std.specs.Prelude.{◌≡◌, ◌==◌, [], ◌++◌, length, IfOk};
ghost use Rattle.line_runs.specs.Lines.{without_cr};
ghost use Rattle.wpinq_program.specs.Limits.{kept_of};

use session_core::{MAX_LINE, Memory};
use std::alloc::Global;
use std::marker::Model;

/// How many bytes of a line are kept: one past the limit, and a CR that is dropped at the end, so that
/// what is kept of an overlong line is overlong.
const KEPT: usize = MAX_LINE + 2;

/// The front of a line that is not whole yet, of at most `KEPT` bytes. Its memory is taken at the start.
#[derive(Drop)]
pub struct LineBuffer {
    bytes: Vec<u8>,
}

impl Model for LineBuffer {
    ghost use Rattle.std.specs.Prelude.{◌≤◌, ℕ, List, vec_len, vec_capacity};
    ghost use Rattle.wpinq_program.specs.Limits.{kept_len};

    ghost Value = { List ℕ };

    ghost view = { λ buffer. buffer.bytes.items };

    ghost invariant = { λ buffer. (vec_len buffer.bytes ≤ kept_len) × (kept_len ≤ vec_capacity buffer.bytes) };
}

impl LineBuffer {
    pub fn new(alloc: Global) -> Result<Self, Memory>
        ensures { IfOk result (λ buffer. buffer ≡ []) }
    {
        let bytes = Vec::with_capacity(alloc, KEPT)?;
        Ok(LineBuffer { bytes })
    }

    /// Appends the bytes, as many as are kept.
    pub fn extend(&mut self, bytes: &[u8])
        ensures { self.new ≡ kept_of (self.old ++ bytes.now) }
    {
        let room = KEPT - self.bytes.len();
        let kept = bytes.len().min(room);
        self.bytes.extend_from_slice(&bytes[..kept]).unwrap();
    }

    pub fn clear(&mut self)
        ensures { self.new ≡ [] }
    {
        self.bytes.clear();
    }

    pub fn is_empty(&self) -> bool
        ensures { result ≡ (length self.now == 0) }
    {
        self.bytes.is_empty()
    }

    /// The line, without one CR at its end.
    pub fn line(&self) -> &[u8]
        ensures { result.now ≡ without_cr self.now }
    {
        match self.bytes.as_slice() {
            [line @ .., b'\r'] => line,
            line => line,
        }
    }
}
