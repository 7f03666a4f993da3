ghost use Rattle.std.specs.Prelude.{◌≡◌, ◌+◌, ◌<◌, ◌≤◌, length, IfOk, OnOk, OnErr, None};
ghost use Rattle.std.specs.Io.KnownBytes.{ReadConsumes};
ghost use Rattle.io_edge.specs.Causes.{HasCause, capped};
ghost use Rattle.io_edge.specs.Known.{ReadOutcome};

use crate::{Failed, Source};
use std::io::{Read, Stdin};

/// A source over a reader, which is read once in each call. An error of the reader is a fault.
///
/// As a source it tells no bytes, since a reader may tell them later only. What the reader tells is in the
/// contract of `read`.
#[derive(Drop)]
pub struct ReaderSource<R: Read + Drop> {
    reader: R,
    faults: u64,
}

/// The standard input.
pub type StdSource = ReaderSource<Stdin>;

impl<R: Read + Drop> ReaderSource<R> {
    /// A source over this reader, which has not failed yet.
    pub fn new(reader: R) -> ReaderSource<R>
        ensures { result ≡ record { reader = reader; faults = 0 } }
    {
        ReaderSource { reader, faults: 0 }
    }
}

impl<R: Read + Drop> Source for ReaderSource<R> {
    ghost left = { λ _. None };

    ghost faults = { λ s. s.faults };

    fn read(&mut self, buf: &mut [u8]) -> Result<usize, Failed>
        requires { 0 < length buf.old }
        ensures bound { IfOk result (λ n. n ≤ length buf.new) }
        ensures bytes { ReadOutcome None None result buf.new }
        ensures cause { HasCause self.old.faults self.new.faults result }

        ensures taken { ReadConsumes (R.remaining self.old.reader) (R.remaining self.new.reader) result buf.new }
        ensures failed { OnErr result (self.new.faults ≡ capped (self.old.faults + 1)) }
        ensures quiet { OnOk result (self.new.faults ≡ self.old.faults) }
    {
        match self.reader.read(buf) {
            Ok(count) => Ok(count),
            Err(_) => {
                self.faults = self.faults.saturating_add(1);
                Err(Failed)
            }
        }
    }
}
