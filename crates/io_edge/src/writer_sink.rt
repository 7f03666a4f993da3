ghost use Rattle.std.specs.Prelude.{◌≡◌, ◌+◌, ◌<◌, ◌≤◌, length, IfOk, OnOk, OnErr, None};
ghost use Rattle.std.specs.Io.KnownBytes.{WriteAppends};
ghost use Rattle.io_edge.specs.Causes.{HasCause, capped};
ghost use Rattle.io_edge.specs.Known.{WriteOutcome};

use crate::{Failed, Sink};
use std::io::{Stdout, Write};

/// A sink over a writer, which is written to once in each call. An error of the writer is a fault, and
/// so it is where the writer takes nothing.
///
/// As a sink it tells no bytes, since a writer may tell them later only. What the writer tells is in the
/// contract of `write`. It keeps no bytes back.
#[derive(Drop)]
pub struct WriterSink<W: Write + Drop> {
    writer: W,
    faults: u64,
}

/// The standard output.
pub type StdSink = WriterSink<Stdout>;

impl<W: Write + Drop> WriterSink<W> {
    /// A sink over this writer, which has not failed yet.
    pub fn new(writer: W) -> WriterSink<W>
        ensures { result ≡ record { writer = writer; faults = 0 } }
    {
        WriterSink { writer, faults: 0 }
    }
}

impl<W: Write + Drop> Sink for WriterSink<W> {
    ghost written = { λ _. None };

    ghost faults = { λ s. s.faults };

    fn write(&mut self, piece: &[u8]) -> Result<usize, Failed>
        requires { 0 < length piece.now }
        ensures bound { IfOk result (λ n. (1 ≤ n) × (n ≤ length piece.now)) }
        ensures bytes { WriteOutcome None None result piece.now }
        ensures cause { HasCause self.old.faults self.new.faults result }

        ensures appended { WriteAppends (W.contents self.old.writer) (W.contents self.new.writer) result piece.now }
        ensures failed { OnErr result (self.new.faults ≡ capped (self.old.faults + 1)) }
        ensures quiet { OnOk result (self.new.faults ≡ self.old.faults) }
    {
        match self.writer.write(piece) {
            Ok(count) if count > 0 => Ok(count),
            _ => {
                self.faults = self.faults.saturating_add(1);
                Err(Failed)
            }
        }
    }
}
