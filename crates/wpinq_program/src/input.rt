//! Reading from the source.
ghost use Rattle.std.specs.Prelude.{◌≡◌, ◌+◌, ◌<◌, ◌≤◌, ℕ, List, ◌++◌, length, take, IfOk};
ghost use Rattle.io_edge.specs.Known.{Loses, ReadOutcome};
ghost use Rattle.io_edge.specs.Causes.{HasCause};
ghost use Rattle.wpinq_program.specs.Stream.{BeyondIs};

use crate::beyond::Beyond;
use io_edge::{Failed, Source};

/// Reads at most so many bytes to the front of the buffer.
pub fn read_some<S: Source>(src: &mut S, buf: &mut [u8], most: u64) -> Result<usize, Failed>
    requires room { 0 < length buf.old }
    requires some { 0 < most }
    ensures most { IfOk result (λ n. n ≤ most) }
    ensures bound { IfOk result (λ n. n ≤ length buf.new) }
    ensures bytes { ReadOutcome (S.left src.old) (S.left src.new) result buf.new }
    ensures cause { HasCause (S.faults src.old) (S.faults src.new) result }
{
    if (buf.len() as u64) <= most {
        src.read(buf)
    } else {
        src.read(&mut buf[..most as usize])
    }
}

/// Reads one byte where the input should be at its end.
pub fn read_beyond<S: Source>(src: &mut S) -> Beyond
    ensures read { (more : List ℕ) × Loses (S.left src.old) (S.left src.new) more
        × BeyondIs result more (S.left src.new) (S.faults src.old) (S.faults src.new) }
    ensures later { S.faults src.old ≤ S.faults src.new }
{
    let mut byte = [0u8; 1];
    match src.read(&mut byte) {
        Ok(0) => Beyond::End,
        Ok(_) => Beyond::Byte,
        Err(_) => Beyond::Fault,
    }
}
