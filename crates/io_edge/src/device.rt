//! The traits of the devices.
//!
//! Every device has a count of its faults, of 64 bits, which stands still at its end. What else contracts
//! say of a device is optional: `None` says nothing, and stays `None`.
#![tactic(auto)]

ghost use Rattle.std.specs.Prelude.{◌≡◌, ◌<◌, ◌≤◌, ℕ, ℤ, List, Option, IfOk, IsTrue, length};
ghost use Rattle.io_edge.specs.Causes.{HasCause, ShelfHasCause};
ghost use Rattle.io_edge.specs.Limits.{fetch_limit, max_epsilon};
ghost use Rattle.io_edge.specs.Path.{is_path};
ghost use Rattle.io_edge.specs.Shelf.{Files, FetchOutcome};
ghost use Rattle.io_edge.specs.Known.{ReadOutcome, WriteOutcome, DrawOutcome};

use crate::{Failed, ShelfFault};

/// A source of bytes.
pub trait Source {
    // the bytes not given yet, where they are known
    ghost left: { Self → Option (List ℕ) };

    // how often it failed
    ghost faults: { Self → ℕ };

    /// Puts the next bytes at the front of `buf`, and answers how many. `Ok(0)` is the end.
    fn read(&mut self, buf: &mut [u8]) -> Result<usize, Failed>
        requires { 0 < length buf.old }
        ensures bound { IfOk result (λ n. n ≤ length buf.new) }
        ensures bytes { ReadOutcome (left self.old) (left self.new) result buf.new }
        ensures cause { HasCause (faults self.old) (faults self.new) result };
}

/// A sink of bytes.
pub trait Sink {
    // the bytes that it took, where they are known
    ghost written: { Self → Option (List ℕ) };

    // how often it failed
    ghost faults: { Self → ℕ };

    /// Takes bytes from the front of `piece`, at least one, and answers how many.
    fn write(&mut self, piece: &[u8]) -> Result<usize, Failed>
        requires { 0 < length piece.now }
        ensures bound { IfOk result (λ n. (1 ≤ n) × (n ≤ length piece.now)) }
        ensures bytes { WriteOutcome (written self.old) (written self.new) result piece.now }
        ensures cause { HasCause (faults self.old) (faults self.new) result };
}

/// A source of noise.
pub trait Noise {
    // the numbers that it gave, each after its epsilon, where they are known
    ghost given: { Self → Option (List (ℕ × ℤ)) };

    // how often it failed
    ghost faults: { Self → ℕ };

    /// A number of noise at an epsilon of `eps` millionths, from 1 to 1,000,000,000.
    fn draw(&mut self, eps: u64) -> Result<i64, Failed>
        requires low { 1 ≤ eps }
        requires high { eps ≤ max_epsilon }
        ensures number { DrawOutcome (given self.old) (given self.new) result eps }
        ensures cause { HasCause (faults self.old) (faults self.new) result };
}

/// A shelf of files, which never change.
pub trait Shelf {
    // the files, where they are known
    ghost files: { Self → Option Files };

    // how often it failed
    ghost faults: { Self → ℕ };

    /// Puts the file at `path` into `into`, which it empties first: the whole file, or one byte more than `max` of a
    /// longer one.
    fn fetch(&mut self, path: &[u8], max: usize, into: &mut Vec<u8>) -> Result<(), ShelfFault>
        requires path { IsTrue (is_path path.now) }
        requires max { max < fetch_limit }
        ensures gives { FetchOutcome (files self.old) path.now max result into.new.items }
        ensures kept { files self.new ≡ files self.old }
        ensures cause { ShelfHasCause (faults self.old) (faults self.new) result };
}
