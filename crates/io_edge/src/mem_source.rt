ghost use Rattle.std.specs.Prelude.{◌≡◌, ◌+◌, ◌<◌, ◌≤◌, ◌↔◌, length, drop, min, Some, IsErr, Contains, IfOk, OnErr};
ghost use Rattle.io_edge.specs.Causes.{HasCause, capped};
ghost use Rattle.io_edge.specs.Known.{ReadOutcome};

use crate::copy::copy_front;
use crate::{Failed, Source};
use std::marker::Model;

/// A source in memory. It gives at most a piece in a call, and fails at the calls whose numbers,
/// from 0, are listed.
#[derive(Drop)]
pub struct MemSource {
    bytes: Vec<u8>,
    at: usize,
    piece: usize,
    fails: Vec<u64>,
    calls: u64,
    faults: u64,
}

impl Model for MemSource {
    ghost use Rattle.std.specs.Prelude.{◌≤◌, drop, vec_len};
    ghost use Rattle.io_edge.specs.Devices.{MemorySource};

    ghost Value = { MemorySource };

    ghost view = { λ s. record {
      left = drop s.at s.bytes.items;
      piece = s.piece;
      fails = s.fails.items;
      calls = s.calls;
      faults = s.faults;
    } };

    ghost invariant = { λ s. (s.at ≤ vec_len s.bytes) × (1 ≤ s.piece) };
}

impl MemSource {
    /// A source of these bytes, at most `piece` in a call.
    pub fn new(bytes: Vec<u8>, piece: usize, fails: Vec<u64>) -> MemSource
        requires { 1 ≤ piece }
        ensures { result ≡ record {
          left = bytes.items;
          piece = piece;
          fails = fails.items;
          calls = 0;
          faults = 0;
        } }
    {
        MemSource {
            bytes,
            at: 0,
            piece,
            fails,
            calls: 0,
            faults: 0,
        }
    }
}

impl Source for MemSource {
    ghost left = { λ s. Some s.left };

    ghost faults = { λ s. s.faults };

    fn read(&mut self, buf: &mut [u8]) -> Result<usize, Failed>
        requires { 0 < length buf.old }
        ensures bound { IfOk result (λ n. n ≤ length buf.new) }
        ensures bytes { ReadOutcome (Some self.old.left) (Some self.new.left) result buf.new }
        ensures cause { HasCause self.old.faults self.new.faults result }

        ensures fails { IsErr result ↔ Contains self.old.fails self.old.calls }
        ensures failed { OnErr result (self.new ≡ record self.old {
          calls = capped (self.old.calls + 1);
          faults = capped (self.old.faults + 1);
        }) }
        ensures count { IfOk result (λ n. n ≡ min (min (length self.old.left) (length buf.old)) self.old.piece) }
        ensures given { IfOk result (λ n. self.new ≡ record self.old {
          left = drop n self.old.left;
          calls = capped (self.old.calls + 1);
        }) }
    {
        let call = self.calls;
        self.calls = self.calls.saturating_add(1);
        if self.fails.contains(&call) {
            self.faults = self.faults.saturating_add(1);
            return Err(Failed);
        }
        let count = copy_front(&self.bytes[self.at..], self.piece, buf);
        self.at += count;
        Ok(count)
    }
}
