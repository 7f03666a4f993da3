ghost use Rattle.std.specs.Prelude.{◌≡◌, ◌+◌, ◌-◌, ◌<◌, ◌≤◌, ◌⊎◌, ◌↔◌, [], ◌++◌, length, take, min, Some, IsErr, Contains, IfOk, OnErr};
ghost use Rattle.io_edge.specs.Causes.{HasCause, capped};
ghost use Rattle.io_edge.specs.Known.{WriteOutcome};

use crate::{Failed, Memory, Sink};
use std::alloc::Global;
use std::marker::Model;

/// A sink in memory. It takes at most a piece in a call, and fails once its room is full and at the
/// calls whose numbers, from 0, are listed.
#[derive(Drop)]
pub struct MemSink {
    bytes: Vec<u8>,
    room: usize,
    piece: usize,
    fails: Vec<u64>,
    calls: u64,
    faults: u64,
}

impl Model for MemSink {
    ghost use Rattle.std.specs.Prelude.{◌≤◌, vec_len, vec_capacity};
    ghost use Rattle.io_edge.specs.Devices.{MemorySink};

    ghost Value = { MemorySink };

    ghost view = { λ s. record {
      written = s.bytes.items;
      room = s.room;
      piece = s.piece;
      fails = s.fails.items;
      calls = s.calls;
      faults = s.faults;
    } };

    // the whole room is reserved, so that a write needs no memory
    ghost invariant = { λ s. (vec_len s.bytes ≤ s.room) × (s.room ≤ vec_capacity s.bytes) × (1 ≤ s.piece) };
}

impl MemSink {
    /// An empty sink with room for so many bytes, which it reserves. A call takes at most `piece`.
    pub fn new(alloc: Global, room: usize, piece: usize, fails: Vec<u64>) -> Result<MemSink, Memory>
        requires { 1 ≤ piece }
        ensures { IfOk result (λ sink. sink ≡ record {
          written = [];
          room = room;
          piece = piece;
          fails = fails.items;
          calls = 0;
          faults = 0;
        }) }
    {
        let bytes = Vec::with_capacity(alloc, room)?;
        Ok(MemSink {
            bytes,
            room,
            piece,
            fails,
            calls: 0,
            faults: 0,
        })
    }

    /// The bytes that it took.
    pub fn bytes(&self) -> &[u8]
        ensures { result.now ≡ self.now.written }
    {
        &self.bytes
    }
}

impl Sink for MemSink {
    ghost written = { λ s. Some s.written };

    ghost faults = { λ s. s.faults };

    fn write(&mut self, piece: &[u8]) -> Result<usize, Failed>
        requires { 0 < length piece.now }
        ensures bound { IfOk result (λ n. (1 ≤ n) × (n ≤ length piece.now)) }
        ensures bytes { WriteOutcome (Some self.old.written) (Some self.new.written) result piece.now }
        ensures cause { HasCause self.old.faults self.new.faults result }

        ensures fails { IsErr result
            ↔ ((self.old.room ≤ length self.old.written) ⊎ Contains self.old.fails self.old.calls) }
        ensures failed { OnErr result (self.new ≡ record self.old {
          calls = capped (self.old.calls + 1);
          faults = capped (self.old.faults + 1);
        }) }
        ensures count { let free = self.old.room - length self.old.written in
            IfOk result (λ n. n ≡ min (min (length piece.now) free) self.old.piece) }
        ensures written { IfOk result (λ n. self.new ≡ record self.old {
          written = self.old.written ++ take n piece.now;
          calls = capped (self.old.calls + 1);
        }) }
    {
        let call = self.calls;
        self.calls = self.calls.saturating_add(1);
        if self.bytes.len() >= self.room || self.fails.contains(&call) {
            self.faults = self.faults.saturating_add(1);
            return Err(Failed);
        }
        let count = piece
            .len()
            .min(self.room - self.bytes.len())
            .min(self.piece);
        self.bytes.extend_from_slice(&piece[..count]).unwrap();
        Ok(count)
    }
}
