ghost use Rattle.std.specs.Prelude.{◌≡◌, ◌+◌, ◌≤◌, ◌⊎◌, ◌↔◌, [], ◌∷◌, ◌++◌, Some, IsErr, Contains, IfOk, OnErr};
ghost use Rattle.io_edge.specs.Causes.{HasCause, capped};
ghost use Rattle.io_edge.specs.Known.{DrawOutcome};
ghost use Rattle.io_edge.specs.Limits.{max_epsilon};

use crate::{Failed, Memory, Noise};
use std::alloc::Global;
use std::marker::Model;

/// A source of noise in memory. It gives its numbers in order, and fails after the last and at the calls whose
/// numbers, from 0, are listed.
#[derive(Drop)]
pub struct MemNoise {
    numbers: Vec<i64>,
    given: Vec<(u64, i64)>,
    fails: Vec<u64>,
    calls: u64,
    faults: u64,
}

impl Model for MemNoise {
    ghost use Rattle.std.specs.Prelude.{◌≤◌, drop, vec_len, vec_capacity};
    ghost use Rattle.io_edge.specs.Devices.{MemoryNoise};

    ghost Value = { MemoryNoise };

    ghost view = { λ n. record {
      given = n.given.items;
      left = drop (vec_len n.given) n.numbers.items;
      fails = n.fails.items;
      calls = n.calls;
      faults = n.faults;
    } };

    // there is room for what is given, so that a draw needs no memory
    ghost invariant = { λ n. (vec_len n.given ≤ vec_len n.numbers) × (vec_len n.numbers ≤ vec_capacity n.given) };
}

impl MemNoise {
    /// A source of these numbers. It takes the room for what it gives.
    pub fn new(alloc: Global, numbers: Vec<i64>, fails: Vec<u64>) -> Result<MemNoise, Memory>
        ensures { IfOk result (λ noise. noise ≡ record {
          given = [];
          left = numbers.items;
          fails = fails.items;
          calls = 0;
          faults = 0;
        }) }
    {
        let given = Vec::with_capacity(alloc, numbers.len())?;
        Ok(MemNoise {
            numbers,
            given,
            fails,
            calls: 0,
            faults: 0,
        })
    }
}

impl Noise for MemNoise {
    ghost given = { λ n. Some n.given };

    ghost faults = { λ n. n.faults };

    fn draw(&mut self, eps: u64) -> Result<i64, Failed>
        requires low { 1 ≤ eps }
        requires high { eps ≤ max_epsilon }
        ensures number { DrawOutcome (Some self.old.given) (Some self.new.given) result eps }
        ensures cause { HasCause self.old.faults self.new.faults result }

        ensures fails { IsErr result ↔ ((self.old.left ≡ []) ⊎ Contains self.old.fails self.old.calls) }
        ensures failed { OnErr result (self.new ≡ record self.old {
          calls = capped (self.old.calls + 1);
          faults = capped (self.old.faults + 1);
        }) }
        ensures next { IfOk result (λ number. self.old.left ≡ number ∷ self.new.left) }
        ensures given { IfOk result (λ number. self.new ≡ record self.old {
          given = self.old.given ++ (eps, number) ∷ [];
          left = self.new.left;
          calls = capped (self.old.calls + 1);
        }) }
    {
        let call = self.calls;
        self.calls = self.calls.saturating_add(1);
        let at = self.given.len();
        if at >= self.numbers.len() || self.fails.contains(&call) {
            self.faults = self.faults.saturating_add(1);
            return Err(Failed);
        }
        let number = self.numbers[at];
        self.given.push((eps, number)).unwrap();
        Ok(number)
    }
}
