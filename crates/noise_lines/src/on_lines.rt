//! Noise from lines.
ghost use Rattle.std.specs.Prelude.{◌≡◌, ◌+◌, ◌≤◌, [], None, OnErr, OnOk};
ghost use Rattle.io_edge.specs.Causes.{HasCause, capped};
ghost use Rattle.io_edge.specs.Known.{DrawOutcome};
ghost use Rattle.io_edge.specs.Limits.{max_epsilon};
ghost use Rattle.noise_lines.specs.Taken.{Drawn, NextNumber};

use crate::front::LineFront;
use crate::number::number_on;
use crate::take::{Taken, take_line};
use io_edge::{Failed, Noise, Source};
use std::alloc::Global;

/// The numbers on the lines of a source, whatever epsilon is. Each draw takes one line. A line without a number is a
/// fault and is used up; the source's end is a fault, and so is a fault of the source, after which the next draw goes
/// on with the line that is begun.
///
/// As noise it tells no numbers. What it takes of a source that tells its bytes is in the contract of `draw`.
#[derive(Drop)]
pub struct LineNoise<S: Source + Drop> {
    source: S,
    begun: LineFront,
    alloc: Global,
    faults: u64,
}

impl<S: Source + Drop> LineNoise<S> {
    /// Noise from the lines of this source, which has not failed yet.
    pub fn new(alloc: Global, source: S) -> LineNoise<S>
        ensures source { result.source ≡ source }
        ensures begun { result.begun ≡ [] }
        ensures faults { result.faults ≡ 0 }
    {
        LineNoise {
            source,
            begun: LineFront::new(),
            alloc,
            faults: 0,
        }
    }
}

impl<S: Source + Drop> Noise for LineNoise<S> {
    ghost given = { λ _. None };

    ghost faults = { λ n. n.faults };

    fn draw(&mut self, _eps: u64) -> Result<i64, Failed>
        requires low { 1 ≤ _eps }
        requires high { _eps ≤ max_epsilon }
        ensures number { DrawOutcome None None result _eps }
        ensures cause { HasCause self.old.faults self.new.faults result }

        ensures line { Drawn self.old.begun (S.left self.old.source) (S.left self.new.source)
            (S.faults self.old.source) (S.faults self.new.source) result self.new.begun }
        ensures failed { OnErr result (self.new.faults ≡ capped (self.old.faults + 1)) }
        ensures quiet { OnOk result (self.new.faults ≡ self.old.faults) }
    {
        match next_number(self.alloc, &mut self.source, &mut self.begun) {
            Some(number) => Ok(number),
            None => {
                self.faults = self.faults.saturating_add(1);
                Err(Failed)
            }
        }
    }
}

// The number on the line that is begun, whose rest is taken.
fn next_number<S: Source>(alloc: Global, source: &mut S, begun: &mut LineFront) -> Option<i64>
    ensures { NextNumber begun.old (S.left source.old) (S.left source.new)
        (S.faults source.old) (S.faults source.new) result begun.new }
{
    match take_line(source, begun) {
        Taken::Line => {
            let number = number_on(alloc, begun.as_slice());
            begun.clear();
            number
        }
        _ => None,
    }
}
