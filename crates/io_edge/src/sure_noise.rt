ghost use Rattle.std.specs.Prelude.{◌≡◌, ◌≤◌, pos, Ok, None};
ghost use Rattle.io_edge.specs.Causes.{HasCause};
ghost use Rattle.io_edge.specs.Known.{DrawOutcome};
ghost use Rattle.io_edge.specs.Limits.{max_epsilon};

use crate::{Failed, Noise};

/// A source of noise that always gives 0.
#[derive(Drop)]
pub struct SureNoise;

impl SureNoise {
    /// A source of zeros.
    pub fn new() -> SureNoise {
        SureNoise
    }
}

impl Noise for SureNoise {
    ghost given = { λ _. None };

    ghost faults = { λ _. 0 };

    fn draw(&mut self, _eps: u64) -> Result<i64, Failed>
        requires low { 1 ≤ _eps }
        requires high { _eps ≤ max_epsilon }
        ensures number { DrawOutcome None None result _eps }
        ensures cause { HasCause 0 0 result }

        ensures zero { result ≡ Ok (pos 0) }
    {
        Ok(0)
    }
}
