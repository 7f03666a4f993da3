//! How often a step uses each source.
ghost use Rattle.std.specs.Prelude.{◌≡◌, IfOk, IsTrue, List, length, true};
ghost use Rattle.std.specs.List.{list_all};
ghost use Rattle.plan_model.specs.Acceptance.{are_few};
ghost use Rattle.plan_model.specs.Limits.{is_step};
ghost use Rattle.plan_model.specs.Uses.{count_at, uses_step};
ghost use Rattle.plan_checker.specs.Steps.{counts_of, row_step};

use crate::places::place_of;
use plan_model::{Memory, SourceTypes, Step};
use std::alloc::Global;
use std::marker::Model;

// The most that a step may use a source.
const MAX_USES: u64 = 1_000_000;

/// How often a step uses each source, in the order of the sources.
#[derive(Debug, Drop)]
pub struct Counts {
    list: Vec<u64>,
}

impl Model for Counts {
    ghost use Rattle.std.specs.Prelude.{ℕ, List};

    ghost Value = { List ℕ };

    ghost view = { λ counts. counts.list.items };
}

impl Counts {
    /// How often the source at a place is used; 0 past the last source.
    pub fn at(&self, source: usize) -> u64
        ensures { result ≡ count_at self.now source }
    {
        match self.list.get(source) {
            Some(uses) => *uses,
            None => 0,
        }
    }

    /// No source is used more often than it may.
    pub fn are_few(&self) -> bool
        ensures { result ≡ are_few self.now }
    {
        self.list.iter().all(|uses| *uses <= MAX_USES)
    }
}

// How often a step uses a source.
fn uses_of(types: &SourceTypes, step: &Step, source: usize, made: &[Counts]) -> u64
    requires step { IsTrue (is_step (length made.now) step.now) }
    requires few { list_all are_few made.now ≡ true }
    ensures { result ≡ uses_step types.now source step.now (counts_of source made.now) }
{
    match step {
        Step::Source { name } => {
            if place_of(name, types) == Some(source) {
                1
            } else {
                0
            }
        }
        Step::Filter { of, .. }
        | Step::Select { of, .. }
        | Step::Many { of, .. }
        | Step::Shave { of, .. }
        | Step::Group { of, .. } => made[*of].at(source),
        Step::Set { left, right, .. } | Step::Join { left, right, .. } => {
            made[*left].at(source) + made[*right].at(source)
        }
    }
}

// How often a step uses each source.
pub(crate) fn counts_step(
    alloc: Global,
    types: &SourceTypes,
    step: &Step,
    made: &[Counts],
) -> Result<Counts, Memory>
    requires step { IsTrue (is_step (length made.now) step.now) }
    requires few { list_all are_few made.now ≡ true }
    ensures { IfOk result (λ counts. counts ≡ row_step types.now step.now made.now) }
{
    let mut list = Vec::new(alloc);
    for source in 0..types.len() {
        list.push(uses_of(types, step, source, made))?;
    }
    Ok(Counts { list })
}
