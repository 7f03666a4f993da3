//! The check of a plan.
ghost use Rattle.std.specs.Prelude.{◌≡◌, IfErr, IfOk};
ghost use Rattle.plan_checker.specs.Checked.{IsChecked, IsPlanFault};
ghost use Rattle.plan_checker.specs.Stability.{IsStable};
ghost use Rattle.plan_checker.specs.declared.walk.PlanFault.TheVariants as fault;

use crate::Memory;
use crate::checked::Checked;
use crate::checks::first_fault;
use crate::counts::counts_step;
use crate::made::Made;
use plan_model::{Plan, SourceTypes, What};
use std::alloc::Global;
use thiserror::Error;

/// Why a plan is not accepted. Steps count from 0.
#[derive(Clone, Copy, Debug, PartialEq, Eq, Error)]
pub enum PlanFault {
    /// The first step that has a fault, and its first fault in the order of the checks.
    #[error("step {step} of the plan has a fault: {what:?}")]
    At { step: usize, what: What },
    /// There was no memory.
    #[error("out of memory")]
    Memory,
}

impl From<Memory> for PlanFault {
    ghost from_gives = { λ _ e. e ≡ fault.Memory };

    fn from(_e: Memory) -> PlanFault {
        PlanFault::Memory
    }
}

/// Checks the plan for sources of these types, step by step. An accepted plan has no fault, and its columns, its
/// sign and its uses are told; of another one the first fault of the first step that has one. In any two worlds that
/// keep the kinds and signs of the sources, an accepted plan's outputs are no further apart than the sources are, each
/// as often as the uses say.
pub fn check(alloc: Global, plan: &Plan, types: &SourceTypes) -> Result<Checked, PlanFault>
    ensures ok { IfOk result (λ checked. IsChecked plan.now types.now checked) }
    ensures err { IfErr result (IsPlanFault plan.now types.now) }
    ensures stable { IfOk result (λ checked. IsStable plan.now types.now checked.uses) }
{
    let mut made = Made::new(alloc);
    for at in 0..plan.len() {
        let step = plan.step(at);
        let counts = counts_step(alloc, types, step, made.counts.as_slice())?;
        let columns = made.columns.as_slice();
        let signs = made.signs.as_slice();
        if let Some(what) = first_fault(types, step, columns, signs, &counts) {
            return Err(PlanFault::At { step: at, what });
        }
        made.push(types, step, counts)?;
    }
    Ok(made.last())
}
