//! Plans.
ghost use Rattle.std.specs.Prelude.{◌≡◌, ◌<◌, IfOk, IsTrue, length, slice_get};
ghost use Rattle.plan_model.specs.Limits.{is_plan};

use crate::step::Step;
use record_text::Memory;
use std::alloc::Global;
use std::marker::Model;

/// A plan, seen as its steps. It has 1 to 64 of them, each refers to earlier steps alone, and the last
/// one is the output. All parts are within the limits of plans.
#[derive(Debug, Drop)]
pub struct Plan {
    steps: Vec<Step>,
}

impl Model for Plan {
    ghost use Rattle.std.specs.Coded.{codes};
    ghost use Rattle.std.specs.Prelude.{IsTrue, List};
    ghost use Rattle.plan_model.specs.Limits.{is_plan};
    ghost use Rattle.plan_model.specs.contracts.step.Step as step;
    ghost use Rattle.plan_model.specs.declared.step.Step.{Step};

    ghost Value = { List Step };

    ghost coded = { Prim.hlevel (codes, step.the_row.coded) };

    ghost view = { λ plan. plan.steps.items };

    ghost invariant = { λ plan. IsTrue (is_plan plan.steps.items) };
}

impl Plan {
    /// The plan of these steps, which are those of a plan.
    pub fn from_steps(steps: Vec<Step>) -> Plan
        requires { IsTrue (is_plan steps.items) }
        ensures { result ≡ steps.items }
    {
        Plan { steps }
    }

    /// How many steps there are, 1 to 64.
    pub fn len(&self) -> usize
        ensures value { result ≡ length self.now }
        ensures plan { IsTrue (is_plan self.now) }
    {
        self.steps.len()
    }

    /// The step at a place, from 0.
    pub fn step(&self, at: usize) -> &Step
        requires { at < length self.now }
        ensures { slice_get self.now at ≡ Some result.now }
    {
        &self.steps[at]
    }

    /// An equal plan.
    pub fn try_copy(&self, alloc: Global) -> Result<Plan, Memory>
        ensures { IfOk result (λ copy. copy ≡ self.now) }
    {
        let mut steps = Vec::with_capacity(alloc, self.steps.len())?;
        for step in self.steps.as_slice() {
            let copy = step.try_copy(alloc)?;
            steps.push(copy)?;
        }
        Ok(Plan { steps })
    }
}

/// Why a plan is not accepted for some sources.
#[derive(Clone, Copy, Debug, PartialEq, Eq)]
pub enum What {
    /// A source step names no source.
    UnknownSource,
    /// An expression or a reducer reads a column at or past the width.
    Column,
    /// An expression has no kind, or a test, an item, an input, a key or a reducer has the wrong one.
    Kind,
    /// The output has over 16 columns.
    TooWide,
    /// A group's input may be negative.
    Negative,
    /// A source is used over 1,000,000 times.
    UsesOver,
}
