//! What is made of the steps of a plan, one after the other.
ghost use Rattle.std.specs.Prelude.{◌≡◌, ◌<◌, [], ◌∷◌, ◌++◌, IfOk, IsTrue, None, OnOk, length, true};
ghost use Rattle.plan_model.specs.Acceptance.{first_fault};
ghost use Rattle.plan_model.specs.Evaluation.{last_or};
ghost use Rattle.plan_model.specs.Limits.{is_step};
ghost use Rattle.plan_model.specs.Types.{columns_step, sign_step};

use crate::checked::Checked;
use crate::columns::{columns_of, sign_of};
use crate::counts::Counts;
use plan_model::{Memory, SourceTypes, Step};
use record_text::Kinds;
use std::alloc::Global;

// The columns, the signs and the counts by source of the steps so far.
#[derive(Debug, Drop)]
pub(crate) struct Made {
    pub(crate) columns: Vec<Kinds>,
    pub(crate) signs: Vec<bool>,
    pub(crate) counts: Vec<Counts>,
}

impl Made {
    // Nothing, before the first step.
    pub(crate) fn new(alloc: Global) -> Made
        ensures columns { result.columns.items ≡ [] }
        ensures signs { result.signs.items ≡ [] }
        ensures counts { result.counts.items ≡ [] }
    {
        Made {
            columns: Vec::new(alloc),
            signs: Vec::new(alloc),
            counts: Vec::new(alloc),
        }
    }

    // Adds what is made of a step that has no fault.
    pub(crate) fn push(
        &mut self,
        types: &SourceTypes,
        step: &Step,
        counts: Counts,
    ) -> Result<(), Memory>
        requires columns { IsTrue (is_step (length self.old.columns.items) step.now) }
        requires signs { IsTrue (is_step (length self.old.signs.items) step.now) }
        requires faultless { first_fault types.now step.now self.old.columns.items self.old.signs.items counts ≡ None }
        ensures columns { OnOk result (self.new.columns.items ≡ self.old.columns.items ++ columns_step types.now step.now self.old.columns.items ∷ []) }
        ensures signs { OnOk result (self.new.signs.items ≡ self.old.signs.items ++ sign_step types.now step.now self.old.signs.items ∷ []) }
        ensures counts { OnOk result (self.new.counts.items ≡ self.old.counts.items ++ counts ∷ []) }
    {
        let columns = columns_of(types, step, self.columns.as_slice());
        let sign = sign_of(types, step, self.signs.as_slice());
        self.columns.push(columns)?;
        self.signs.push(sign)?;
        self.counts.push(counts)?;
        Ok(())
    }

    // What is made of the last step.
    pub(crate) fn last(self) -> Checked
        requires columns { 0 < length self.columns.items }
        requires signs { 0 < length self.signs.items }
        requires counts { 0 < length self.counts.items }
        ensures columns { result.columns ≡ last_or [] self.columns.items }
        ensures sign { result.sign ≡ last_or true self.signs.items }
        ensures uses { result.uses ≡ last_or [] self.counts.items }
    {
        let mut made = self;
        let Some(columns) = made.columns.pop() else {
            unreachable!()
        };
        let Some(sign) = made.signs.pop() else {
            unreachable!()
        };
        let Some(counts) = made.counts.pop() else {
            unreachable!()
        };
        Checked::new(columns, sign, counts)
    }
}
