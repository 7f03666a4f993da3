//! Exact weights of rows, for the curator alone.
ghost use Rattle.std.specs.Prelude.{◌≡◌, ◌+◌, ◌*◌, ◌≤◌, [], IfOk, length, map};
ghost use Rattle.datasets.specs.Dataset.{at};
ghost use Rattle.messages.specs.declared.target.Target.TheVariants as target;
ghost use Rattle.request_machine.specs.LookUps.{exact_reply, first_row_fault, row_refusal};
ghost use Rattle.session_core.specs.Parts.{AreSettled, state_of};

use crate::parts::Parts;
use record_text::{Kinds, Name, Row};
use request_text::{Memory, Refusal, Reply, Target, Thing, Weights};
use std::alloc::Global;
use std::collections::BTreeSet;
use std::sync::ledger::Ledger;
use steps::Steps;
use weighted_set::HeldSet;

impl Parts {
    /// The weights of rows in a source or in the output of a plan.
    pub fn exact<L: Ledger>(
        &self,
        of: Target,
        rows: &[Row],
        steps: &mut Steps<L>,
    ) -> Result<Reply, Memory>
        requires { AreSettled self.now }
        ensures work { steps.new ≤ steps.old + 2 * length rows.now }
        ensures reply { IfOk result (λ reply. reply ≡ exact_reply (state_of self.now) of rows.now) }
    {
        match of {
            Target::Source(name) => self.exact_in_source(name, rows),
            Target::Plan(name) => self.exact_in_plan(name, rows, steps),
        }
    }

    // The weights of rows in a source.
    fn exact_in_source(&self, name: Name, rows: &[Row]) -> Result<Reply, Memory>
        requires { AreSettled self.now }
        ensures { IfOk result (λ reply. reply ≡ exact_reply (state_of self.now) (target.Source name) rows.now) }
    {
        let Some(at) = self.sources.place_of(name) else {
            let what = Thing::Source;
            return Ok(Reply::Refused(Refusal::Unknown { what, name }));
        };
        let kinds = self.sources.source_type(at).kinds;
        if let Some(refusal) = self.row_refusal(kinds, rows)? {
            return Ok(Reply::Refused(refusal));
        }
        let weights = weights_in(self.alloc, self.sources.sets().at(at), rows)?;
        Ok(Reply::Weights { weights })
    }

    // The weights of rows in the output of a plan.
    fn exact_in_plan<L: Ledger>(
        &self,
        name: Name,
        rows: &[Row],
        steps: &mut Steps<L>,
    ) -> Result<Reply, Memory>
        requires { AreSettled self.now }
        ensures work { steps.new ≤ steps.old + 2 * length rows.now }
        ensures reply { IfOk result
            (λ reply. reply ≡ exact_reply (state_of self.now) (target.Plan name) rows.now) }
    {
        let Some(at) = self.plan_place(name) else {
            let what = Thing::Plan;
            return Ok(Reply::Refused(Refusal::Unknown { what, name }));
        };
        let planned = &self.plans[at];
        if let Some(refusal) = self.row_refusal(planned.cols, rows)? {
            return Ok(Reply::Refused(refusal));
        }
        let weights = planned.weights(self.alloc, rows, steps)?;
        Ok(Reply::Weights { weights })
    }

    // Why the rows can't be looked up in a dataset of these columns.
    fn row_refusal(&self, kinds: Kinds, rows: &[Row]) -> Result<Option<Refusal>, Memory>
        ensures { IfOk result (λ refusal. refusal ≡ row_refusal self.now.curator kinds rows.now) }
    {
        if !self.curator {
            return Ok(Some(Refusal::Curator));
        }
        row_fault(self.alloc, kinds, rows)
    }
}

// The weights of the rows in a set, in their order.
fn weights_in(alloc: Global, set: &HeldSet, rows: &[Row]) -> Result<Weights, Memory>
    ensures { IfOk result (λ weights. weights ≡ map (at set.now.committed) rows.now) }
{
    let mut weights = Vec::with_capacity(alloc, rows.len())?;
    for row in rows {
        weights.push(set.weight(row))?;
    }
    Ok(Weights::from_vec(weights))
}

/// The first row that doesn't have these kinds or is one that came before.
pub fn row_fault(alloc: Global, kinds: Kinds, rows: &[Row]) -> Result<Option<Refusal>, Memory>
    ensures { IfOk result (λ fault. fault ≡ first_row_fault kinds [] 0 rows.now) }
{
    let mut before = BTreeSet::new(alloc);
    for (at, row) in rows.iter().enumerate() {
        if !row.fits(kinds) {
            return Ok(Some(Refusal::Row { at }));
        }
        let is_new = before.insert(row.try_copy()?)?;
        if !is_new {
            return Ok(Some(Refusal::Repeat { at }));
        }
    }
    Ok(None)
}
