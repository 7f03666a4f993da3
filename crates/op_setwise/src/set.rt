//! The greater, the less, the sum or the difference of the two weights of each row.
ghost use Rattle.std.specs.Prelude.{◌≡◌};
ghost use Rattle.datasets.specs.Dataset.{at};
ghost use Rattle.datasets.specs.Entries.{Row};
ghost use Rattle.record_text.specs.KindLists.{kinds_of};
ghost use Rattle.weighted_set.specs.Parts.{IsListed, listed};
ghost use Rattle.op_parts.specs.Takes.{HasOnly, both_have_columns};
ghost use Rattle.op_parts.proofs.Takes.{both_told};
ghost use Rattle.op_parts.proofs.Ranges.{AllInRange-tested};
ghost use Rattle.op_setwise.specs.Setwise.{BothHaveOnly, checked_weight, set_fits, set_keys, set_output};
ghost use Rattle.op_setwise.specs.SetLaws.{set_fits_by_part, set_owned, set_takes_parts, set_takes_rows, set_together};

use frac_core::Frac;
use op_parts::{is_zero, push_row, tick_each};
use plan_model::SetKind;
use record_text::{Kinds, Row};
use std::marker::Model;
use std::sync::ledger::Ledger;
use steps::Steps;
use weighted_set::{Memory, OpFault, PartOp, Side, Weighted};

/// The rows of two inputs, each with what a set operator makes of its two weights.
#[derive(Drop)]
pub struct SetOp {
    kind: SetKind,
    cols: Kinds,
}

impl Model for SetOp {
    ghost use Rattle.std.specs.Coded.{codes};
    ghost use Rattle.op_setwise.specs.Setwise.{SetParts};

    ghost Value = { SetParts };

    ghost coded = { Prim.hlevel codes };

    ghost view = { λ op. record { kind = op.kind; cols = op.cols } };
}

impl SetOp {
    /// The set operator on inputs with these columns.
    pub fn new(kind: SetKind, cols: Kinds) -> SetOp
        ensures { result ≡ record { kind = kind; cols = cols } }
    {
        SetOp { kind, cols }
    }
}

// The weight of the only row that a part has, or 0 where it has none.
fn only_weight(part: &[Weighted]) -> Frac
    requires { IsListed part.now }
    ensures { (k : Row) → HasOnly k (listed part.now) → result ≡ at (listed part.now) k }
{
    match part.first() {
        Some(entry) => entry.weight,
        None => Frac::zero(),
    }
}

// The weight of a row from its two weights, or `None` where their sum or difference is out of range.
fn combined(kind: SetKind, left: Frac, right: Frac) -> Option<Frac>
    ensures { result ≡ checked_weight kind left right }
{
    match kind {
        SetKind::Union => Some(left.max(right)),
        SetKind::Intersect => Some(left.min(right)),
        SetKind::Concat => left.add(right),
        SetKind::Except => left.sub(right),
    }
}

impl PartOp for SetOp {
    ghost keys = { λ op side x. set_keys side x };

    ghost owner = { λ op z. z };

    ghost outputs = { λ op k A B. set_output op A B };

    ghost part_fits = { λ op k A B. set_fits op A B };

    ghost output = { λ op A B. set_output op A B };

    ghost fits = { λ op A B. set_fits op A B };

    ghost takes = { λ op A B. both_have_columns op.cols A B };

    ghost TakesRow = { λ op side x. kinds_of x ≡ op.cols };

    ghost TakesPart = { λ op k A B. BothHaveOnly k A B };

    fn touch(&self, _side: Side, row: &Row, into: &mut Vec<Weighted>) -> Result<(), Memory> {
        into.clear();
        push_row(row, Frac::one(), into)?;
        Ok(())
    }

    fn part_out<L: Ledger>(
        &self,
        key: &Row,
        left: &[Weighted],
        right: &[Weighted],
        into: &mut Vec<Weighted>,
        steps: &mut Steps<L>,
    ) -> Result<(), OpFault> {
        into.clear();
        tick_each(left, steps);
        tick_each(right, steps);
        let Some(weight) = combined(self.kind, only_weight(left), only_weight(right)) else {
            return Err(OpFault::Range);
        };
        if !is_zero(weight) {
            push_row(key, weight, into)?;
        }
        Ok(())
    }

    ghost outputs_are_owned = { λ op k A B z taken weighed. set_owned op k A B z taken weighed };

    ghost together = { λ op A B z taken. set_together op A B z };

    ghost fits_by_part = { λ op A B taken a b. set_fits_by_part op A B a b };

    ghost output_in_range = { λ op A B a b fits. AllInRange-tested (set_output op A B) fits };

    ghost takes_rows = { λ op A B x taken. set_takes_rows op.cols A B x (both_told op.cols A B taken) };

    ghost takes_parts = { λ op A B k taken. set_takes_parts A B k };
}
