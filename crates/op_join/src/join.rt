//! The pairs of rows with equal keys.
ghost use Rattle.std.specs.Prelude.{◌≡◌, ◌≤◌, ◌+◌, IsTrue, length};
ghost use Rattle.plan_model.specs.Acceptance.{have_kinds};
ghost use Rattle.plan_model.specs.Sizes.{max_width};
ghost use Rattle.plan_model.specs.Types.{kinds_over};
ghost use Rattle.record_text.specs.KindLists.{kinds_eq};
ghost use Rattle.op_join.specs.Join.{IsJoinRow, TakesJoinPart, join_fits, join_keys, join_output, join_owner, join_takes, joined_part, part_in_range, side_columns, side_key};
ghost use Rattle.op_join.specs.JoinLaws.{join_fits_by_part, join_output_in_range, join_owned, join_takes_part, join_takes_row, join_together};

use crate::norms::both_norms;
use crate::pairs::push_pairs;
use frac_core::Frac;
use op_parts::{made_row, push_made, tick_each};
use plan_model::Exprs;
use record_text::{Kinds, Row};
use std::alloc::Global;
use std::marker::Model;
use std::sync::ledger::Ledger;
use steps::Steps;
use weighted_set::{Memory, OpFault, PartOp, Side, Weighted};

/// The rows of the left input, each followed by the rows of the right one that have its key. Such a pair has the
/// product of both weights, divided by the sum of the norms of the two inputs' rows with that key.
#[derive(Drop)]
pub struct JoinOp {
    left_key: Exprs,
    right_key: Exprs,
    left: Kinds,
    right: Kinds,
    alloc: Global,
}

impl Model for JoinOp {
    ghost use Rattle.std.specs.Coded.{codes};
    ghost use Rattle.std.specs.Prelude.{◌≤◌, ◌+◌, IsTrue, length};
    ghost use Rattle.plan_model.specs.Acceptance.{have_kinds};
    ghost use Rattle.plan_model.specs.Sizes.{max_width};
    ghost use Rattle.plan_model.specs.contracts.expr.Expr as expr;
    ghost use Rattle.op_join.specs.Join.{JoinParts};

    ghost Value = { JoinParts };

    ghost coded = { Prim.hlevel (codes, expr.the_row.coded) };

    ghost view = { λ op. record { left_key = op.left_key; right_key = op.right_key; left = op.left; right = op.right } };

    ghost invariant = { λ op. IsTrue (have_kinds op.left op.left_key) × IsTrue (have_kinds op.right op.right_key) × (length op.left + length op.right ≤ max_width) };
}

impl JoinOp {
    /// The pairs of rows with equal keys. The expressions of a side's key have kinds over its columns, both keys
    /// have the same kinds, and both sides together have at most 16 columns.
    pub fn new(
        left_key: Exprs,
        right_key: Exprs,
        left: Kinds,
        right: Kinds,
        alloc: Global,
    ) -> JoinOp
        requires left_kinds { IsTrue (have_kinds left left_key) }
        requires right_kinds { IsTrue (have_kinds right right_key) }
        requires same_kinds { IsTrue (kinds_eq (kinds_over left left_key) (kinds_over right right_key)) }
        requires narrow { length left + length right ≤ max_width }
        ensures { result ≡ record { left_key = left_key; right_key = right_key; left = left; right = right } }
    {
        JoinOp {
            left_key,
            right_key,
            left,
            right,
            alloc,
        }
    }

    // The expressions of a side's key.
    fn key_of(&self, side: Side) -> &Exprs
        ensures key { result.now ≡ side_key self.now side }
        ensures kinds { IsTrue (have_kinds (side_columns self.now side) result.now) }
    {
        match side {
            Side::Left => &self.left_key,
            Side::Right => &self.right_key,
        }
    }
}

impl PartOp for JoinOp {
    ghost keys = { λ op side x. join_keys op side x };

    ghost owner = { λ op z. join_owner op z };

    ghost outputs = { λ op k A B. joined_part A B };

    ghost part_fits = { λ op k A B. part_in_range A B };

    ghost output = { λ op A B. join_output op A B };

    ghost fits = { λ op A B. join_fits op A B };

    ghost takes = { λ op A B. join_takes op A B };

    ghost TakesRow = { λ op side x. IsJoinRow op side x };

    ghost TakesPart = { λ op k A B. TakesJoinPart op k A B };

    fn touch(&self, side: Side, row: &Row, into: &mut Vec<Weighted>) -> Result<(), Memory> {
        into.clear();
        let key = made_row(self.alloc, self.key_of(side), row)?;
        push_made(key, Frac::one(), into)?;
        Ok(())
    }

    fn part_out<L: Ledger>(
        &self,
        _key: &Row,
        left: &[Weighted],
        right: &[Weighted],
        into: &mut Vec<Weighted>,
        steps: &mut Steps<L>,
    ) -> Result<(), OpFault> {
        into.clear();
        tick_each(left, steps);
        tick_each(right, steps);
        if left.is_empty() || right.is_empty() {
            return Ok(());
        }
        // Tells that both sides together have no more columns than a row may have.
        let _columns = self.left;
        let Some(norms) = both_norms(left, right) else {
            return Err(OpFault::Range);
        };
        match push_pairs(left, right, norms, into) {
            Ok(()) => Ok(()),
            Err(fault) => {
                into.clear();
                Err(fault)
            }
        }
    }

    ghost outputs_are_owned = { λ op k A B z taken weighed. join_owned op k A B z taken weighed };

    ghost together = { λ op A B z taken. join_together op A B z taken };

    ghost fits_by_part = { λ op A B taken a b. join_fits_by_part op A B taken a b };

    ghost output_in_range = { λ op A B a b fits. join_output_in_range op A B fits };

    ghost takes_rows = { λ op A B x taken. join_takes_row op A B x taken };

    ghost takes_parts = { λ op A B k taken. join_takes_part op A B k taken };
}
