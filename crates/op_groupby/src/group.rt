//! The rows of each key, reduced at each level of their weights.
ghost use Rattle.std.specs.Prelude.{◌≡◌, ◌<◌, IsTrue, length};
ghost use Rattle.operators.specs.Operators.{grouped};
ghost use Rattle.plan_model.specs.Acceptance.{have_kinds};
ghost use Rattle.plan_model.specs.Evaluation.{reduced_to, row_of};
ghost use Rattle.plan_model.specs.Types.{HasColumns};
ghost use Rattle.level_walks.specs.Levels.{group_part, key_of, part_in_range};
ghost use Rattle.level_walks.proofs.Grouped.{group_part-owned};
ghost use Rattle.op_parts.specs.Takes.{LeftHasColumns, has_columns};
ghost use Rattle.op_parts.proofs.Takes.{columns_told, takes_row};
ghost use Rattle.op_groupby.specs.Group.{HasKey, group_fits, group_keys, reads_within};
ghost use Rattle.op_groupby.specs.GroupLaws.{group_fits_by_part, group_output_in_range, group_takes_part, group_together};

use crate::order::by_falling_weight;
use crate::walk::walk;
use frac_core::Frac;
use op_parts::{made_row, push_made, tick_each};
use plan_model::{Exprs, Reducer};
use record_text::{Kinds, Row};
use std::marker::Model;
use std::sync::ledger::Ledger;
use steps::Steps;
use weighted_set::{Memory, OpFault, PartOp, Side, Weighted};

/// The rows of each key of an input, reduced at each level of their weights. A key followed by an atom has half
/// of what the levels that are reduced to that atom are above the next ones, and the lowest above 0.
#[derive(Drop)]
pub struct GroupOp {
    key: Exprs,
    reduce: Reducer,
    cols: Kinds,
}

impl Model for GroupOp {
    ghost use Rattle.std.specs.Coded.{codes};
    ghost use Rattle.std.specs.Prelude.{◌<◌, IsTrue, length};
    ghost use Rattle.plan_model.specs.Acceptance.{have_kinds};
    ghost use Rattle.plan_model.specs.contracts.expr.Expr as expr;
    ghost use Rattle.plan_model.specs.contracts.step.Reducer as reducer;
    ghost use Rattle.op_groupby.specs.Group.{GroupParts, reads_within};

    ghost Value = { GroupParts };

    ghost coded = { Prim.hlevel (codes, expr.the_row.coded, reducer.the_row.coded) };

    ghost view = { λ op. record { key = op.key; reduce = op.reduce; cols = op.cols } };

    ghost invariant = { λ op. IsTrue (have_kinds op.cols op.key) × IsTrue (reads_within op.cols op.reduce) × (length op.key < 16) };
}

impl GroupOp {
    /// The rows with these columns, grouped by expressions with kinds over them: at most 15 expressions, since an
    /// output row has one atom more. A column that the reducer reads is one of them.
    pub fn new(key: Exprs, reduce: Reducer, cols: Kinds) -> GroupOp
        requires kinds { IsTrue (have_kinds cols key) }
        requires reads { IsTrue (reads_within cols reduce) }
        requires narrow { length key < 16 }
        ensures { result ≡ record { key = key; reduce = reduce; cols = cols } }
    {
        GroupOp { key, reduce, cols }
    }
}

impl PartOp for GroupOp {
    ghost keys = { λ op side x. group_keys op side x };

    ghost owner = { λ op z. key_of z };

    ghost outputs = { λ op k A B. group_part (reduced_to op.reduce) k A };

    ghost part_fits = { λ op k A B. part_in_range (reduced_to op.reduce) k A };

    ghost output = { λ op A B. grouped (row_of op.key) (reduced_to op.reduce) A };

    ghost fits = { λ op A B. group_fits op A };

    ghost takes = { λ op A B. has_columns op.cols A };

    ghost TakesRow = { λ op side x. LeftHasColumns op.cols side x };

    ghost TakesPart = { λ op k A B. HasColumns op.cols A × HasKey op k A };

    fn touch(&self, side: Side, row: &Row, into: &mut Vec<Weighted>) -> Result<(), Memory> {
        into.clear();
        match side {
            Side::Left => {
                let key = made_row(*into.allocator(), &self.key, row)?;
                push_made(key, Frac::one(), into)?;
                Ok(())
            }
            Side::Right => Ok(()),
        }
    }

    fn part_out<L: Ledger>(
        &self,
        key: &Row,
        left: &[Weighted],
        right: &[Weighted],
        into: &mut Vec<Weighted>,
        steps: &mut Steps<L>,
    ) -> Result<(), OpFault> {
        into.clear();
        tick_each(left, steps);
        tick_each(right, steps);
        let order = by_falling_weight(*into.allocator(), left)?;
        let sums = walk(*into.allocator(), key, self.reduce, order.as_slice())?;
        match sums.append_to(into) {
            Ok(()) => Ok(()),
            Err(memory) => Err(OpFault::from(memory)),
        }
    }

    ghost outputs_are_owned = { λ op k A B z taken weighed. group_part-owned (reduced_to op.reduce) k A z weighed };

    ghost together = { λ op A B z taken. group_together op A z };

    ghost fits_by_part = { λ op A B taken a b. group_fits_by_part op A B a b };

    ghost output_in_range = { λ op A B a b fits. group_output_in_range op A fits };

    ghost takes_rows = { λ op A B x taken. takes_row op.cols A B x (columns_told op.cols A taken) };

    ghost takes_parts = { λ op A B k taken. group_takes_part op k A (columns_told op.cols A taken) };
}
