//! The rows that expressions make of rows.
ghost use Rattle.std.specs.Prelude.{◌≡◌, IfOk, IsTrue};
ghost use Rattle.operators.specs.Operators.{selected};
ghost use Rattle.plan_model.specs.Acceptance.{have_kinds};
ghost use Rattle.plan_model.specs.Evaluation.{row_of};
ghost use Rattle.record_text.specs.KindLists.{kinds_of};
ghost use Rattle.op_linear.specs.Select.{select_fits, select_keys};
ghost use Rattle.op_linear.specs.SelectLaws.{select_fits_by_part, select_output_in_range, select_together, summed_owned};
ghost use Rattle.op_linear.specs.Summed.{summed, sums_in_range};
ghost use Rattle.op_parts.specs.Takes.{LeftHasColumns, has_columns};
ghost use Rattle.op_parts.proofs.Takes.{columns_told, takes_row};

use crate::sums::list_sum;
use frac_core::Frac;
use op_parts::{made_row, push_made, tick_each};
use plan_model::Exprs;
use record_text::{Kinds, Row};
use std::alloc::Global;
use std::marker::Model;
use std::sync::ledger::Ledger;
use steps::Steps;
use weighted_set::{Memory, OpFault, PartOp, Side, Weighted};

/// The rows that expressions make of the rows of an input. Each has the sum of the weights of the rows that
/// it is made of.
#[derive(Drop)]
pub struct SelectOp {
    row: Exprs,
    cols: Kinds,
    alloc: Global,
}

impl Model for SelectOp {
    ghost use Rattle.std.specs.Coded.{codes};
    ghost use Rattle.std.specs.Prelude.{IsTrue};
    ghost use Rattle.plan_model.specs.contracts.expr.Expr as expr;
    ghost use Rattle.plan_model.specs.Acceptance.{have_kinds};
    ghost use Rattle.op_linear.specs.Select.{SelectParts};

    ghost Value = { SelectParts };

    ghost coded = { Prim.hlevel (codes, expr.the_row.coded) };

    ghost view = { λ op. record { row = op.row; cols = op.cols } };

    ghost invariant = { λ op. IsTrue (have_kinds op.cols op.row) };
}

impl SelectOp {
    /// The rows that expressions with kinds over these columns make.
    pub fn new(row: Exprs, cols: Kinds, alloc: Global) -> SelectOp
        requires { IsTrue (have_kinds cols row) }
        ensures { result ≡ record { row = row; cols = cols } }
    {
        SelectOp { row, cols, alloc }
    }
}

impl PartOp for SelectOp {
    ghost keys = { λ op side x. select_keys op side x };

    ghost owner = { λ op z. z };

    ghost outputs = { λ op k A B. summed k A };

    ghost part_fits = { λ op k A B. sums_in_range A };

    ghost output = { λ op A B. selected (row_of op.row) A };

    ghost fits = { λ op A B. select_fits op A };

    ghost takes = { λ op A B. has_columns op.cols A };

    ghost TakesRow = { λ op side x. LeftHasColumns op.cols side x };

    ghost TakesPart = { λ op k A B. Unit {0} };

    fn touch(&self, side: Side, row: &Row, into: &mut Vec<Weighted>) -> Result<(), Memory> {
        into.clear();
        match side {
            Side::Left => {
                let key = made_row(self.alloc, &self.row, row)?;
                push_made(key, Frac::one(), into)?;
                Ok(())
            }
            Side::Right => Ok(()),
        }
    }

    fn part_out<L: Ledger>(
        &self,
        key: &Row,
        left: &[Weighted],
        right: &[Weighted],
        into: &mut Vec<Weighted>,
        steps: &mut Steps<L>,
    ) -> Result<(), OpFault> {
        tick_each(left, steps);
        tick_each(right, steps);
        list_sum(key, left, into)
    }

    ghost outputs_are_owned = { λ op k A B z taken weighed. summed_owned k A z weighed };

    ghost together = { λ op A B z taken. select_together op A z };

    ghost fits_by_part = { λ op A B taken a b. select_fits_by_part op A B a b };

    ghost output_in_range = { λ op A B a b fits. select_output_in_range op A fits };

    ghost takes_rows = { λ op A B x taken. takes_row op.cols A B x (columns_told op.cols A taken) };

    ghost takes_parts = { λ op A B k taken. tt };
}
