//! The rows that pass a test.
ghost use Rattle.std.specs.Prelude.{◌≡◌, IfOk, IsTrue, true};
ghost use Rattle.operators.specs.InRange.{weights_in_range};
ghost use Rattle.operators.specs.Operators.{filtered};
ghost use Rattle.plan_model.specs.Evaluation.{passes};
ghost use Rattle.plan_model.specs.Types.{HasColumns, kind_over};
ghost use Rattle.plan_model.specs.Values.{is_typed, term_of};
ghost use Rattle.record_text.specs.KindLists.{kinds_of};
ghost use Rattle.record_text.specs.declared.kinds.Kind.TheVariants as kind;
ghost use Rattle.op_linear.specs.Filter.{filter_keys};
ghost use Rattle.op_linear.specs.FilterLaws.{filter_fits_by_part, filter_takes_part, filter_together};
ghost use Rattle.op_parts.specs.Takes.{HasOnly, LeftHasColumns, has_columns};
ghost use Rattle.op_parts.proofs.Ranges.{AllInRange-tested};
ghost use Rattle.op_parts.proofs.Takes.{columns_told, takes_row};

use frac_core::Frac;
use op_parts::{passes, push_row, push_rows, tick_each};
use plan_model::Expr;
use record_text::{Kinds, Row};
use std::marker::Model;
use std::sync::ledger::Ledger;
use steps::Steps;
use weighted_set::{Memory, OpFault, PartOp, Side, Weighted};

/// The rows of an input for which a test isn't 0, with their weights.
#[derive(Drop)]
pub struct FilterOp {
    test: Expr,
    cols: Kinds,
}

impl Model for FilterOp {
    ghost use Rattle.std.specs.Coded.{codes};
    ghost use Rattle.std.specs.Prelude.{◌≡◌, IsTrue};
    ghost use Rattle.plan_model.specs.contracts.expr.Expr as expr;
    ghost use Rattle.plan_model.specs.Types.{kind_over};
    ghost use Rattle.plan_model.specs.Values.{is_typed, term_of};
    ghost use Rattle.record_text.specs.declared.kinds.Kind.TheVariants as kind;
    ghost use Rattle.op_linear.specs.Filter.{FilterParts};

    ghost Value = { FilterParts };

    ghost coded = { Prim.hlevel (codes, expr.the_row.coded) };

    ghost view = { λ op. record { test = op.test; cols = op.cols } };

    ghost invariant = { λ op. IsTrue (is_typed op.cols (term_of op.test)) × (kind_over op.cols op.test ≡ kind.Int) };
}

impl FilterOp {
    /// The rows with these columns for which the test, an Int over them, isn't 0.
    pub fn new(test: Expr, cols: Kinds) -> FilterOp
        requires typed { IsTrue (is_typed cols (term_of test)) }
        requires int { kind_over cols test ≡ kind.Int }
        ensures { result ≡ record { test = test; cols = cols } }
    {
        FilterOp { test, cols }
    }
}

impl PartOp for FilterOp {
    ghost keys = { λ op side x. filter_keys op side x };

    ghost owner = { λ op z. z };

    ghost outputs = { λ op k A B. A };

    ghost part_fits = { λ op k A B. true };

    ghost output = { λ op A B. filtered (passes op.test) A };

    ghost fits = { λ op A B. weights_in_range (filtered (passes op.test) A) };

    ghost takes = { λ op A B. has_columns op.cols A };

    ghost TakesRow = { λ op side x. LeftHasColumns op.cols side x };

    ghost TakesPart = { λ op k A B. HasOnly k A };

    fn touch(&self, side: Side, row: &Row, into: &mut Vec<Weighted>) -> Result<(), Memory> {
        into.clear();
        match side {
            Side::Left => {
                if passes(*into.allocator(), &self.test, row)? {
                    push_row(row, Frac::one(), into)?;
                }
                Ok(())
            }
            Side::Right => Ok(()),
        }
    }

    fn part_out<L: Ledger>(
        &self,
        _key: &Row,
        left: &[Weighted],
        right: &[Weighted],
        into: &mut Vec<Weighted>,
        steps: &mut Steps<L>,
    ) -> Result<(), OpFault> {
        into.clear();
        tick_each(left, steps);
        tick_each(right, steps);
        match push_rows(left, into) {
            Ok(()) => Ok(()),
            Err(_) => {
                into.clear();
                Err(OpFault::Memory)
            }
        }
    }

    ghost outputs_are_owned = { λ op k A B z taken weighed. taken z weighed };

    ghost together = { λ op A B z taken. filter_together op A z };

    ghost fits_by_part = { λ op A B taken a b. filter_fits_by_part op A B a b };

    ghost output_in_range = { λ op A B a b fits. AllInRange-tested (filtered (passes op.test) A) fits };

    ghost takes_rows = { λ op A B x taken. takes_row op.cols A B x (columns_told op.cols A taken) };

    ghost takes_parts = { λ op A B k taken. filter_takes_part op k A };
}
