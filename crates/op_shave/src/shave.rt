//! The weight of each row cut into pieces.
ghost use Rattle.std.specs.Prelude.{◌≡◌, ◌≤◌, ◌<◌, IsTrue, length};
ghost use Rattle.std.specs.List.{list_all};
ghost use Rattle.operators.specs.Operators.{shaved};
ghost use Rattle.plan_model.specs.Evaluation.{pieces};
ghost use Rattle.plan_model.specs.Limits.{is_run};
ghost use Rattle.plan_model.specs.Pieces.{piece_count};
ghost use Rattle.plan_model.specs.Sizes.{max_pieces, max_width};
ghost use Rattle.plan_model.specs.Types.{HasColumns};
ghost use Rattle.op_parts.specs.Takes.{HasOnly, LeftHasColumns, has_columns};
ghost use Rattle.op_parts.proofs.Takes.{columns_told, takes_row};
ghost use Rattle.op_shave.specs.Shave.{shave_fits, shave_keys, without_last};
ghost use Rattle.op_shave.specs.ShaveLaws.{shave_fits_by_part, shave_output_in_range, shave_takes_part, shave_together, shaved_owned};

use crate::pieces::push_pieces;
use frac_core::Frac;
use op_parts::{push_row, tick_each};
use plan_model::Runs;
use record_text::{Kinds, Row};
use std::marker::Model;
use std::sync::ledger::Ledger;
use steps::Steps;
use weighted_set::{Memory, OpFault, PartOp, Side, Weighted};

/// The pieces of the weights of an input, each at its row followed by the piece's place.
#[derive(Drop)]
pub struct ShaveOp {
    runs: Runs,
    cols: Kinds,
}

impl Model for ShaveOp {
    ghost use Rattle.std.specs.Coded.{codes};
    ghost use Rattle.std.specs.Prelude.{◌≤◌, ◌<◌, IsTrue, length};
    ghost use Rattle.std.specs.List.{list_all};
    ghost use Rattle.plan_model.specs.Limits.{is_run};
    ghost use Rattle.plan_model.specs.Pieces.{piece_count};
    ghost use Rattle.plan_model.specs.Sizes.{max_pieces, max_width};
    ghost use Rattle.plan_model.specs.contracts.step.Run as run;
    ghost use Rattle.op_shave.specs.Shave.{ShaveParts};

    ghost Value = { ShaveParts };

    ghost coded = { Prim.hlevel (codes, run.the_row.coded) };

    ghost view = { λ op. record { runs = op.runs; cols = op.cols } };

    ghost invariant = { λ op. IsTrue (list_all is_run op.runs) × (piece_count op.runs ≤ max_pieces) × (length op.cols < max_width) };
}

impl ShaveOp {
    /// The pieces of the runs, for rows with these columns: at most 15 of them, since an output row has one more.
    pub fn new(runs: Runs, cols: Kinds) -> ShaveOp
        requires runs { IsTrue (list_all is_run runs) }
        requires few { piece_count runs ≤ max_pieces }
        requires narrow { length cols < max_width }
        ensures { result ≡ record { runs = runs; cols = cols } }
    {
        ShaveOp { runs, cols }
    }
}

impl PartOp for ShaveOp {
    ghost keys = { λ op side x. shave_keys side x };

    ghost owner = { λ op z. without_last z };

    ghost outputs = { λ op k A B. shaved (pieces op.runs) A };

    ghost part_fits = { λ op k A B. shave_fits (pieces op.runs) A };

    ghost output = { λ op A B. shaved (pieces op.runs) A };

    ghost fits = { λ op A B. shave_fits (pieces op.runs) A };

    ghost takes = { λ op A B. has_columns op.cols A };

    ghost TakesRow = { λ op side x. LeftHasColumns op.cols side x };

    ghost TakesPart = { λ op k A B. HasOnly k A × HasColumns op.cols A };

    fn touch(&self, side: Side, row: &Row, into: &mut Vec<Weighted>) -> Result<(), Memory> {
        into.clear();
        match side {
            Side::Left => {
                push_row(row, Frac::one(), into)?;
                Ok(())
            }
            Side::Right => Ok(()),
        }
    }

    fn part_out<L: Ledger>(
        &self,
        _key: &Row,
        left: &[Weighted],
        right: &[Weighted],
        into: &mut Vec<Weighted>,
        steps: &mut Steps<L>,
    ) -> Result<(), OpFault> {
        into.clear();
        tick_each(left, steps);
        tick_each(right, steps);
        let Some(entry) = left.first() else {
            return Ok(());
        };
        match push_pieces(&entry.row, entry.weight, &self.runs, into) {
            Ok(()) => Ok(()),
            Err(fault) => {
                into.clear();
                Err(fault)
            }
        }
    }

    ghost outputs_are_owned = { λ op k A B z taken weighed. shaved_owned (pieces op.runs) k A z taken.0 weighed };

    ghost together = { λ op A B z taken. shave_together (pieces op.runs) A z };

    ghost fits_by_part = { λ op A B taken a b. shave_fits_by_part (pieces op.runs) A B a b };

    ghost output_in_range = { λ op A B a b fits. shave_output_in_range (pieces op.runs) A fits };

    ghost takes_rows = { λ op A B x taken. takes_row op.cols A B x (columns_told op.cols A taken) };

    ghost takes_parts = { λ op A B k taken. shave_takes_part op.cols k A (columns_told op.cols A taken) };
}
