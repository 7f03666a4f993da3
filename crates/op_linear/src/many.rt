//! Rows spread over the rows that items make of them.
ghost use Rattle.std.specs.Prelude.{◌≡◌, ◌<◌, ◌≤◌, IsTrue};
ghost use Rattle.std.specs.List.{list_all};
ghost use Rattle.operators.specs.Operators.{spread};
ghost use Rattle.plan_model.specs.Evaluation.{giving};
ghost use Rattle.plan_model.specs.Limits.{is_item, max_item_weight};
ghost use Rattle.op_linear.specs.Many.{items_have_kinds, many_fits, many_keys};
ghost use Rattle.op_linear.specs.ManyLaws.{many_fits_by_part, many_output_in_range, many_together};
ghost use Rattle.op_linear.specs.SelectLaws.{summed_owned};
ghost use Rattle.op_linear.specs.Summed.{summed, sums_in_range};
ghost use Rattle.op_parts.specs.Takes.{LeftHasColumns, has_columns};
ghost use Rattle.op_parts.proofs.Takes.{columns_told, takes_row};

use crate::shares::list_shares;
use crate::sums::list_sum;
use op_parts::tick_each;
use plan_model::Items;
use record_text::{Kinds, Row};
use std::alloc::Global;
use std::marker::Model;
use std::sync::ledger::Ledger;
use steps::Steps;
use weighted_set::{Memory, OpFault, PartOp, Side, Weighted};

/// The rows of an input, each spread over the rows that items make of it: it adds to each of these the weight
/// of the items that give it, divided by the greater of `over` and the weight of all items that apply.
#[derive(Drop)]
pub struct ManyOp {
    over: u32,
    items: Items,
    cols: Kinds,
    alloc: Global,
}

impl Model for ManyOp {
    ghost use Rattle.std.specs.Coded.{codes};
    ghost use Rattle.std.specs.List.{list_all};
    ghost use Rattle.std.specs.Prelude.{◌<◌, ◌≤◌, IsTrue};
    ghost use Rattle.plan_model.specs.Limits.{is_item, max_item_weight};
    ghost use Rattle.plan_model.specs.contracts.step.Item as item;
    ghost use Rattle.op_linear.specs.Many.{ManyParts, items_have_kinds};

    ghost Value = { ManyParts };

    ghost coded = { Prim.hlevel (codes, item.the_row.coded) };

    ghost view = { λ op. record { over = op.over; items = op.items; cols = op.cols } };

    ghost invariant = { λ op. (0 < op.over) × (op.over ≤ max_item_weight) × IsTrue (list_all is_item op.items) × IsTrue (items_have_kinds op.cols op.items) };
}

impl ManyOp {
    /// The rows with these columns, spread over what the items make of them.
    pub fn new(over: u32, items: Items, cols: Kinds, alloc: Global) -> ManyOp
        requires some { 0 < over }
        requires few { over ≤ max_item_weight }
        requires limits { IsTrue (list_all is_item items) }
        requires kinds { IsTrue (items_have_kinds cols items) }
        ensures { result ≡ record { over = over; items = items; cols = cols } }
    {
        ManyOp {
            over,
            items,
            cols,
            alloc,
        }
    }
}

impl PartOp for ManyOp {
    ghost keys = { λ op side x. many_keys op side x };

    ghost owner = { λ op z. z };

    ghost outputs = { λ op k A B. summed k A };

    ghost part_fits = { λ op k A B. sums_in_range A };

    ghost output = { λ op A B. spread op.over (giving op.items) A };

    ghost fits = { λ op A B. many_fits op A };

    ghost takes = { λ op A B. has_columns op.cols A };

    ghost TakesRow = { λ op side x. LeftHasColumns op.cols side x };

    ghost TakesPart = { λ op k A B. Unit {0} };

    fn touch(&self, side: Side, row: &Row, into: &mut Vec<Weighted>) -> Result<(), Memory> {
        into.clear();
        match side {
            Side::Left => match list_shares(self.alloc, self.over, &self.items, row, into) {
                Ok(()) => Ok(()),
                Err(fault) => {
                    into.clear();
                    Err(fault)
                }
            },
            Side::Right => Ok(()),
        }
    }

    fn part_out<L: Ledger>(
        &self,
        key: &Row,
        left: &[Weighted],
        right: &[Weighted],
        into: &mut Vec<Weighted>,
        steps: &mut Steps<L>,
    ) -> Result<(), OpFault> {
        tick_each(left, steps);
        tick_each(right, steps);
        list_sum(key, left, into)
    }

    ghost outputs_are_owned = { λ op k A B z taken weighed. summed_owned k A z weighed };

    ghost together = { λ op A B z taken. many_together op A z };

    ghost fits_by_part = { λ op A B taken a b. many_fits_by_part op A B a b };

    ghost output_in_range = { λ op A B a b fits. many_output_in_range op A fits };

    ghost takes_rows = { λ op A B x taken. takes_row op.cols A B x (columns_told op.cols A taken) };

    ghost takes_parts = { λ op A B k taken. tt };
}
