//! The pieces of a weight, one after another.
ghost use Rattle.std.specs.Prelude.{◌≡◌, ◌+◌, ◌≤◌, ◌<◌, [], ◌∷◌, IfErr, IfOk, IsTrue, OnOk, false, length, true};
ghost use Rattle.std.specs.List.{list_all};
ghost use Rattle.operators.specs.Operators.{numbered};
ghost use Rattle.plan_model.specs.Limits.{is_run};
ghost use Rattle.plan_model.specs.Pieces.{piece_count};
ghost use Rattle.plan_model.specs.Sizes.{max_pieces, max_width};
ghost use Rattle.ratios.specs.Range.{InRange, checked};
ghost use Rattle.ratios.specs.Ratio.{is_below, zero_ratio};
ghost use Rattle.weighted_set.specs.declared.part_op.OpFault.TheVariants as fault;
ghost use Rattle.op_parts.specs.Appended.{Appends};
ghost use Rattle.op_shave.specs.Shave.{row_fits, shaved_row};
ghost use Rattle.op_shave.specs.Shavings.{RunIsShaved, left_in_range, left_of, run_pieces};

use frac_core::Frac;
use op_parts::{followed_by, push_made};
use plan_model::{Run, Runs};
use record_text::{Atom, Row};
use std::alloc::Global;
use weighted_set::{Memory, OpFault, Weighted};

// Whether something is left of a weight.
fn is_above_zero(weight: Frac) -> bool
    ensures value { result ≡ is_below zero_ratio weight }
    ensures in_range { InRange weight }
{
    // Tells that the weight is in range.
    let _numerator = weight.numer();
    Frac::zero() < weight
}

// What is left of a weight above 0 once a piece is taken off it: 0 where nothing is, and `None` where it is
// out of range.
fn left_of(weight: Frac, piece: Frac) -> Option<Frac>
    requires { is_below zero_ratio weight ≡ true }
    ensures { result ≡ checked (left_of weight piece) }
{
    if piece < weight {
        weight.sub(piece)
    } else {
        Some(Frac::zero())
    }
}

// Appends the row followed by a place, with the weight of a piece.
fn push_piece(row: &Row, place: u32, weight: Frac, into: &mut Vec<Weighted>) -> Result<(), Memory>
    requires { length row.now < max_width }
    ensures ok { OnOk result (Appends into.old.items ((numbered (row.now, place), weight) ∷ []) into.new.items) }
    ensures in_range { InRange weight }
{
    // Tells that the weight is in range.
    let _numerator = weight.numer();
    let row = followed_by(*into.allocator(), row, Atom::Int(i64::from(place)))?;
    push_made(row, weight, into)
}

// Lists the pieces of a run while something is left of the weight, and gives what is left of it then, or
// `None` where that is out of range.
fn push_run(
    row: &Row,
    run: Run,
    place: u32,
    weight: Frac,
    into: &mut Vec<Weighted>,
) -> Result<Option<Frac>, OpFault>
    requires narrow { length row.now < max_width }
    requires few { place + run.times ≤ max_pieces }
    ensures ok { IfOk result (RunIsShaved row.now place run weight into.old.items into.new.items) }
    ensures range { IfErr result (λ e. e ≡ fault.Range → left_in_range (run_pieces run) weight ≡ false) }
{
    // Tells that the weight is in range.
    let _numerator = weight.numer();
    let mut rest = Some(weight);
    for at in 0..run.times {
        let Some(left) = rest else {
            return Err(OpFault::Range);
        };
        if !is_above_zero(left) {
            return Ok(Some(Frac::zero()));
        }
        push_piece(row, place + at, run.weight.min(left), into)?;
        rest = left_of(left, run.weight);
    }
    Ok(rest)
}

/// Lists the pieces of a row's weight, each at the row followed by the piece's place.
pub fn push_pieces(
    row: &Row,
    weight: Frac,
    runs: &Runs,
    into: &mut Vec<Weighted>,
) -> Result<(), OpFault>
    requires narrow { length row.now < max_width }
    requires runs { IsTrue (list_all is_run runs.now) }
    requires few { piece_count runs.now ≤ max_pieces }
    ensures ok { OnOk result (Appends into.old.items (shaved_row runs.now row.now weight).entries into.new.items) }
    ensures fits { OnOk result (row_fits runs.now row.now weight ≡ true) }
    ensures range { IfErr result (λ e. e ≡ fault.Range → row_fits runs.now row.now weight ≡ false) }
{
    // Tells that the weight is in range.
    let _numerator = weight.numer();
    let mut rest = Some(weight);
    let mut place = 0;
    for at in 0..runs.len() {
        let run = runs.at(at);
        let Some(left) = rest else {
            return Err(OpFault::Range);
        };
        if !is_above_zero(left) {
            return Ok(());
        }
        rest = push_run(row, *run, place, left, into)?;
        place += run.times;
    }
    Ok(())
}
