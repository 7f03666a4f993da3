//! The walk over a part, from the highest level down.
ghost use Rattle.std.specs.Prelude.{◌≡◌, ◌<◌, ◌++◌, [], ◌∷◌, All, IfErr, IfOk, None, OnOk, Some, drop, false, length, true};
ghost use Rattle.ratios.specs.Range.{checked};
ghost use Rattle.operators.specs.Operators.{down_to};
ghost use Rattle.weighted_set.specs.declared.part_op.OpFault.TheVariants as fault;
ghost use Rattle.level_walks.specs.Walks.{half_fits, ties_with, weights_of, with_half};
ghost use Rattle.op_groupby.specs.Group.{ordered, walked};
ghost use Rattle.op_groupby.specs.Taking.{ReadsRow};

use crate::taken::Taken;
use frac_core::Frac;
use op_parts::followed_by;
use plan_model::Reducer;
use record_text::{Atom, Row};
use std::alloc::Global;
use weighted_set::{Memory, OpFault, WSet, Weighted};

// Whether the row at a place is there, and has this weight.
fn is_tie(weight: Frac, order: &[&Weighted], at: usize) -> bool
    ensures { result ≡ ties_with weight (drop at (ordered order.now)) }
{
    if at < order.len() {
        weight == order[at].weight
    } else {
        false
    }
}

// What a weight is above that of the row at a place, or the weight itself where no row is there; `None` where
// that is out of range.
fn gap_above(weight: Frac, order: &[&Weighted], at: usize) -> Option<Frac>
    ensures { result ≡ checked (down_to weight (weights_of (drop at (ordered order.now)))) }
{
    // Tells that the weight is in range.
    let _numerator = weight.numer();
    if at < order.len() {
        weight.sub(order[at].weight)
    } else {
        Some(weight)
    }
}

// Adds half a level's gap at the key followed by the level's atom.
fn add_half(alloc: Global, key: &Row, atom: Atom, gap: Frac, sums: &mut WSet) -> Result<(), OpFault>
    requires { length key.now < 16 }
    ensures ok { OnOk result (sums.new ≡ with_half key.now sums.old (atom, gap)) }
    ensures fits { OnOk result (half_fits key.now sums.old (atom, gap) ≡ true) }
    ensures range { IfErr result (λ e. e ≡ fault.Range → half_fits key.now sums.old (atom, gap) ≡ false) }
{
    let Some(half) = gap.half() else {
        return Err(OpFault::Range);
    };
    let row = followed_by(alloc, key, atom)?;
    let Some(sum) = sums.weight(&row).add(half) else {
        return Err(OpFault::Range);
    };
    sums.set(row, sum)?;
    Ok(())
}

/// The output rows of a key, from its rows by falling weight.
pub fn walk(alloc: Global, key: &Row, reduce: Reducer, order: &[&Weighted]) -> Result<WSet, OpFault>
    requires narrow { 0 < length order.now → length key.now < 16 }
    requires reads { All (λ e. ReadsRow reduce e.now.row) order.now }
    ensures ok { IfOk result (λ sums. walked reduce key.now (ordered order.now) ≡ Some sums) }
    ensures range { IfErr result (λ e. e ≡ fault.Range → walked reduce key.now (ordered order.now) ≡ None) }
{
    let mut sums = WSet::new(alloc);
    let mut taken = Taken::new();
    for at in 0..order.len() {
        let entry = order[at];
        taken.take(reduce, &entry.row);
        if is_tie(entry.weight, order, at + 1) {
            continue;
        }
        let Some(gap) = gap_above(entry.weight, order, at + 1) else {
            return Err(OpFault::Range);
        };
        let atom = taken.answer(reduce)?;
        add_half(alloc, key, atom, gap, &mut sums)?;
    }
    Ok(sums)
}
