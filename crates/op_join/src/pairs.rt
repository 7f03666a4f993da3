//! The pairs of the rows of two parts.
ghost use Rattle.std.specs.Prelude.{◌≡◌, ◌≢◌, ◌≤◌, ◌+◌, [], ◌∷◌, ◌++◌, All, IfErr, OnOk, Some, false, length, true};
ghost use Rattle.plan_model.specs.Sizes.{max_width};
ghost use Rattle.ratios.specs.Ratio.{zero_ratio};
ghost use Rattle.weighted_set.specs.declared.part_op.OpFault.TheVariants as fault;
ghost use Rattle.op_parts.specs.Appended.{Appends};
ghost use Rattle.op_join.specs.Pairs.{FollowNarrowly, IsNarrow, all_pairs, checked_weight, pairs_in_range, row_in_range, row_pairs};

use frac_core::Frac;
use op_parts::push_made;
use record_text::Row;
use weighted_set::{Memory, OpFault, Weighted};

// Appends a row followed by another, with a weight.
fn push_pair(
    first: &Row,
    second: &Row,
    weight: Frac,
    into: &mut Vec<Weighted>,
) -> Result<(), Memory>
    requires { length first.now + length second.now ≤ max_width }
    ensures { OnOk result (Appends into.old.items ((first.now ++ second.now, weight) ∷ []) into.new.items) }
{
    let row = first.concat(second)?;
    push_made(row, weight, into)
}

// The weight of a pair: that which is known, where the row on the right weighs as much as that of the known pair.
fn pair_weight(left: Frac, right: Frac, norms: Frac, known: (Frac, Frac)) -> Option<Frac>
    requires some { norms ≢ zero_ratio }
    requires known { Some known.1 ≡ checked_weight norms left known.0 }
    ensures { result ≡ checked_weight norms left right }
{
    if right == known.0 {
        return Some(known.1);
    }
    left.mul_div(right, norms)
}

// Appends an entry's row followed by each row of a list, with the products of their weights divided by `norms`.
fn push_row_pairs(
    entry: &Weighted,
    right: &[Weighted],
    norms: Frac,
    into: &mut Vec<Weighted>,
) -> Result<(), OpFault>
    requires some { norms ≢ zero_ratio }
    requires narrow { All (IsNarrow entry.now) right.now }
    ensures ok { OnOk result (Appends into.old.items (row_pairs norms entry.now right.now) into.new.items) }
    ensures fits { OnOk result (row_in_range norms entry.now right.now ≡ true) }
    ensures range { IfErr result (λ e. e ≡ fault.Range → row_in_range norms entry.now right.now ≡ false) }
{
    // A weight on the right, and that of a pair with it. Rows that follow one another often weigh the same.
    let mut known = (Frac::zero(), Frac::zero());
    for other in right {
        let Some(weight) = pair_weight(entry.weight, other.weight, norms, known) else {
            return Err(OpFault::Range);
        };
        push_pair(&entry.row, &other.row, weight, into)?;
        known = (other.weight, weight);
    }
    Ok(())
}

/// Appends each row of one list followed by each row of the other, with the products of their weights divided by
/// `norms`; `Range` where such a weight is out of range.
pub fn push_pairs(
    left: &[Weighted],
    right: &[Weighted],
    norms: Frac,
    into: &mut Vec<Weighted>,
) -> Result<(), OpFault>
    requires some { norms ≢ zero_ratio }
    requires narrow { All (FollowNarrowly right.now) left.now }
    ensures ok { OnOk result (Appends into.old.items (all_pairs norms left.now right.now) into.new.items) }
    ensures fits { OnOk result (pairs_in_range norms left.now right.now ≡ true) }
    ensures range { IfErr result (λ e. e ≡ fault.Range → pairs_in_range norms left.now right.now ≡ false) }
{
    for entry in left {
        push_row_pairs(entry, right, norms, into)?;
    }
    Ok(())
}
