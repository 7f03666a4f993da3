//! Sums of the weights of a key's part.
ghost use Rattle.std.specs.Prelude.{◌≡◌, [], IfErr, OnErr, OnOk, false, true};
ghost use Rattle.weighted_set.specs.Changes.{entries_of};
ghost use Rattle.weighted_set.specs.Parts.{IsListed, listed};
ghost use Rattle.weighted_set.specs.declared.part_op.OpFault.TheVariants as fault;
ghost use Rattle.op_linear.specs.Summed.{checked_sum, summed, sums_in_range, weights_of};

use frac_core::Frac;
use op_parts::{is_zero, push_row};
use record_text::Row;
use weighted_set::{OpFault, Weighted};

// The sum of the weights of a list, or `None` where a running sum is out of range.
fn sum_of(list: &[Weighted]) -> Option<Frac>
    ensures { result ≡ checked_sum (weights_of list.now) }
{
    let mut sum = Frac::zero();
    for entry in list {
        sum = sum.add(entry.weight)?;
    }
    Some(sum)
}

/// Lists a key with the sum of its part's weights, or no row where the sum is 0. `into` is emptied first.
pub fn list_sum(key: &Row, part: &[Weighted], into: &mut Vec<Weighted>) -> Result<(), OpFault>
    requires { IsListed part.now }
    ensures ok { OnOk result (entries_of into.new.items ≡ (summed key.now (listed part.now)).entries) }
    ensures fits { OnOk result (sums_in_range (listed part.now) ≡ true) }
    ensures range { IfErr result (λ e. e ≡ fault.Range → sums_in_range (listed part.now) ≡ false) }
    ensures err { OnErr result (into.new.items ≡ []) }
{
    into.clear();
    let Some(sum) = sum_of(part) else {
        return Err(OpFault::Range);
    };
    if !is_zero(sum) {
        push_row(key, sum, into)?;
    }
    Ok(())
}
