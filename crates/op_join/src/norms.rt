//! The norms of the parts of a key.
ghost use Rattle.std.specs.Prelude.{◌≡◌};
ghost use Rattle.weighted_set.specs.Parts.{IsListed, listed};
ghost use Rattle.weighted_set.specs.Sizes.{checked_norm};
ghost use Rattle.op_join.specs.Join.{checked_norms};

use frac_core::Frac;
use weighted_set::Weighted;

// The sum of the absolute weights of a part, or `None` where a sum on the way is out of range.
fn part_norm(part: &[Weighted]) -> Option<Frac>
    requires { IsListed part.now }
    ensures { result ≡ checked_norm (listed part.now) }
{
    let mut sum = Frac::zero();
    for entry in part {
        sum = sum.add(entry.weight.abs())?;
    }
    Some(sum)
}

/// The sum of the norms of both parts, or `None` where it or a sum on the way to a norm is out of range.
pub fn both_norms(left: &[Weighted], right: &[Weighted]) -> Option<Frac>
    requires left_listed { IsListed left.now }
    requires right_listed { IsListed right.now }
    ensures { result ≡ checked_norms (listed left.now) (listed right.now) }
{
    let left_norm = part_norm(left)?;
    let right_norm = part_norm(right)?;
    left_norm.add(right_norm)
}
