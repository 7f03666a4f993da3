//! Plans on small sources, worked out.
//!
//! The functions here run nothing. Their contracts say which weights the definition of evaluation gives
//! on sources that are small enough to check each weight by hand; they are proved by computing.
#![tactic(auto)]

ghost use Rattle.worked_plans.specs.Accepted.{ConcatFits, ExceptIsNotCounted, JoinColumns, JoinIsAccepted, SelectPastWidth, UnionIsCounted, UsesDouble};
ghost use Rattle.worked_plans.specs.Groups.{GroupWeights, GroupWeightsAfter};
ghost use Rattle.worked_plans.specs.Items.{ManyWeights};
ghost use Rattle.worked_plans.specs.Joins.{JoinUses, JoinWeights};
ghost use Rattle.worked_plans.specs.Misfits.{GroupMisfit, JoinMisfit, ManyMisfit, SelectMisfit, ShaveMisfit};
ghost use Rattle.worked_plans.specs.Paths.{PathUses, PathWeights, line, line_weights, one_way, one_way_weights, triangle, triangle_weights};
ghost use Rattle.worked_plans.specs.Pieces.{ShaveWeights};
ghost use Rattle.worked_plans.specs.Sets.{SetWeights};

/// A join of two sources by parity, and how often it uses them.
pub fn law_join()
    ensures weights { JoinWeights }
    ensures uses { JoinUses }
{}

/// A source counted by parity, before and after an update.
pub fn law_group()
    ensures before { GroupWeights }
    ensures after { GroupWeightsAfter }
{}

/// A source cut into halves.
pub fn law_shave()
    ensures { ShaveWeights }
{}

/// The set operators at a row of two sources.
pub fn law_sets()
    ensures { SetWeights }
{}

/// Paths of two edges in a triangle, with all its edges, without one of its sides, and without one
/// direction of it.
pub fn law_paths()
    ensures triangle { PathWeights triangle triangle_weights }
    ensures line { PathWeights line line_weights }
    ensures one_way { PathWeights one_way one_way_weights }
    ensures uses { PathUses }
{}

/// Rows spread over what three items give.
pub fn law_many()
    ensures { ManyWeights }
{}

/// Plans that are accepted, with a join's columns, and plans that have a fault.
pub fn law_acceptance()
    ensures join { JoinIsAccepted }
    ensures columns { JoinColumns }
    ensures except { ExceptIsNotCounted }
    ensures union_ { UnionIsCounted }
    ensures uses { UsesDouble }
    ensures column { SelectPastWidth }
{}

/// A weight that fits a concat of a source with itself, and one that doesn't.
pub fn law_fits()
    ensures { ConcatFits }
{}

/// Plans that don't fit for one value on the way: what is left before a piece, a running sum, a product, half a
/// gap, and the sum of both norms.
pub fn law_misfits()
    ensures shave { ShaveMisfit }
    ensures select { SelectMisfit }
    ensures many { ManyMisfit }
    ensures group { GroupMisfit }
    ensures join { JoinMisfit }
{}
