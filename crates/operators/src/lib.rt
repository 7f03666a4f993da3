//! What each operator makes of datasets, as contracts see it.
//!
//! An operator is given by the weight of each output row. The definitions are in `specs/`; the
//! functions here run nothing, and their contracts are laws.
#![tactic(auto)]

ghost use Rattle.operators.specs.Laws.{ConcatKeepsSigns, ConcatWeighs, ExceptWeighs, FilterKeepsSigns, FilterWeighs, GroupAtKey, GroupElsewhere, GroupKeepsSigns, GroupWeighs, IntersectKeepsSigns, IntersectWeighs, JoinElsewhere, JoinKeepsSigns, JoinPairs, JoinWeighs, LevelsAreWeights, LevelsFall, ManyKeepsSigns, ManyWeighs, SelectKeepsSigns, SelectWeighs, ShaveElsewhere, ShaveIsNotNegative, ShavePieces, ShaveWeighs, UnionKeepsSigns, UnionWeighs};

/// The dataset that stands for an operator's output has the weight of the operator's formula at
/// every row.
pub fn law_weights()
    ensures filter { FilterWeighs }
    ensures select { SelectWeighs }
    ensures many { ManyWeighs }
    ensures shave { ShaveWeighs }
    ensures union_ { UnionWeighs }
    ensures intersect { IntersectWeighs }
    ensures concat { ConcatWeighs }
    ensures except { ExceptWeighs }
    ensures join { JoinWeighs }
    ensures group { GroupWeighs }
{}

/// The output rows of a shave, of a join and of a group, and the levels of a group.
pub fn law_outputs()
    ensures pieces { ShavePieces }
    ensures pairs { JoinPairs }
    ensures levels_fall { LevelsFall }
    ensures levels_are_weights { LevelsAreWeights }
    ensures group_at_key { GroupAtKey }
{}

/// A shave, a join and a group weigh 0 at rows of another form than theirs.
pub fn law_elsewhere()
    ensures shave { ShaveElsewhere }
    ensures join { JoinElsewhere }
    ensures group { GroupElsewhere }
{}

/// Where an output has no negative weight.
pub fn law_signs()
    ensures filter { FilterKeepsSigns }
    ensures select { SelectKeepsSigns }
    ensures many { ManyKeepsSigns }
    ensures shave { ShaveIsNotNegative }
    ensures union_ { UnionKeepsSigns }
    ensures intersect { IntersectKeepsSigns }
    ensures concat { ConcatKeepsSigns }
    ensures join { JoinKeepsSigns }
    ensures group { GroupKeepsSigns }
{}
