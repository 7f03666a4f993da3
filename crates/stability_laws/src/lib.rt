//! How far apart the outputs of an operator are in two worlds: no further than its inputs, all
//! of them together.
//!
//! The functions here run nothing, and their contracts are laws.
#![tactic(auto)]

ghost use Rattle.stability_laws.specs.Laws.{ConcatIsStable, ExceptIsStable, FilterIsStable, GroupIsStable, IntersectIsStable, JoinIsStable, ManyIsStable, SelectIsStable, ShaveIsStable, UnionIsStable};
ghost use Rattle.stability_laws.specs.Worlds.{ConcatWithItselfBreaks, GreaterNormBreaks, JoinWithItselfBreaks, SignedWeightsBreak, WholeGapsBreak};

/// A filter, by any test.
pub fn law_filter()
    ensures { FilterIsStable }
{}

/// A select, by any function of rows.
pub fn law_select()
    ensures { SelectIsStable }
{}

/// A many whose `over` is at least 1, with any items.
pub fn law_many()
    ensures { ManyIsStable }
{}

/// A shave into pieces of which none is below 0.
pub fn law_shave()
    ensures { ShaveIsStable }
{}

/// A union.
pub fn law_union()
    ensures { UnionIsStable }
{}

/// An intersection.
pub fn law_intersect()
    ensures { IntersectIsStable }
{}

/// A concat.
pub fn law_concat()
    ensures { ConcatIsStable }
{}

/// An except.
pub fn law_except()
    ensures { ExceptIsStable }
{}

/// A join, by any keys.
pub fn law_join()
    ensures { JoinIsStable }
{}

/// A group by any key and reducer, where no weight is negative in either world.
pub fn law_group()
    ensures { GroupIsStable }
{}

/// What the laws rest on: a join divided by the greater norm alone breaks the bound, and so does a group of
/// whole gaps, and a group of weights of both signs. One input that is used twice counts twice.
pub fn law_what_is_needed()
    ensures both_norms { GreaterNormBreaks }
    ensures half_gaps { WholeGapsBreak }
    ensures no_signs { SignedWeightsBreak }
    ensures concat_twice { ConcatWithItselfBreaks }
    ensures join_twice { JoinWithItselfBreaks }
{}
