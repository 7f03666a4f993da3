//! What a group makes of one key's part, and the walk over the part by falling weight that gives it.
//!
//! The definitions are in `specs/`; the function here runs nothing, and its contract is a law.
#![tactic(auto)]

ghost use Rattle.level_walks.specs.Laws.{WalkGivesPart};

/// A walk over a part by falling weight, with its tests, gives the output of the part.
pub fn law_walk()
    ensures { WalkGivesPart }
{}
