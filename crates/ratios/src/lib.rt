//! Ratios: the definition of exact fractions that contracts cite, with its laws.
//!
//! A ratio is a reduced pair of whole numbers of any size, whose second part is positive. The
//! definitions are in `specs/`; the functions here run nothing, and their contracts are laws.
#![tactic(auto)]

ghost use Rattle.std.specs.Cmp.{IsTotalOrder};
ghost use Rattle.ratios.specs.Laws.{AbsIsNonnegative, AbsOfSum, AbsOfZero, AddIsAssociative, AddIsCommutative, AddZeroIsSame, AtMostByCrossProducts, BelowIsNotAtLeast, CrossProductsDecide, DifferenceAddsBack, DifferenceToItself, NoDifferenceIsEquality, NoPlaceOutOfRange, RatioIsQuotient, RunningSumsAreOfFronts, RunsInRangeByFronts, SumIsOrderFree, SumOfAppended, TieIsEquality, TriangleInequality};
ghost use Rattle.ratios.specs.Ratio.{ratio_cmp};

/// The ratio of two whole numbers is their quotient, and each quotient is one ratio.
pub fn law_reduced()
    ensures quotient { RatioIsQuotient }
    ensures one_ratio_each { CrossProductsDecide }
{}

/// Ratios are totally ordered, by their cross products, and only equal ones tie.
pub fn law_order()
    ensures total { IsTotalOrder ratio_cmp }
    ensures at_most { AtMostByCrossProducts }
    ensures below { BelowIsNotAtLeast }
    ensures tie { TieIsEquality }
{}

/// Addition has 0 as its neutral element, and neither order nor grouping matters, of two or three
/// summands or of a whole list.
pub fn law_sums()
    ensures zero { AddZeroIsSame }
    ensures commutative { AddIsCommutative }
    ensures associative { AddIsAssociative }
    ensures appended { SumOfAppended }
    ensures order_free { SumIsOrderFree }
{}

/// The running sums are those of the fronts: whether all are in range, and the first that isn't.
pub fn law_running_sums()
    ensures fronts { RunningSumsAreOfFronts }
    ensures in_range { RunsInRangeByFronts }
    ensures place { NoPlaceOutOfRange }
{}

/// A difference is what has to be added, and it is 0 only between equals.
pub fn law_differences()
    ensures itself { DifferenceToItself }
    ensures none { NoDifferenceIsEquality }
    ensures adds_back { DifferenceAddsBack }
{}

/// The absolute value of a difference is a distance.
pub fn law_distances()
    ensures zero { AbsOfZero }
    ensures nonnegative { AbsIsNonnegative }
    ensures sum { AbsOfSum }
    ensures triangle { TriangleInequality }
{}
