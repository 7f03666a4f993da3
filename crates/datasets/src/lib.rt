//! Datasets: rows with exact weights, as contracts see them.
//!
//! A dataset is a finite map from rows to ratios other than 0. The definitions are in `specs/`; the
//! functions here run nothing, and their contracts are laws.
#![tactic(auto)]

ghost use Rattle.datasets.specs.Laws.{AddedWeightIsThere, DatasetOfEntries, DatasetOfItsEntries, DatasetOfRisingEntries, DifferingRowsDiffer, DifferingRowsRise, DistanceIsNonnegative, DistanceIsSymmetric, DistanceOverRows, DistanceToEmpty, DistanceTriangle, EmptyWeighsNothing, NoDistanceIsEquality, NormIsNonnegative, NormOverRows, NormsApart, SameWeightsAreEqual, SetToSameIsSame, SetWeightCounts, SetWeightIsThere};

/// Datasets are equal where they have the same weights, and each is the dataset of its entries.
pub fn law_equality()
    ensures same_weights { SameWeightsAreEqual }
    ensures entries { DatasetOfItsEntries }
{}

/// The weights of the empty dataset, of one with a weight set or added, and of one of entries.
pub fn law_weights()
    ensures empty { EmptyWeighsNothing }
    ensures set { SetWeightIsThere }
    ensures added { AddedWeightIsThere }
    ensures entries { DatasetOfEntries }
{}

/// How many rows there are once a weight is set, and which entries make a dataset.
pub fn law_rows()
    ensures same { SetToSameIsSame }
    ensures counts { SetWeightCounts }
    ensures rising_entries { DatasetOfRisingEntries }
{}

/// The norm of a dataset and the distance of two are sums of terms that are not below 0, over any rows
/// that cover them.
pub fn law_sizes()
    ensures norm { NormIsNonnegative }
    ensures distance { DistanceIsNonnegative }
    ensures norm_over { NormOverRows }
    ensures distance_over { DistanceOverRows }
{}

/// The distance is one: symmetric, 0 just between equals, no longer than any way round, and to the empty
/// dataset the norm.
pub fn law_distances()
    ensures symmetric { DistanceIsSymmetric }
    ensures to_empty { DistanceToEmpty }
    ensures none { NoDistanceIsEquality }
    ensures triangle { DistanceTriangle }
    ensures norms { NormsApart }
{}

/// The rows at which two datasets differ.
pub fn law_differing()
    ensures rise { DifferingRowsRise }
    ensures differ { DifferingRowsDiffer }
{}
