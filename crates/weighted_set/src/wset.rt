//! A set of rows with weights.
ghost use Rattle.std.specs.Prelude.{◌≡◌, ◌<◌, ◌++◌, OnErr, OnOk, length, slice_get};
ghost use Rattle.datasets.specs.Dataset.{at as weight_at, empty, rows, set_at};
ghost use Rattle.weighted_set.specs.Changes.{entries_of};
ghost use Rattle.weighted_set.specs.Held.{AllInRange};
ghost use Rattle.weighted_set.specs.Sizes.{checked_distance, checked_norm};

use crate::Memory;
use crate::compared::compare;
use crate::held::is_zero;
use crate::weighted::Weighted;
use frac_core::Frac;
use record_text::Row;
use std::alloc::Global;
use std::cmp::Ordering;
use std::collections::BTreeMap;
use std::marker::Model;

/// A set of rows with weights other than 0.
#[derive(Drop)]
pub struct WSet {
    table: BTreeMap<Row, Frac>,
}

impl Model for WSet {
    ghost use Rattle.datasets.specs.Code.{dataset_code};
    ghost use Rattle.datasets.specs.Dataset.{Dataset, dataset_of};
    ghost use Rattle.weighted_set.specs.Sizes.{AreWeights};

    ghost Value = { Dataset };

    ghost coded = { dataset_code };

    ghost view = { λ s. dataset_of s.table.entries };

    ghost invariant = { λ s. AreWeights s.table.entries };
}

impl WSet {
    /// A set with no rows.
    pub fn new(alloc: Global) -> WSet
        ensures { result ≡ empty }
    {
        WSet {
            table: BTreeMap::new(alloc),
        }
    }

    /// The weight of a row, 0 where it is absent.
    pub fn weight(&self, row: &Row) -> Frac
        ensures value { result ≡ weight_at self.now row.now }
        ensures in_range { AllInRange self.now }
    {
        match self.table.get(row) {
            Some(weight) => *weight,
            None => Frac::zero(),
        }
    }

    /// How many rows there are.
    pub fn len(&self) -> usize
        ensures { result ≡ length (rows self.now) }
    {
        self.table.len()
    }

    /// The row at a place, in row order from place 0 on, with its weight. It takes time in proportion to the
    /// place.
    pub fn entry(&self, at: usize) -> (&Row, Frac)
        requires { at < length (rows self.now) }
        ensures { slice_get self.now.entries at ≡ Some (result.0.now, result.1) }
    {
        let mut left = at;
        for (row, weight) in &self.table {
            if left == 0 {
                return (row, *weight);
            }
            left -= 1;
        }
        unreachable!()
    }

    /// Makes `weight` the weight of a row. After a refusal the set is unchanged.
    pub fn set(&mut self, row: Row, weight: Frac) -> Result<(), Memory>
        ensures ok { OnOk result (self.new ≡ set_at row weight self.old) }
        ensures err { OnErr result (self.new ≡ self.old) }
    {
        // Tells that the weight is in range.
        let _numerator = weight.numer();
        if is_zero(weight) {
            let _ = self.table.remove(&row);
            return Ok(());
        }
        self.table.insert(row, weight)?;
        Ok(())
    }

    /// Moves the rows behind a list, in row order, each with its weight. After a refusal the list is as it was.
    pub fn append_to(self, into: &mut Vec<Weighted>) -> Result<(), Memory>
        ensures ok { OnOk result (entries_of into.new.items ≡ entries_of into.old.items ++ self.entries) }
        ensures err { OnErr result (into.new.items ≡ into.old.items) }
    {
        into.reserve(self.table.len())?;
        for (row, weight) in self.table {
            into.push_reserved(Weighted { row, weight });
        }
        Ok(())
    }

    /// The sum of the absolute weights, or `None` where a sum on the way, in row order, is out of range.
    pub fn norm(&self) -> Option<Frac>
        ensures { result ≡ checked_norm self.now }
    {
        let mut sum = Frac::zero();
        for (_, weight) in &self.table {
            sum = sum.add(weight.abs())?;
        }
        Some(sum)
    }

    /// The sum of the absolute differences of the two weights at each row of either set, or `None` where a
    /// difference or a sum on the way, in row order, is out of range.
    pub fn distance(&self, other: &WSet) -> Option<Frac>
        ensures { result ≡ checked_distance self.now other.now }
    {
        let mut sum = Frac::zero();
        let mut left = self.table.iter();
        let mut right = other.table.iter();
        let mut first = left.next();
        let mut second = right.next();
        while let Some(lower) = compare(first, second) {
            sum = sum.add(lower.left.sub(lower.right)?.abs())?;
            match lower.order {
                Ordering::Less => first = left.next(),
                Ordering::Equal => {
                    first = left.next();
                    second = right.next();
                }
                Ordering::Greater => second = right.next(),
            }
        }
        Some(sum)
    }
}
