//! Steps of plans, and their parts.
ghost use Rattle.std.specs.Prelude.{◌≡◌, IfOk, slice_get};
ghost use Rattle.plan_model.specs.Inputs.{inputs};

use crate::expr::Expr;
use crate::lists::{Exprs, Items, Runs};
use frac_core::Frac;
use record_text::{Memory, Name};
use std::alloc::Global;

/// What a row that passes the guard gives: a row, with a weight of at most 1,048,576.
#[derive(Debug, Drop)]
pub struct Item {
    pub weight: u32,
    pub guard: Option<Expr>,
    pub row: Exprs,
}

impl Item {
    /// An equal item.
    pub fn try_copy(&self, alloc: Global) -> Result<Item, Memory>
        ensures { IfOk result (λ copy. copy ≡ self.now) }
    {
        let guard = match &self.guard {
            Some(test) => Some(test.try_copy(alloc)?),
            None => None,
        };
        let row = self.row.try_copy(alloc)?;
        Ok(Item {
            weight: self.weight,
            guard,
            row,
        })
    }
}

/// So many pieces of one weight, which is above 0.
#[derive(Clone, Copy, Debug)]
pub struct Run {
    pub weight: Frac,
    pub times: u32,
}

/// What a set of rows is reduced to: the number of rows, or the least, the greatest or the sum of a
/// column.
#[derive(Clone, Copy, Debug, PartialEq, Eq)]
pub enum Reducer {
    Count,
    Min(u8),
    Max(u8),
    Sum(u8),
}

/// A set operator: the greater, the less, the sum or the difference of two weights.
#[derive(Clone, Copy, Debug, PartialEq, Eq)]
pub enum SetKind {
    Union,
    Intersect,
    Concat,
    Except,
}

/// A step of a plan. `of`, `left` and `right` are places of earlier steps.
#[derive(Debug, Drop)]
pub enum Step {
    /// The dataset of a source.
    Source {
        name: Name,
    },
    /// The rows at which the test isn't 0.
    Filter {
        of: usize,
        test: Expr,
    },
    /// Each row made anew.
    Select {
        of: usize,
        row: Exprs,
    },
    /// Each row spread over the rows that its items give.
    Many {
        of: usize,
        over: u32,
        items: Items,
    },
    /// Each row's weight cut into pieces.
    Shave {
        of: usize,
        runs: Runs,
    },
    /// A set operator on two inputs.
    Set {
        kind: SetKind,
        left: usize,
        right: usize,
    },
    /// Pairs of rows with equal keys.
    Join {
        left: usize,
        right: usize,
        left_key: Exprs,
        right_key: Exprs,
    },
    /// The rows of each key, reduced.
    Group {
        of: usize,
        key: Exprs,
        reduce: Reducer,
    },
}

impl Step {
    /// The step that is the left input, or the only one; none for a source.
    pub fn left(&self) -> Option<usize>
        ensures { result ≡ slice_get (inputs self.now) 0 }
    {
        match self {
            Step::Source { .. } => None,
            Step::Filter { of, .. }
            | Step::Select { of, .. }
            | Step::Many { of, .. }
            | Step::Shave { of, .. }
            | Step::Group { of, .. } => Some(*of),
            Step::Set { left, .. } | Step::Join { left, .. } => Some(*left),
        }
    }

    /// The step that is the right input, where there are two.
    pub fn right(&self) -> Option<usize>
        ensures { result ≡ slice_get (inputs self.now) 1 }
    {
        match self {
            Step::Set { right, .. } | Step::Join { right, .. } => Some(*right),
            _ => None,
        }
    }

    /// An equal step.
    pub fn try_copy(&self, alloc: Global) -> Result<Step, Memory>
        ensures { IfOk result (λ copy. copy ≡ self.now) }
    {
        match self {
            Step::Source { name } => Ok(Step::Source { name: *name }),
            Step::Filter { of, test } => {
                let test = test.try_copy(alloc)?;
                Ok(Step::Filter { of: *of, test })
            }
            Step::Select { of, row } => {
                let row = row.try_copy(alloc)?;
                Ok(Step::Select { of: *of, row })
            }
            Step::Many { of, over, items } => {
                let items = items.try_copy(alloc)?;
                Ok(Step::Many {
                    of: *of,
                    over: *over,
                    items,
                })
            }
            Step::Shave { of, runs } => {
                let runs = runs.try_copy(alloc)?;
                Ok(Step::Shave { of: *of, runs })
            }
            Step::Set { kind, left, right } => Ok(Step::Set {
                kind: *kind,
                left: *left,
                right: *right,
            }),
            Step::Join {
                left,
                right,
                left_key,
                right_key,
            } => {
                let left_key = left_key.try_copy(alloc)?;
                let right_key = right_key.try_copy(alloc)?;
                Ok(Step::Join {
                    left: *left,
                    right: *right,
                    left_key,
                    right_key,
                })
            }
            Step::Group { of, key, reduce } => {
                let key = key.try_copy(alloc)?;
                Ok(Step::Group {
                    of: *of,
                    key,
                    reduce: *reduce,
                })
            }
        }
    }
}
