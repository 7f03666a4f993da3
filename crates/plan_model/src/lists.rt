//! The lists that steps hold.
ghost use Rattle.std.specs.Prelude.{◌≡◌, ◌<◌, ◌≤◌, IfOk, length, slice_get};
ghost use Rattle.plan_model.specs.Pieces.{piece_count};
ghost use Rattle.plan_model.specs.Sizes.{max_items, max_pieces, max_width};

use crate::expr::Expr;
use crate::step::{Item, Run};
use record_text::Memory;
use std::alloc::Global;
use std::marker::Model;

/// 1 to 16 expressions, seen as their list.
#[derive(Debug, Drop)]
pub struct Exprs {
    list: Vec<Expr>,
}

impl Model for Exprs {
    ghost use Rattle.std.specs.Coded.{codes};
    ghost use Rattle.std.specs.Prelude.{◌<◌, ◌≤◌, List, length};
    ghost use Rattle.plan_model.specs.Sizes.{max_width};
    ghost use Rattle.plan_model.specs.contracts.expr.Expr as expr;
    ghost use Rattle.plan_model.specs.declared.expr.Expr.{Expr};

    ghost Value = { List Expr };

    ghost coded = { Prim.hlevel (codes, expr.the_row.coded) };

    ghost view = { λ exprs. exprs.list.items };

    ghost invariant = { λ exprs. (0 < length exprs.list.items) × (length exprs.list.items ≤ max_width) };
}

impl Exprs {
    /// The list of these expressions, 1 to 16 of them.
    pub fn from_vec(list: Vec<Expr>) -> Exprs
        requires some { 0 < length list.items }
        requires few { length list.items ≤ max_width }
        ensures { result ≡ list.items }
    {
        Exprs { list }
    }

    /// How many expressions there are, 1 to 16.
    pub fn len(&self) -> usize
        ensures value { result ≡ length self.now }
        ensures some { 0 < result }
        ensures few { result ≤ max_width }
    {
        self.list.len()
    }

    /// The expression at a place, from 0.
    pub fn at(&self, i: usize) -> &Expr
        requires { i < length self.now }
        ensures { slice_get self.now i ≡ Some result.now }
    {
        &self.list[i]
    }

    /// Equal expressions.
    pub fn try_copy(&self, alloc: Global) -> Result<Exprs, Memory>
        ensures { IfOk result (λ copy. copy ≡ self.now) }
    {
        let mut list = Vec::with_capacity(alloc, self.list.len())?;
        for expr in self.list.as_slice() {
            let copy = expr.try_copy(alloc)?;
            list.push(copy)?;
        }
        Ok(Exprs { list })
    }
}

/// 1 to 64 items, seen as their list.
#[derive(Debug, Drop)]
pub struct Items {
    list: Vec<Item>,
}

impl Model for Items {
    ghost use Rattle.std.specs.Coded.{codes};
    ghost use Rattle.std.specs.Prelude.{◌<◌, ◌≤◌, List, length};
    ghost use Rattle.plan_model.specs.Sizes.{max_items};
    ghost use Rattle.plan_model.specs.contracts.step.Item as item;
    ghost use Rattle.plan_model.specs.declared.step.Item.{Item};

    ghost Value = { List Item };

    ghost coded = { Prim.hlevel (codes, item.the_row.coded) };

    ghost view = { λ items. items.list.items };

    ghost invariant = { λ items. (0 < length items.list.items) × (length items.list.items ≤ max_items) };
}

impl Items {
    /// The list of these items, 1 to 64 of them.
    pub fn from_vec(list: Vec<Item>) -> Items
        requires some { 0 < length list.items }
        requires few { length list.items ≤ max_items }
        ensures { result ≡ list.items }
    {
        Items { list }
    }

    /// How many items there are, 1 to 64.
    pub fn len(&self) -> usize
        ensures value { result ≡ length self.now }
        ensures some { 0 < result }
        ensures few { result ≤ max_items }
    {
        self.list.len()
    }

    /// The item at a place, from 0.
    pub fn at(&self, i: usize) -> &Item
        requires { i < length self.now }
        ensures { slice_get self.now i ≡ Some result.now }
    {
        &self.list[i]
    }

    /// Equal items.
    pub fn try_copy(&self, alloc: Global) -> Result<Items, Memory>
        ensures { IfOk result (λ copy. copy ≡ self.now) }
    {
        let mut list = Vec::with_capacity(alloc, self.list.len())?;
        for item in self.list.as_slice() {
            let copy = item.try_copy(alloc)?;
            list.push(copy)?;
        }
        Ok(Items { list })
    }
}

/// One run or more, with at most 4,096 pieces together, seen as their list.
#[derive(Debug, Drop)]
pub struct Runs {
    list: Vec<Run>,
}

impl Model for Runs {
    ghost use Rattle.std.specs.Coded.{codes};
    ghost use Rattle.std.specs.Prelude.{◌<◌, ◌≤◌, List, length};
    ghost use Rattle.plan_model.specs.Pieces.{piece_count};
    ghost use Rattle.plan_model.specs.Sizes.{max_pieces};
    ghost use Rattle.plan_model.specs.contracts.step.Run as run;
    ghost use Rattle.plan_model.specs.declared.step.Run.{Run};

    ghost Value = { List Run };

    ghost coded = { Prim.hlevel (codes, run.the_row.coded) };

    ghost view = { λ runs. runs.list.items };

    ghost invariant = { λ runs. (0 < length runs.list.items) × (piece_count runs.list.items ≤ max_pieces) };
}

impl Runs {
    /// The list of these runs, one or more, with at most 4,096 pieces together.
    pub fn from_vec(list: Vec<Run>) -> Runs
        requires some { 0 < length list.items }
        requires few { piece_count list.items ≤ max_pieces }
        ensures { result ≡ list.items }
    {
        Runs { list }
    }

    /// How many runs there are.
    pub fn len(&self) -> usize
        ensures value { result ≡ length self.now }
        ensures some { 0 < result }
        ensures few { piece_count self.now ≤ max_pieces }
    {
        self.list.len()
    }

    /// The run at a place, from 0.
    pub fn at(&self, i: usize) -> &Run
        requires { i < length self.now }
        ensures { slice_get self.now i ≡ Some result.now }
    {
        &self.list[i]
    }

    /// Equal runs.
    pub fn try_copy(&self, alloc: Global) -> Result<Runs, Memory>
        ensures { IfOk result (λ copy. copy ≡ self.now) }
    {
        let mut list = Vec::with_capacity(alloc, self.list.len())?;
        list.extend_from_slice(self.list.as_slice())?;
        Ok(Runs { list })
    }
}
