//! The book.
ghost use Rattle.std.specs.Prelude.{◌≡◌, ◌<◌, ◌≤◌, ◌++◌, [], ◌∷◌, All, None, OnErr, OnOk, length};
ghost use Rattle.budget_book.specs.Asks.{AreAsks, charged, first_short};
ghost use Rattle.budget_book.specs.Budgets.{IsKept, max_total, new_budget, spent_at, total_at};

use crate::budget::Budget;
use crate::{Ask, Memory, Short};
use std::alloc::Global;
use std::marker::Model;

/// The budgets of sources in order of declaration, seen as the list of their totals and what is spent of each.
#[derive(Drop)]
pub struct Book {
    budgets: Vec<Budget>,
}

impl Model for Book {
    ghost use Rattle.std.specs.Prelude.{All, List};
    ghost use Rattle.budget_book.specs.Budgets.{IsKept};
    ghost use Rattle.budget_book.specs.declared.budget.Budget.{Budget};

    ghost Value = { List Budget };

    ghost view = { λ book. book.budgets.items };

    ghost invariant = { λ book. All IsKept book.budgets.items };
}

impl Book {
    /// No sources.
    pub fn new(alloc: Global) -> Book
        ensures { result ≡ [] }
    {
        Book {
            budgets: Vec::new(alloc),
        }
    }

    /// Appends a source of which nothing is spent. After `Memory` nothing is changed.
    pub fn add_source(&mut self, total: u64) -> Result<(), Memory>
        requires { total ≤ max_total }
        ensures ok { OnOk result (self.new ≡ self.old ++ new_budget total ∷ []) }
        ensures err { OnErr result (self.new ≡ self.old) }
    {
        self.budgets.push(Budget { total, spent: 0 })?;
        Ok(())
    }

    /// How many sources there are.
    pub fn len(&self) -> usize
        ensures value { result ≡ length self.now }
        ensures kept { All IsKept self.now }
    {
        self.budgets.len()
    }

    /// The first ask whose amount and what is spent of its source are together over the total. There is none
    /// exactly where all that is asked may be charged.
    pub fn can(&self, asks: &[Ask]) -> Option<Short>
        requires { AreAsks (length self.now) asks.now }
        ensures { result ≡ first_short self.now asks.now }
    {
        for ask in asks {
            let budget = self.budgets[ask.source];
            if budget.spent + ask.amount > budget.total {
                return Some(Short {
                    source: ask.source,
                    left: budget.total - budget.spent,
                    asked: ask.amount,
                });
            }
        }
        None
    }

    /// Spends what is asked of each source; all else stays.
    pub fn charge(&mut self, asks: &[Ask])
        requires asks { AreAsks (length self.old) asks.now }
        requires can { first_short self.old asks.now ≡ None }
        ensures value { self.new ≡ charged self.old asks.now }
        ensures kept { All IsKept self.new }
    {
        for ask in asks {
            self.budgets[ask.source].spent += ask.amount;
        }
    }

    /// How much may be spent of a source, at most 10^15.
    pub fn total(&self, source: usize) -> u64
        requires { source < length self.now }
        ensures value { result ≡ total_at self.now source }
        ensures limit { result ≤ max_total }
    {
        self.budgets[source].total
    }

    /// How much is spent of a source, at most its total.
    pub fn spent(&self, source: usize) -> u64
        requires { source < length self.now }
        ensures value { result ≡ spent_at self.now source }
        ensures within { result ≤ total_at self.now source }
    {
        self.budgets[source].spent
    }
}
