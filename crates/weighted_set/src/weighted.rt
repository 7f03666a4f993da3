//! Rows with weights, and changes of weights.
ghost use Rattle.std.specs.Prelude.{refl};
ghost use Rattle.std.specs.Cmp.{on_equiv, on_total, partial_equiv_from_equiv, partial_order_from_agreeing_total};
ghost use Rattle.std.specs.Ordering.{as_partial_cmp};
ghost use Rattle.record_text.specs.Order.{row_cmp, row_eq};
ghost use Rattle.record_text.specs.OrderLaws.{row_equivalence, row_ties, row_total};

use frac_core::Frac;
use record_text::Row;
use std::cmp::Ordering;

/// A row with a weight.
#[derive(Drop)]
pub struct Weighted {
    pub row: Row,
    pub weight: Frac,
}

/// A row whose weight changes from `old` to `new`. Changes compare by their rows alone: a list of them has each row once.
#[derive(Drop)]
pub struct Change {
    pub row: Row,
    pub old: Frac,
    pub new: Frac,
}

impl PartialEq for Change {
    ghost eq = { λ a b. row_eq a.row b.row };

    ghost laws = { partial_equiv_from_equiv (on_equiv (λ c. c.row) row_equivalence) };

    fn eq(&self, other: &Change) -> bool {
        self.row == other.row
    }
}

impl Eq for Change {
    ghost laws = { on_equiv (λ c. c.row) row_equivalence };
}

impl PartialOrd for Change {
    ghost partial_cmp = { as_partial_cmp (λ a b. row_cmp a.row b.row) };

    ghost laws = { partial_order_from_agreeing_total (λ a b. row_cmp a.row b.row) (on_total (λ c. c.row) row_total) (λ a b. refl) (λ a b. row_ties a.row b.row) };

    fn partial_cmp(&self, other: &Change) -> Option<Ordering> {
        Some(self.cmp(other))
    }
}

impl Ord for Change {
    ghost cmp = { λ a b. row_cmp a.row b.row };

    ghost total = { on_total (λ c. c.row) row_total };

    ghost matches_partial_cmp = { λ a b. refl };

    ghost matches_eq = { λ a b. row_ties a.row b.row };

    fn cmp(&self, other: &Change) -> Ordering {
        self.row.cmp(&other.row)
    }
}
