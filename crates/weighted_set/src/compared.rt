//! The weights of one row in two sets, in a walk over both.
ghost use Rattle.std.specs.Prelude.{◌≡◌};
ghost use Rattle.weighted_set.specs.Compared.{compared_entries, compared_rows};

use frac_core::Frac;
use record_text::Row;
use std::cmp::Ordering;

/// How two rows compare, and the weights of the lower one in the set of the first and in that of the second.
#[derive(Clone, Copy, Debug)]
pub struct Compared {
    pub order: Ordering,
    pub left: Frac,
    pub right: Frac,
}

/// Compares two entries. Where one is absent, the other one is the lower.
pub fn compare(first: Option<(&Row, &Frac)>, second: Option<(&Row, &Frac)>) -> Option<Compared>
    ensures { result ≡ compared_entries first.entry second.entry }
{
    match (first, second) {
        (None, None) => None,
        (Some((_, weight)), None) => Some(Compared {
            order: Ordering::Less,
            left: *weight,
            right: Frac::zero(),
        }),
        (None, Some((_, weight))) => Some(Compared {
            order: Ordering::Greater,
            left: Frac::zero(),
            right: *weight,
        }),
        (Some((row, left)), Some((other, right))) => Some(compare_rows(row, *left, other, *right)),
    }
}

// Compares two rows with a weight each.
fn compare_rows(row: &Row, left: Frac, other: &Row, right: Frac) -> Compared
    ensures { result ≡ compared_rows row.now left other.now right }
{
    let order = row.cmp(other);
    match order {
        Ordering::Less => Compared {
            order,
            left,
            right: Frac::zero(),
        },
        Ordering::Equal => Compared { order, left, right },
        Ordering::Greater => Compared {
            order,
            left: Frac::zero(),
            right,
        },
    }
}
