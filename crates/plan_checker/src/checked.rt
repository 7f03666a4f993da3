//! What is told of an accepted plan.
ghost use Rattle.std.specs.Prelude.{◌≡◌, ◌<◌, Some, length, slice_get};

use crate::counts::Counts;
use record_text::Kinds;
use std::marker::Model;

/// The columns of an accepted plan, whether its weights may be negative, and how often it uses each source.
#[derive(Debug, Drop)]
pub struct Checked {
    columns: Kinds,
    sign: bool,
    uses: Counts,
}

impl Model for Checked {
    ghost use Rattle.plan_checker.specs.Checked.{CheckedPlan, checked_code};

    ghost Value = { CheckedPlan };

    ghost coded = { checked_code };

    ghost view = { λ c. record { columns = c.columns; sign = c.sign; uses = c.uses } };
}

impl Checked {
    pub(crate) fn new(columns: Kinds, sign: bool, uses: Counts) -> Checked
        ensures columns { result.columns ≡ columns }
        ensures sign { result.sign ≡ sign }
        ensures uses { result.uses ≡ uses }
    {
        Checked {
            columns,
            sign,
            uses,
        }
    }

    /// The columns of the plan's rows.
    pub fn columns(&self) -> Kinds
        ensures { result ≡ self.now.columns }
    {
        self.columns
    }

    /// Whether a weight of the plan may be negative.
    pub fn may_be_negative(&self) -> bool
        ensures { result ≡ self.now.sign }
    {
        self.sign
    }

    /// How often the plan uses the source at a place, from 0.
    pub fn uses(&self, source: usize) -> u64
        requires { source < length self.now.uses }
        ensures { slice_get self.now.uses source ≡ Some result }
    {
        self.uses.at(source)
    }
}
