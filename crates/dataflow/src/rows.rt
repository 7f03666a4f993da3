//! The rows of a dataset in a store, each under itself as the key.
ghost use Rattle.std.specs.Prelude.{◌≡◌, ◌+◌, ◌≤◌, OnErr, OnOk, length};
ghost use Rattle.datasets.specs.Dataset.{Dataset, at};
ghost use Rattle.datasets.specs.Entries.{Row as RowValue};
ghost use Rattle.dataflow.specs.Outputs.{HoldRows};
ghost use Rattle.weighted_set.specs.Changes.{applied};
ghost use Rattle.weighted_set.specs.Parts.{committed_part, pending_part};

use frac_core::Frac;
use record_text::Row;
use std::sync::ledger::Ledger;
use steps::Steps;
use weighted_set::{Change, Memory, PartStore};

/// Makes changes of rows pending, each under its row as the key. It takes one tick for each of them. After a
/// refusal nothing is pending.
pub fn put_rows<L: Ledger>(
    out: &mut PartStore,
    changes: &[Change],
    steps: &mut Steps<L>,
) -> Result<(), Memory>
    ensures committed { (k : RowValue) → committed_part out.new k ≡ committed_part out.old k }
    ensures ok { OnOk result ((A : Dataset) → HoldRows (pending_part out.old) A → HoldRows (pending_part out.new) (applied A changes.now)) }
    ensures err { OnErr result ((k : RowValue) → pending_part out.new k ≡ committed_part out.old k) }
    ensures ticks { steps.new ≤ steps.old + length changes.now }
{
    for change in changes {
        match out.put_pending(&change.row, &change.row, change.new, steps) {
            Ok(()) => {}
            Err(fault) => {
                out.abort();
                return Err(fault);
            }
        }
    }
    Ok(())
}

/// The committed weight of a row. It takes one tick.
pub fn row_weight<L: Ledger>(out: &PartStore, row: &Row, steps: &mut Steps<L>) -> Frac
    ensures weight { (A : Dataset) → HoldRows (committed_part out.now) A → result ≡ at A row.now }
    ensures ticks { steps.new ≡ steps.old + 1 }
{
    out.weight(row, row, steps)
}
