//! Lists of changes, one for each source.
ghost use Rattle.std.specs.Prelude.{◌≡◌, ℕ, ◌<◌, IfOk, [], if◌then◌else◌, get_or, length, map, nat_eq};
ghost use Rattle.dataflow.specs.Evaluation.{dataset_at};
ghost use Rattle.datasets.specs.Dataset.{empty};
ghost use Rattle.weighted_set.specs.Changes.{IsChangeList};
ghost use Rattle.weighted_set.specs.Held.{AllInRange};
ghost use Rattle.flow_graph.specs.Fresh.{committed_family};

use crate::Memory;
use std::alloc::Global;
use weighted_set::{Change, SourceSet};

// The changes of the source s, where these are those of one source, and no other changes.
fn list_at<'a>(s: usize, source: usize, changes: &'a [Change]) -> &'a [Change]
    ensures { result.now ≡ (if nat_eq s source then changes.now else []) }
{
    if s == source { changes } else { &[] }
}

/// A list for each source: these changes at one, and none elsewhere.
pub fn changes_at<'a>(
    alloc: Global,
    source_count: usize,
    source: usize,
    changes: &'a [Change],
) -> Result<Vec<&'a [Change]>, Memory>
    ensures length { IfOk result (λ lists. length lists.items ≡ source_count) }
    ensures each { IfOk result (λ lists. (s : ℕ) → s < source_count → get_or (map (λ l. l.now) lists.items) s [] ≡ (if nat_eq s source then changes.now else [])) }
{
    let mut lists = Vec::new(alloc);
    for s in 0..source_count {
        lists.push(list_at(s, source, changes))?;
    }
    Ok(lists)
}

/// The rows of each source, as the changes that make them of no rows.
pub fn all_rows(alloc: Global, sources: &SourceSet) -> Result<Vec<Vec<Change>>, Memory>
    ensures length { IfOk result (λ lists. length lists.items ≡ length sources.now) }
    ensures each { IfOk result (λ lists. (s : ℕ) → s < length sources.now → IsChangeList (get_or (map (λ l. l.items) lists.items) s []) empty (dataset_at (committed_family sources.now) s)) }
    ensures in_range { IfOk result (λ lists. (s : ℕ) → s < length sources.now → AllInRange (dataset_at (committed_family sources.now) s)) }
{
    let mut lists = Vec::new(alloc);
    for s in 0..sources.len() {
        let rows = sources.at(s).all_changes()?;
        lists.push(rows)?;
    }
    Ok(lists)
}

/// The lists, lent.
pub fn lent_lists<'a>(alloc: Global, lists: &'a [Vec<Change>]) -> Result<Vec<&'a [Change]>, Memory>
    ensures { IfOk result (λ lent. map (λ l. l.now) lent.items ≡ map (λ l. l.items) lists.now) }
{
    let mut lent = Vec::new(alloc);
    for list in lists {
        lent.push(list.as_slice())?;
    }
    Ok(lent)
}
