//! Laws of lists of changes.
ghost use Rattle.weighted_set.specs.Laws.{ChangeListLeadsThere, ChangesAreChangeList};

/// A change list makes of its first dataset its second, and is the only way in which changes can be made.
pub fn law_changes()
    ensures leads_there { ChangeListLeadsThere }
    ensures is_change_list { ChangesAreChangeList }
{}
