//! Laws of the definitions, each the contract of a function without code.
ghost use Rattle.session_core.specs.Laws.{LoadsShowWork, UpdatesShowWork};

/// An update or a load that is refused has no work, unless a plan doesn't fit; and one that is done has the work of
/// the plans from the sources before to those after.
pub fn law_work()
    ensures updates { UpdatesShowWork }
    ensures loads { LoadsShowWork }
{}
