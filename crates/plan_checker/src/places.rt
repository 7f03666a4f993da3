//! The sources that source steps name.
ghost use Rattle.std.specs.Prelude.{◌≡◌};
ghost use Rattle.plan_model.specs.Sources.{place_of};
ghost use Rattle.plan_model.specs.Types.{source_named};

use plan_model::{SourceType, SourceTypes};
use record_text::Name;

/// The place of the source of a name, if there is one.
pub fn place_of(name: &Name, types: &SourceTypes) -> Option<usize>
    ensures { result ≡ place_of name.now types.now }
{
    for i in 0..types.len() {
        if *name == types.at(i).name {
            return Some(i);
        }
    }
    None
}

// The source of a name, if there is one.
pub(crate) fn source_named(name: &Name, types: &SourceTypes) -> Option<SourceType>
    ensures { result ≡ source_named name.now types.now }
{
    let place = place_of(name, types)?;
    Some(types.at(place))
}
