//! Fields and lists of a plan's text.
ghost use Rattle.std.specs.Prelude.{◌≡◌, ◌<◌, IfOk, length, map, option_map};
ghost use Rattle.serde_json.specs.View.{view, members_view};
ghost use Rattle.expr_text.specs.Gives.{GivesBy};
ghost use Rattle.expr_text.specs.Fields.{has_only, list_in};

use crate::fault::{Place, PlanText, shape};
use json_fields::{list_of, unknown_key};
use serde_json::{Map, Value};

/// Whether the object has no field but these.
pub fn has_only(members: &Map<String, Value>, names: &[&str]) -> bool
    ensures { result ≡ has_only (map (λ name. name.now) names.now) (members_view members.now.entries) }
{
    unknown_key(members, names).is_none()
}

/// A list that isn't empty.
pub fn list<'v>(place: Place, field: Option<&'v Value>) -> Result<&'v [Value], PlanText>
    ensures list { GivesBy (λ list. map view list.now) result (list_in place (option_map (λ v. view v.now) field.entry)) }
    ensures some { IfOk result (λ list. 0 < length list.now) }
{
    match field.and_then(list_of) {
        Some(list) if !list.is_empty() => Ok(list),
        _ => shape(place),
    }
}
