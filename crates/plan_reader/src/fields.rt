//! The fields of a plan and of its steps.
ghost use Rattle.std.specs.Prelude.{map};
ghost use Rattle.serde_json.specs.View.{view, members_view};
ghost use Rattle.expr_text.specs.Gives.{Gives};
ghost use Rattle.plan_reader.specs.Fields.{earlier_in, format_in, name_in, only, whole_in};

use expr_text::{Field, Place, PlanText, has_only, shape};
use record_text::Name;
use serde_json::{Map, Value};

/// Refuses a field that is none of these, with the fault of this place.
pub fn only_known(
    place: Place,
    members: &Map<String, Value>,
    names: &[&str],
) -> Result<(), PlanText>
    ensures { Gives result (only place (map (λ name. name.now) names.now) (members_view members.now.entries)) }
{
    if has_only(members, names) {
        Ok(())
    } else {
        shape(place)
    }
}

/// The format, which is the number 1.
pub fn format(value: &Value) -> Result<(), PlanText>
    ensures { Gives result (format_in (view value.now)) }
{
    match value.get("format").and_then(Value::as_u64) {
        Some(1) => Ok(()),
        _ => shape(Place {
            step: 0,
            field: Field::Format,
        }),
    }
}

/// The whole number of a field, from the least to the most.
pub fn whole(place: Place, key: &str, least: u32, most: u32, value: &Value) -> Result<u32, PlanText>
    ensures { Gives result (whole_in place key.now least most (view value.now)) }
{
    match value.get(key).and_then(Value::as_u64) {
        Some(number) if least as u64 <= number && number <= most as u64 => Ok(number as u32),
        _ => shape(place),
    }
}

/// The earlier step of a field.
pub fn earlier(place: Place, key: &str, value: &Value) -> Result<usize, PlanText>
    ensures { Gives result (earlier_in place key.now (view value.now)) }
{
    match value.get(key).and_then(Value::as_u64) {
        Some(step) if step < place.step as u64 => Ok(step as usize),
        _ => shape(place),
    }
}

/// The name of a source.
pub fn name(step: usize, value: &Value) -> Result<Name, PlanText>
    ensures { Gives result (name_in step (view value.now)) }
{
    let place = Place {
        step,
        field: Field::Name,
    };
    let Some(text) = value.get("name").and_then(Value::as_str) else {
        return shape(place);
    };
    match Name::read(text.as_bytes()) {
        Some(name) => Ok(name),
        None => shape(place),
    }
}
