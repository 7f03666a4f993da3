//! The fields of a request, one reader for each kind of field. A field that is missing or is not as its
//! reader asks is `Shape` with its name.
ghost use Rattle.std.specs.Prelude.{◌≤◌, length, IfOk, map};
ghost use Rattle.serde_json.specs.View.{view, members_view};
ghost use Rattle.io_edge.specs.Path.{IsPath};
ghost use Rattle.request_fields.specs.Gives.{Gives, GivesBy};
ghost use Rattle.request_fields.specs.Fields.{bool_in, flag_in, list_in, named, no_other, path_of, shape, text_in, thing_in, whole_in};

use io_edge::{is_path, law_path};
use json_fields::{list_of, unknown_key};
use messages::{Bytes, FieldText, ReadFault, Refusal, Thing};
use record_text::Name;
use serde_json::{Map, Value};
use std::alloc::Global;

/// Refuses a field with `Shape`.
pub fn refuse<T>(alloc: Global, field: &str) -> Result<T, ReadFault>
    ensures { Gives result (shape field.now) }
{
    let text = String::from_str(alloc, field)?;
    Err(ReadFault::Refused(Refusal::Shape {
        field: FieldText::from_string(text),
        step: None,
    }))
}

/// Refuses the least key in byte order that isn't known.
#[tactic(auto, unfolding(crate::specs::Fields::no_other))]
pub fn only_known(
    alloc: Global,
    members: &Map<String, Value>,
    known: &[&str],
) -> Result<(), ReadFault>
    ensures { Gives result (no_other (map (λ name. name.now) known.now) (members_view members.now.entries)) }
{
    match unknown_key(members, known) {
        Some(key) => refuse(alloc, key),
        None => Ok(()),
    }
}

/// A text.
#[tactic(auto, unfolding(crate::specs::Fields::text_in))]
pub fn text<'v>(alloc: Global, value: &'v Value, field: &str) -> Result<&'v str, ReadFault>
    ensures { GivesBy (λ text. text.now) result (text_in field.now (view value.now)) }
{
    match value.get(field).and_then(Value::as_str) {
        Some(text) => Ok(text),
        None => refuse(alloc, field),
    }
}

/// A truth value.
#[tactic(auto, unfolding(crate::specs::Fields::bool_in))]
pub fn boolean(alloc: Global, value: &Value, field: &str) -> Result<bool, ReadFault>
    ensures { Gives result (bool_in field.now (view value.now)) }
{
    match value.get(field).and_then(Value::as_bool) {
        Some(truth) => Ok(truth),
        None => refuse(alloc, field),
    }
}

/// A truth value that may be absent, and is then false.
#[tactic(auto, unfolding(crate::specs::Fields::flag_in))]
pub fn flag(alloc: Global, value: &Value, field: &str) -> Result<bool, ReadFault>
    ensures { Gives result (flag_in field.now (view value.now)) }
{
    match value.get(field) {
        None => Ok(false),
        Some(found) => match found.as_bool() {
            Some(truth) => Ok(truth),
            None => refuse(alloc, field),
        },
    }
}

/// A whole number from `low` to `high`.
#[tactic(auto, unfolding(crate::specs::Fields::whole_in))]
pub fn whole(
    alloc: Global,
    value: &Value,
    field: &str,
    low: u64,
    high: u64,
) -> Result<u64, ReadFault>
    ensures value { Gives result (whole_in field.now low high (view value.now)) }
    ensures range { IfOk result (λ n. (low ≤ n) × (n ≤ high)) }
{
    match value.get(field).and_then(Value::as_u64) {
        Some(number) if number >= low && number <= high => Ok(number),
        _ => refuse(alloc, field),
    }
}

/// Which of the fields `plan` and `source` is there, where just one of them is. What they hold is not looked at.
#[tactic(auto, unfolding(crate::specs::Fields::thing_in))]
pub fn thing(alloc: Global, value: &Value) -> Result<Thing, ReadFault>
    ensures { Gives result (thing_in (view value.now)) }
{
    match (value.get("plan"), value.get("source")) {
        (None, None) => refuse(alloc, "plan"),
        (Some(_), None) => Ok(Thing::Plan),
        (None, Some(_)) => Ok(Thing::Source),
        (Some(_), Some(_)) => refuse(alloc, "source"),
    }
}

/// A list of `low` to `high` members.
#[tactic(auto, unfolding(crate::specs::Fields::list_in))]
pub fn list<'v>(
    alloc: Global,
    value: &'v Value,
    field: &str,
    low: usize,
    high: usize,
) -> Result<&'v [Value], ReadFault>
    ensures list { GivesBy (λ list. map view list.now) result (list_in field.now low high (view value.now)) }
    ensures size { IfOk result (λ list. (low ≤ length list.now) × (length list.now ≤ high)) }
{
    match value.get(field).and_then(list_of) {
        Some(list) if list.len() >= low && list.len() <= high => Ok(list),
        _ => refuse(alloc, field),
    }
}

/// The name that this text of a field is. `Name` where it is none.
#[tactic(auto, unfolding(crate::specs::Fields::named))]
pub fn named(alloc: Global, field: &str, text: &str) -> Result<Name, ReadFault>
    ensures { Gives result (named field.now text.now) }
{
    match Name::read(text.as_bytes()) {
        Some(name) => Ok(name),
        None => Err(ReadFault::Refused(Refusal::Name {
            field: FieldText::from_string(String::from_str(alloc, field)?),
        })),
    }
}

/// The path that this text is. `Name` of the field `path` where it is none.
#[tactic(auto, unfolding(crate::specs::Fields::path_of))]
pub fn path_of(alloc: Global, text: &str) -> Result<Bytes, ReadFault>
    ensures value { Gives result (path_of text.now) }
    ensures path { IfOk result IsPath }
{
    law_path();
    if is_path(text.as_bytes()) {
        let path = Vec::from_slice(alloc, text.as_bytes())?;
        Ok(Bytes::from_vec(path))
    } else {
        Err(ReadFault::Refused(Refusal::Name {
            field: FieldText::from_string(String::from_str(alloc, "path")?),
        }))
    }
}
