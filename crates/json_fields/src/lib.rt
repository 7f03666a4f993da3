//! Looking into JSON values field by field, for readers that answer the first fault of one walk.
//! The definitions of such a walk stand here too, so that every reader of a text cites the same ones.
//! Nothing here knows what a field means.
#![tactic(auto)]

ghost use Rattle.std.specs.Prelude.{◌≡◌, Some, ℕ, List, map, option_map};
ghost use Rattle.std.specs.List.{list_all};
ghost use Rattle.serde_json.specs.Data.{Data, Members};
ghost use Rattle.serde_json.specs.Find.{as_object};
ghost use Rattle.serde_json.specs.Read.{read};
ghost use Rattle.serde_json.specs.View.{view, members_view};
ghost use Rattle.json_fields.specs.Fields.{list_of, is_text, is_none_of, first_unknown};
ghost use Rattle.json_fields.specs.Laws.{KeysRise};

use serde_json::{Map, Value};

/// The members of a list, or nothing for any other value.
pub fn list_of(value: &Value) -> Option<&[Value]>
    ensures { option_map (λ list. map view list.now) result ≡ list_of (view value.now) }
{
    match value.as_array() {
        Some(list) => Some(list.as_slice()),
        None => None,
    }
}

/// Whether each member is a text.
pub fn are_texts(list: &[Value]) -> bool
    ensures { result ≡ list_all is_text (map view list.now) }
{
    for value in list {
        if !value.is_string() {
            return false;
        }
    }
    true
}

/// The least key in byte order that is none of the known ones.
pub fn unknown_key<'m>(members: &'m Map<String, Value>, known: &[&str]) -> Option<&'m str>
    ensures { option_map (λ key. key.now) result
        ≡ first_unknown (map (λ name. name.now) known.now) (members_view members.now.entries) }
{
    for key in members.keys() {
        if is_unknown(key.as_str(), known) {
            return Some(key.as_str());
        }
    }
    None
}

#[tactic(auto, using(crate::proofs::Members::any_of_map))]
fn is_unknown(key: &str, known: &[&str]) -> bool
    ensures { result ≡ is_none_of (map (λ name. name.now) known.now) key.now }
{
    !known.contains(&key)
}

/// The keys of an object that was read rise in byte order, so the first unknown key is the least.
pub fn law_keys_rise()
    ensures { KeysRise }
{}
