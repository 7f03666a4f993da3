//! Tests of `json_fields`.
use json_fields::{are_texts, list_of, unknown_key};
use serde_json::Value;
use std::alloc::Global;
use std::test::Fail;

// How many members a list has, and whether each is a text.
fn members(alloc: Global, json: &str) -> Result<Option<(usize, bool)>, Fail> {
    let value = Value::from_str(alloc, json)?;
    Ok(match list_of(&value) {
        Some(list) => Some((list.len(), are_texts(list))),
        None => None,
    })
}

#[test]
fn lists_are_looked_into(rt: HostRuntime) -> Result<(), Fail> {
    let rows = [
        ("[\"x\",\"y\"]", Some((2, true))),
        ("[\"x\",1]", Some((2, false))),
        ("[]", Some((0, true))),
        ("null", None),
    ];
    for (json, answer) in rows {
        assert_eq!(rt; members(rt.alloc(), json)?, answer, "{json}");
    }
    Ok(())
}

// The least key of an object that is none of the known ones.
fn unknown<'v>(value: &'v Value, known: &[&str]) -> Option<&'v str> {
    unknown_key(value.as_object()?, known)
}

#[test]
fn the_least_unknown_key_is_found(rt: HostRuntime) -> Result<(), Fail> {
    let value = Value::from_str(rt.alloc(), "{\"b\":[],\"a\":[],\"c\":null}")?;
    let rows: [(&[&str], Option<&str>); 3] = [
        (&["b"], Some("a")),
        (&["b", "a"], Some("c")),
        (&["a", "b", "c"], None),
    ];
    for (known, key) in rows {
        assert_eq!(rt; unknown(&value, known), key);
    }
    Ok(())
}
