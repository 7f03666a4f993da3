//! Tests of `record_text`.
use crate::orders::misplaced;
use record_text::{
    Atom, AtomFault, Kind, Kinds, Memory, Name, Row, RowFault, ShortText, TextFault,
    atom_from_field, row_from_json, row_to_json,
};
use serde_json::Value;
use std::alloc::Global;
use std::collections::HashMap;
use std::test::Fail;

fn read(alloc: Global, json: &str) -> Result<Row, Fail> {
    let value = Value::from_str(alloc, json)?;
    Ok(row_from_json(alloc, &value)?)
}

fn written(alloc: Global, row: &Row) -> Result<String, Fail> {
    let value = row_to_json(alloc, row)?;
    Ok(value.to_string(alloc)?)
}

fn read_all(alloc: Global, texts: &[&str]) -> Result<Vec<Row>, Fail> {
    let mut rows = Vec::new(alloc);
    for json in texts {
        rows.push(read(alloc, json)?)?;
    }
    Ok(rows)
}

#[test]
fn rows_are_ordered_atom_by_atom(rt: HostRuntime) -> Result<(), Fail> {
    let rising = [
        "[-9223372036854775808]",
        "[-2, \"z\"]",
        "[-1]",
        "[0]",
        "[0, -5]",
        "[0, \"\"]",
        "[7]",
        "[9223372036854775807]",
        "[\"\"]",
        "[\"B\"]",
        "[\"a\"]",
        "[\"a\", 3]",
        "[\"aa\"]",
        "[\"b\"]",
        "[\"é\"]",
    ];
    let rows = read_all(rt.alloc(), &rising)?;
    assert_eq!(rt; misplaced(rows.as_slice()), None);
    Ok(())
}

// Whether two texts come in this order.
fn texts_rise(alloc: Global, low: &str, high: &str) -> Result<bool, TextFault> {
    let texts = [ShortText::new(alloc, low)?, ShortText::new(alloc, high)?];
    Ok(misplaced(&texts).is_none())
}

// Whether a number comes before a text.
fn number_is_below(alloc: Global, number: i64, text: &str) -> Result<bool, TextFault> {
    let text = ShortText::new(alloc, text)?;
    let atoms = [Atom::Int(number), Atom::Text(text)];
    Ok(misplaced(&atoms).is_none())
}

#[test]
fn texts_come_after_numbers_and_by_their_bytes(rt: HostRuntime) {
    assert_eq!(rt; number_is_below(rt.alloc(), 2, "1"), Ok(true));
    assert_eq!(rt; texts_rise(rt.alloc(), "B", "a"), Ok(true));
}

// Whether the copy of a text's atom is equal to it, and both are texts.
fn copies(alloc: Global, text: &str) -> Result<bool, Fail> {
    let atom = Atom::Text(ShortText::new(alloc, text)?);
    let copy = atom.try_copy()?;
    Ok(copy == atom && copy.kind() == Kind::Text)
}

#[test]
fn atoms_are_copied(rt: HostRuntime) -> Result<(), Fail> {
    assert!(rt; copies(rt.alloc(), "1")?);
    Ok(())
}

fn refusal(alloc: Global, json: &str) -> Result<Option<RowFault>, Fail> {
    let value = Value::from_str(alloc, json)?;
    Ok(match row_from_json(alloc, &value) {
        Ok(_) => None,
        Err(fault) => Some(fault),
    })
}

#[test]
fn other_values_are_no_rows(rt: HostRuntime) -> Result<(), Fail> {
    let rows = [
        ("7", RowFault::NotList),
        ("{\"a\":[1]}", RowFault::NotList),
        ("[]", RowFault::Width),
        (
            "[null,1,2,3,4,5,6,7,8,9,10,11,12,13,14,15,16]",
            RowFault::Width,
        ),
        ("[null]", RowFault::Atom { at: 0 }),
        ("[1,\"a\",[2]]", RowFault::Atom { at: 2 }),
        ("[1.5]", RowFault::Atom { at: 0 }),
        ("[9223372036854775808]", RowFault::Atom { at: 0 }),
    ];
    for (json, fault) in rows {
        assert_eq!(rt; refusal(rt.alloc(), json)?, Some(fault), "{json}");
    }
    Ok(())
}

// The refusal of a row with a text of 256 bytes.
fn refusal_of_long(alloc: Global, before: &str, after: &str) -> Result<Option<RowFault>, Fail> {
    let long = "a".repeat(alloc, 256)?;
    let json = format!(in alloc; "[{before}\"{long}\"{after}]")?;
    refusal(alloc, json.as_str())
}

#[test]
fn the_first_fault_of_a_row_is_named(rt: HostRuntime) -> Result<(), Fail> {
    let rows = [
        ("1,", ",null", RowFault::TextLong { at: 1 }),
        ("true,", "", RowFault::Atom { at: 0 }),
    ];
    for (before, after, fault) in rows {
        let answer = refusal_of_long(rt.alloc(), before, after)?;
        assert_eq!(rt; answer, Some(fault), "{before} and {after}");
    }
    Ok(())
}

// Whether a row is written as the text that it was read from.
fn is_written_back(alloc: Global, json: &str) -> Result<bool, Fail> {
    let row = read(alloc, json)?;
    Ok(written(alloc, &row)?.as_str() == json)
}

#[test]
fn rows_are_written_as_they_are_read(rt: HostRuntime) -> Result<(), Fail> {
    let most = "a".repeat(rt.alloc(), 255)?;
    let json = format!(in rt.alloc(); "[\"zażółć 😀\",-9223372036854775808,\"{most}\"]")?;
    assert!(rt; is_written_back(rt.alloc(), json.as_str())?);
    Ok(())
}

// How many atoms a row has, and whether the one in column 1 is this number.
fn second(alloc: Global, json: &str, number: i64) -> Result<(usize, bool), Fail> {
    let row = read(alloc, json)?;
    let atoms = row.len();
    Ok((atoms, 1 < atoms && *row.atom(1) == Atom::Int(number)))
}

#[test]
fn columns_are_counted_from_0(rt: HostRuntime) -> Result<(), Fail> {
    let answer = second(rt.alloc(), "[\"a\",-9223372036854775808,2]", i64::MIN)?;
    assert_eq!(rt; answer, (3, true));
    Ok(())
}

// The number of a field that is to be one.
fn number(alloc: Global, field: &str) -> Result<Option<i64>, AtomFault> {
    match atom_from_field(alloc, field.as_bytes(), Kind::Int)? {
        Atom::Int(number) => Ok(Some(number)),
        Atom::Text(_) => Ok(None),
    }
}

#[test]
fn fields_of_numbers_are_read(rt: HostRuntime) -> Result<(), Fail> {
    let rows = [
        ("+5", 5),
        ("-0", 0),
        ("007", 7),
        ("9223372036854775807", i64::MAX),
        ("-9223372036854775808", i64::MIN),
        ("+0000000000000000001", 1),
    ];
    for (field, answer) in rows {
        assert_eq!(rt; number(rt.alloc(), field), Ok(Some(answer)), "{field}");
    }
    Ok(())
}

fn refusal_of_field(alloc: Global, field: &[u8], kind: Kind) -> Option<AtomFault> {
    atom_from_field(alloc, field, kind).err()
}

#[test]
fn fields_that_are_no_numbers_are_refused(rt: HostRuntime) {
    let fields = [
        "9223372036854775808",
        "-9223372036854775809",
        "00000000000000000001",
        "",
        "-",
        "+-1",
        " 1",
        "1 ",
        "1.0",
        "é",
    ];
    for field in fields {
        let answer = refusal_of_field(rt.alloc(), field.as_bytes(), Kind::Int);
        assert_eq!(rt; answer, Some(AtomFault::NotInt), "{field}");
    }
}

#[test]
fn fields_that_are_no_texts_are_refused(rt: HostRuntime) -> Result<(), Fail> {
    let long = "a".repeat(rt.alloc(), 256)?;
    let rows: [(&[u8], Kind, AtomFault); 3] = [
        (&[b'a', 0xff], Kind::Int, AtomFault::NotInt),
        (&[b'a', 0xff], Kind::Text, AtomFault::NotUtf8),
        (long.as_bytes(), Kind::Text, AtomFault::TextLong),
    ];
    for (field, kind, fault) in rows {
        let answer = refusal_of_field(rt.alloc(), field, kind);
        assert_eq!(rt; answer, Some(fault));
    }
    Ok(())
}

// Whether a field that is to be a text is read as itself.
fn is_text(alloc: Global, field: &str) -> Result<bool, AtomFault> {
    match atom_from_field(alloc, field.as_bytes(), Kind::Text)? {
        Atom::Text(text) => Ok(text.as_str() == field),
        Atom::Int(_) => Ok(false),
    }
}

#[test]
fn fields_of_texts_are_read(rt: HostRuntime) -> Result<(), Fail> {
    let most = "a".repeat(rt.alloc(), 255)?;
    for field in ["", "7", "zażółć", most.as_str()] {
        assert_eq!(rt; is_text(rt.alloc(), field), Ok(true), "{field}");
    }
    Ok(())
}

// Whether a text of so many letters is kept as it is.
fn keeps(alloc: Global, letters: usize) -> Result<bool, Fail> {
    let text = "a".repeat(alloc, letters)?;
    let kept = ShortText::new(alloc, text.as_str())?;
    Ok(kept.as_str() == text.as_str())
}

// Whether a text of so many letters is too long.
fn is_long(alloc: Global, letters: usize) -> Result<bool, Memory> {
    let text = "a".repeat(alloc, letters)?;
    Ok(match ShortText::new(alloc, text.as_str()) {
        Err(TextFault::Long) => true,
        _ => false,
    })
}

#[test]
fn texts_of_at_most_255_bytes_are_kept(rt: HostRuntime) -> Result<(), Fail> {
    assert!(rt; keeps(rt.alloc(), 255)?);
    assert!(rt; is_long(rt.alloc(), 256)?);
    Ok(())
}

// Whether a text is a name, which is kept as it is.
fn is_name(text: &str) -> bool {
    match Name::read(text.as_bytes()) {
        Some(name) => name.as_str() == text && name.as_bytes() == text.as_bytes(),
        None => false,
    }
}

#[test]
fn names_are_of_letters_digits_and_underscores(rt: HostRuntime) {
    let names = [
        "a",
        "a_1",
        "_",
        "9",
        "Zz",
        "nnnnnnnnnnnnnnnnnnnnnnnnnnnnnnnn",
    ];
    for text in names {
        assert!(rt; is_name(text), "{text}");
    }
}

#[test]
fn other_texts_are_no_names(rt: HostRuntime) {
    let others = [
        "",
        "a-b",
        "a b",
        "é",
        "a.b",
        "@",
        "[",
        "`",
        "{",
        "/",
        ":",
        "nnnnnnnnnnnnnnnnnnnnnnnnnnnnnnnnn",
    ];
    for text in others {
        assert!(rt; Name::read(text.as_bytes()).is_none(), "{text}");
    }
}

// How many names there are, and the last place of one of them.
fn places(alloc: Global, texts: &[&str], sought: Name) -> Result<(usize, Option<usize>), Fail> {
    let mut found = HashMap::new(alloc);
    for (place, text) in texts.iter().enumerate() {
        if let Some(name) = Name::read(text.as_bytes()) {
            found.insert(name, place)?;
        }
    }
    Ok((found.len(), found.get(&sought).copied()))
}

#[test]
fn names_are_keys_of_maps(rt: HostRuntime) -> Result<(), Fail> {
    let name = Name::read(b"a").ok_or("no name")?;
    let answer = places(rt.alloc(), &["a", "b", "ab", "a"], name)?;
    assert_eq!(rt; answer, (3, Some(3)));
    Ok(())
}

// Whether these kinds are those of an Int and a Text, and whether a row fits them.
fn fits(row: &Row, kinds: &[Kind]) -> Option<(bool, bool)> {
    if kinds.is_empty() || kinds.len() > 16 {
        return None;
    }
    let kinds = Kinds::from_slice(kinds);
    let others = Kinds::from_slice(&[Kind::Int, Kind::Text]);
    Some((kinds == others, row.fits(kinds)))
}

#[test]
fn a_row_fits_its_own_kinds(rt: HostRuntime) -> Result<(), Fail> {
    let row = read(rt.alloc(), "[1,\"a\"]")?;
    let rows: [(&[Kind], bool); 5] = [
        (&[Kind::Int, Kind::Text], true),
        (&[Kind::Int], false),
        (&[Kind::Int, Kind::Int], false),
        (&[Kind::Text, Kind::Int], false),
        (&[Kind::Int, Kind::Text, Kind::Int], false),
    ];
    for (kinds, answer) in rows {
        assert_eq!(rt; fits(&row, kinds), Some((answer, answer)));
    }
    Ok(())
}

#[test]
fn kinds_are_those_of_the_columns(rt: HostRuntime) {
    let kinds = Kinds::from_slice(&[Kind::Int, Kind::Text]);
    assert_eq!(rt; kinds.len(), 2);
    assert_eq!(rt; kinds.at(1), Kind::Text);
}

#[test]
fn rows_are_copied(rt: HostRuntime) -> Result<(), Fail> {
    let row = read(rt.alloc(), "[1,\"a\"]")?;
    assert!(rt; row.try_copy()? == row);
    Ok(())
}

// The text of two rows joined, where they fit into one.
fn joined(alloc: Global, a: &Row, b: &Row) -> Result<String, Fail> {
    if 16 < a.len() + b.len() {
        return Ok(String::new(alloc));
    }
    written(alloc, &a.concat(b)?)
}

#[test]
fn rows_are_joined(rt: HostRuntime) -> Result<(), Fail> {
    let row = read(rt.alloc(), "[1,\"a\"]")?;
    let other = read(rt.alloc(), "[\"b\",2]")?;
    let both = joined(rt.alloc(), &row, &other)?;
    assert_eq!(rt; both.as_str(), "[1,\"a\",\"b\",2]");
    Ok(())
}

#[test]
fn rows_are_made_of_atoms(rt: HostRuntime) -> Result<(), Fail> {
    let mut atoms = Vec::new(rt.alloc());
    atoms.push(Atom::Int(1))?;
    assert!(rt; !atoms.is_empty() && atoms.len() <= 16);
    let row = Row::from_atoms(atoms);
    assert_eq!(rt; written(rt.alloc(), &row)?.as_str(), "[1]");
    Ok(())
}
