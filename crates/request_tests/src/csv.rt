//! Tests of reading CSV: that calls succeed, and that the definitions say what is meant.

use csv_changes::{Added, CsvFault, CsvWhat, read_changes};
use record_text::{Kind, Kinds, row_to_json};
use std::alloc::Global;
use std::test::Fail;

// The columns of the sources here.
#[derive(Clone, Copy)]
enum Columns {
    Int,
    Text,
    TextAndInt,
}

impl Columns {
    fn kinds(self) -> Kinds {
        match self {
            Columns::Int => Kinds::from_slice(&[Kind::Int]),
            Columns::Text => Kinds::from_slice(&[Kind::Text]),
            Columns::TextAndInt => Kinds::from_slice(&[Kind::Text, Kind::Int]),
        }
    }
}

// A line for each change of a CSV text: its row as JSON, a space and its weight.
fn changes(alloc: Global, csv: &str, columns: Columns, header: bool) -> Result<Vec<u8>, Fail> {
    let added = read_changes(alloc, csv.as_bytes(), columns.kinds(), header)?;
    lines(alloc, &added)
}

// The same, or the fault of the text in words.
fn answer(alloc: Global, csv: &[u8], columns: Columns, header: bool) -> Result<Vec<u8>, Fail> {
    match read_changes(alloc, csv, columns.kinds(), header) {
        Ok(added) => lines(alloc, &added),
        Err(fault) => Ok(format!(in alloc; "{fault}")?.into_bytes()),
    }
}

fn lines(alloc: Global, added: &Added) -> Result<Vec<u8>, Fail> {
    let mut text = Vec::new(alloc);
    for change in added.as_slice() {
        let row = row_to_json(alloc, &change.row)?.to_vec(alloc)?;
        text.extend_from_slice(&row)?;
        text.push(b' ')?;
        change.weight.write(alloc, &mut text)?;
        text.push(b'\n')?;
    }
    Ok(text)
}

// How many changes a CSV text has, or its fault.
fn count(alloc: Global, csv: &[u8], columns: Columns, header: bool) -> Result<usize, CsvFault> {
    let added = read_changes(alloc, csv, columns.kinds(), header)?;
    Ok(added.as_slice().len())
}

// The text behind a header that has a double quote.
fn behind_quotes(alloc: Global, csv: &[u8]) -> Result<Vec<u8>, Fail> {
    let mut text = Vec::from_slice(alloc, b"\"header\"\n")?;
    text.extend_from_slice(csv)?;
    Ok(text)
}

// A CSV text with a record of the text 1, and one of a text of so many bytes.
fn long_text(alloc: Global, len: usize) -> Result<Vec<u8>, Fail> {
    let mut csv = Vec::from_slice(alloc, b"1,1\n")?;
    csv.extend_from_slice(&vec![in alloc; b'a'; len]?)?;
    csv.extend_from_slice(b",1\n")?;
    Ok(csv)
}

#[test]
fn reads_changes_of_rows(rt: HostRuntime) -> Result<(), Fail> {
    let rows = [
        (
            "1,3/4\n2,2\n3,1\n",
            Columns::Int,
            false,
            "[1] 3/4\n[2] 2\n[3] 1\n",
        ),
        (
            "1,3/4\r\n\r\n-2,-0.5",
            Columns::Int,
            false,
            "[1] 3/4\n[-2] -1/2\n",
        ),
        ("1,1\n1,-1\n", Columns::Int, true, "[1] -1\n"),
        ("x\n1,1\n", Columns::Int, true, "[1] 1\n"),
        ("\u{feff}1,1\n", Columns::Int, false, "[1] 1\n"),
        (
            "name,age,weight\n\"Smith, J\",34,1\nÅsa,29,1\n",
            Columns::TextAndInt,
            true,
            "[\"Smith, J\",34] 1\n[\"Åsa\",29] 1\n",
        ),
        (
            "\"a \"\"b\"\"\nc\",+7,\"1/2\"\r\n,0,1",
            Columns::TextAndInt,
            false,
            "[\"a \\\"b\\\"\\nc\",7] 1/2\n[\"\",0] 1\n",
        ),
        ("", Columns::Int, false, ""),
        ("", Columns::Int, true, ""),
        ("id,weight\n", Columns::Int, true, ""),
        ("\n\r\n\n", Columns::Int, false, ""),
    ];
    for (csv, columns, header, text) in rows {
        let changes = changes(rt.alloc(), csv, columns, header)?;
        assert_eq!(rt; changes.as_slice(), text.as_bytes(), "{csv}");
    }
    Ok(())
}

#[test]
fn names_the_first_fault_of_the_first_faulty_record(rt: HostRuntime) {
    let rows: [(&[u8], Columns, bool, usize, CsvWhat); 18] = [
        (b"1,1\nx,2\n", Columns::Int, false, 1, CsvWhat::Int),
        (b"1,1\nx,2\n", Columns::Int, true, 0, CsvWhat::Int),
        (b"1\n", Columns::Int, false, 0, CsvWhat::Width),
        (b"1,1,1\n", Columns::Int, false, 0, CsvWhat::Width),
        (b"x,1,1\n", Columns::Int, false, 0, CsvWhat::Width),
        (b"1,1\n\"\"\n", Columns::Int, false, 1, CsvWhat::Width),
        (b"1,x\n", Columns::Int, false, 0, CsvWhat::Weight),
        (b"1,1/0\n", Columns::Int, false, 0, CsvWhat::Weight),
        (
            b"1,4611686018427387904\n",
            Columns::Int,
            false,
            0,
            CsvWhat::Weight,
        ),
        (b"1, 1\n", Columns::Int, false, 0, CsvWhat::Weight),
        (b"1,\n", Columns::Int, false, 0, CsvWhat::Weight),
        (b"x,x\n1\n", Columns::Int, false, 0, CsvWhat::Int),
        (b" 1,1\n", Columns::Int, false, 0, CsvWhat::Int),
        (
            b"9223372036854775808,1\n",
            Columns::Int,
            false,
            0,
            CsvWhat::Int,
        ),
        (b"a,x,x\n", Columns::TextAndInt, false, 0, CsvWhat::Int),
        (b"\xff,1,1\n", Columns::TextAndInt, false, 0, CsvWhat::Text),
        (b"\xff,x,1\n", Columns::TextAndInt, false, 0, CsvWhat::Text),
        (b"1,a,1\n", Columns::TextAndInt, false, 0, CsvWhat::Int),
    ];
    for (csv, columns, header, at, what) in rows {
        let count = count(rt.alloc(), csv, columns, header);
        assert_eq!(rt; count, Err(CsvFault::Bad { at, what }), "{csv:?}");
    }
}

#[test]
fn takes_texts_of_up_to_255_bytes(rt: HostRuntime) -> Result<(), Fail> {
    let fault = CsvFault::Bad {
        at: 1,
        what: CsvWhat::Text,
    };
    for (len, counted) in [(255, Ok(2)), (256, Err(fault))] {
        let csv = long_text(rt.alloc(), len)?;
        let count = count(rt.alloc(), &csv, Columns::Text, false);
        assert_eq!(rt; count, counted, "{len}");
    }
    Ok(())
}

#[test]
fn reads_a_text_alike_with_and_without_quotes_before_it(rt: HostRuntime) -> Result<(), Fail> {
    let rows: [&[u8]; 17] = [
        b"",
        b"\n\r\n\r",
        b"1,1",
        b"1,1\n",
        b"1,1\r\n2,-1/2\r\n",
        b"\r\n\n1,1\r2,2\n\n3,0.5\r",
        b"1,1\n \n",
        b"1,1\n,\n",
        b"1,1,\n",
        b",1\n",
        b"1,\n",
        b"1\n2,1\n",
        b"1,1\nx,x\n1,1\n",
        b"a,1,1\r,2,1\n b ,3,1",
        b"a'b\xc3\xa9,1,1\n",
        b"\xff,1,1\n",
        b"a,1,1\n1,1\n",
    ];
    for csv in rows {
        let twin = behind_quotes(rt.alloc(), csv)?;
        for columns in [Columns::Int, Columns::TextAndInt] {
            let plain = answer(rt.alloc(), csv, columns, false)?;
            let quoted = answer(rt.alloc(), &twin, columns, true)?;
            assert_eq!(rt; plain, quoted, "{csv:?}");
        }
    }
    Ok(())
}
