//! Sessions with sources: lines in one run, each with its reply.

use io_edge::{Noise, SureNoise};
use std::alloc::Global;
use std::process::Abort;
use std::test::Fail;
use trial_runs::{answer, numbered, repeated};

/// Wants the replies of these rows, over noise that doesn't fail.
pub fn converse(
    rt: &impl Abort,
    alloc: Global,
    words: &[&str],
    rows: &[(&str, &str)],
) -> Result<(), Fail> {
    converse_over(rt, alloc, words, rows, &mut SureNoise::new())
}

/// The same over this noise.
pub fn converse_over<N: Noise>(
    rt: &impl Abort,
    alloc: Global,
    words: &[&str],
    rows: &[(&str, &str)],
    noise: &mut N,
) -> Result<(), Fail> {
    let (told, wanted) = trial_runs::converse_over(alloc, words, rows, noise)?;
    assert_eq!(rt; told.1.as_str(), wanted.1.as_str());
    assert_eq!(rt; told.0, wanted.0);
    Ok(())
}

#[test]
fn records_of_one_row_add_up(rt: HostRuntime) -> Result<(), Fail> {
    let rows = [
        (
            r#"{"op":"update","source":"a","csv":"7,1\n7,-1\n"}"#,
            r#"{"ok":true,"records":2}"#,
        ),
        (
            r#"{"op":"exact","source":"a","rows":[[7]]}"#,
            r#"{"ok":true,"weights":["0"]}"#,
        ),
        // Below 0 in between is allowed, and below 0 at the end is not.
        (
            r#"{"op":"update","source":"a","csv":"9,-1\n9,2\n"}"#,
            r#"{"ok":true,"records":2}"#,
        ),
        (
            r#"{"op":"update","source":"a","csv":"9,-2\n"}"#,
            r#"{"ok":false,"record":0,"why":"negative"}"#,
        ),
        (
            r#"{"op":"exact","source":"a","rows":[[9]]}"#,
            r#"{"ok":true,"weights":["1"]}"#,
        ),
    ];
    converse(&rt, rt.alloc(), &["--curator"], &rows)
}

#[test]
fn a_refused_update_changes_nothing(rt: HostRuntime) -> Result<(), Fail> {
    let rows = [
        (
            r#"{"op":"update","source":"a","csv":"1,1\nx,2\n"}"#,
            r#"{"ok":false,"record":1,"what":"int","why":"csv"}"#,
        ),
        (
            r#"{"op":"update","source":"a","csv":"1\n"}"#,
            r#"{"ok":false,"record":0,"what":"width","why":"csv"}"#,
        ),
        (
            r#"{"op":"update","source":"a","csv":"1,4611686018427387903\n"}"#,
            r#"{"ok":false,"record":0,"why":"record_range"}"#,
        ),
        (
            r#"{"op":"update","source":"zz","csv":"1,1\n"}"#,
            r#"{"name":"zz","ok":false,"what":"source","why":"unknown"}"#,
        ),
        (
            r#"{"op":"exact","source":"a","rows":[[1],[2],[3],[4]]}"#,
            r#"{"ok":true,"weights":["3/4","2","1","0"]}"#,
        ),
        (
            r#"{"op":"exact","source":"b","rows":[[1],[4]]}"#,
            r#"{"ok":true,"weights":["3","2"]}"#,
        ),
    ];
    converse(&rt, rt.alloc(), &["--curator"], &rows)
}

#[test]
fn texts_are_read_from_quoted_fields_below_a_header(rt: HostRuntime) -> Result<(), Fail> {
    let rows = [
        (
            r#"{"op":"source","name":"p","kinds":["text","int"],"signed":false,"budget":0}"#,
            r#"{"ok":true}"#,
        ),
        (
            r#"{"op":"update","source":"p","header":true,"csv":"name,age,weight\n\"Smith, J\",34,1\nÅsa,29,1\n"}"#,
            r#"{"ok":true,"records":2}"#,
        ),
        (
            r#"{"op":"exact","source":"p","rows":[["Smith, J",34],["Åsa",30]]}"#,
            r#"{"ok":true,"weights":["1","0"]}"#,
        ),
    ];
    converse(&rt, rt.alloc(), &["--curator"], &rows)
}

#[test]
fn exact_weights_are_closed_without_the_word(rt: HostRuntime) -> Result<(), Fail> {
    let rows = [
        (
            r#"{"op":"exact","source":"a","rows":[[1]]}"#,
            r#"{"ok":false,"why":"curator"}"#,
        ),
        (
            r#"{"op":"exact","source":"zz","rows":[[1]]}"#,
            r#"{"name":"zz","ok":false,"what":"source","why":"unknown"}"#,
        ),
    ];
    converse(&rt, rt.alloc(), &[], &rows)
}

#[test]
fn exact_refuses_the_first_row_that_does_not_fit_or_repeats(rt: HostRuntime) -> Result<(), Fail> {
    let rows = [
        (
            r#"{"op":"exact","source":"a","rows":[[1],["x"],[1]]}"#,
            r#"{"ok":false,"row":1,"why":"row"}"#,
        ),
        (
            r#"{"op":"exact","source":"a","rows":[[1],[1],["x"]]}"#,
            r#"{"ok":false,"row":1,"why":"repeat"}"#,
        ),
        (
            r#"{"op":"exact","rows":[[1]]}"#,
            r#"{"field":"plan","ok":false,"why":"shape"}"#,
        ),
    ];
    converse(&rt, rt.alloc(), &["--curator"], &rows)
}

#[test]
fn a_source_may_be_signed_and_its_name_is_its_own(rt: HostRuntime) -> Result<(), Fail> {
    let rows = [
        (
            r#"{"op":"source","name":"a","kinds":["int"],"signed":false,"budget":300000}"#,
            r#"{"name":"a","ok":false,"what":"source","why":"exists"}"#,
        ),
        (
            r#"{"op":"source","name":"a-b","kinds":["int"],"signed":true,"budget":0}"#,
            r#"{"field":"name","ok":false,"why":"name"}"#,
        ),
        (
            r#"{"op":"source","name":"s","kinds":["int"],"signed":true,"budget":0}"#,
            r#"{"ok":true}"#,
        ),
        (
            r#"{"op":"update","source":"s","csv":"1,-1/2\n"}"#,
            r#"{"ok":true,"records":1}"#,
        ),
        (
            r#"{"op":"exact","source":"s","rows":[[1]]}"#,
            r#"{"ok":true,"weights":["-1/2"]}"#,
        ),
    ];
    converse(&rt, rt.alloc(), &["--curator"], &rows)
}

#[test]
fn sixteen_sources_are_the_most(rt: HostRuntime) -> Result<(), Fail> {
    let alloc = rt.alloc();
    let before = r#"{"op":"source","name":"s"#;
    let after = r#"","kinds":["int"],"signed":false,"budget":0}"#;
    let input = numbered(alloc, 17, before, after)?;
    let mut replies = repeated(alloc, 16, r#"{"ok":true}"#)?;
    replies.push_str("{\"ok\":false,\"what\":\"source\",\"why\":\"full\"}\n")?;
    let (ending, written) = answer(alloc, &[], input.as_str(), 64)?;
    assert_eq!(rt; written.as_str(), replies.as_str());
    assert_eq!(rt; (ending.status, ending.lines), (0, 17));
    Ok(())
}

/// The CSV text, as a JSON text has it, of so many records: row k has the weight k mod 9 + 1.
fn records(alloc: Global, count: u64) -> Result<String, Fail> {
    let mut csv = String::new(alloc);
    for row in 0..count {
        let record = format!(in alloc; "{row},{}\\n", row % 9 + 1)?;
        csv.push_str(record.as_str())?;
    }
    Ok(csv)
}

#[test]
fn an_update_of_100000_records_is_answered(rt: HostRuntime) -> Result<(), Fail> {
    let csv = records(rt.alloc(), 100_000)?;
    let input = format!(in rt.alloc();
        "{{\"op\":\"source\",\"name\":\"a\",\"kinds\":[\"int\"],\"signed\":false,\"budget\":0}}\n{{\"op\":\"update\",\"source\":\"a\",\"csv\":\"{csv}\"}}\n{{\"op\":\"exact\",\"source\":\"a\",\"rows\":[[0],[12345],[99999],[100000]]}}\n"
    )?;
    let (ending, written) = answer(rt.alloc(), &["--curator"], input.as_str(), 65_536)?;
    assert_eq!(rt;
        written.as_str(),
        "{\"ok\":true}\n{\"ok\":true,\"records\":100000}\n{\"ok\":true,\"weights\":[\"1\",\"7\",\"1\",\"0\"]}\n"
    );
    assert_eq!(rt; (ending.status, ending.lines), (0, 3));
    Ok(())
}
