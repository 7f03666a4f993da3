//! Lines that no writer of JSON makes.

use crate::script::{run, sink_of, source_of};
use std::alloc::Global;
use std::test::Fail;

/// What the line and a sum behind it are answered.
fn answer(alloc: Global, line: &[u8]) -> Result<String, Fail> {
    let mut input = Vec::from_slice(alloc, line)?;
    input.extend_from_slice(b"\n{\"op\":\"sum\",\"weights\":[]}\n")?;
    let source = source_of(alloc, &input, &[])?;
    let (_ending, written) = run(alloc, source, sink_of(alloc, &[])?, &[], &[])?;
    Ok(written)
}

/// This reply, and that of the sum.
fn with_sum(alloc: Global, reply: &str) -> Result<String, Fail> {
    Ok(format!(in alloc; "{reply}\n{{\"ok\":true,\"sum\":\"0\"}}\n")?)
}

const NO_JSON: &str = r#"{"ok":false,"why":"json"}"#;

#[test]
fn odd_bytes_are_refused_and_the_next_line_is_answered(rt: HostRuntime) -> Result<(), Fail> {
    let cases: [(&[u8], &str); 4] = [
        // No text has this byte.
        (b"{\"op\":\"sum\",\"weights\":[\"\xff\"]}", NO_JSON),
        // A byte 0 has to be written as an escape.
        (b"{\"op\":\"sum\",\"weights\":[\"\0\"]}", NO_JSON),
        (
            b"{\"op\":\"sum\",\"weights\":[\"\\u0000\"]}",
            r#"{"at":0,"ok":false,"text":"bad","why":"weight"}"#,
        ),
        // Of a key that is given twice the last counts.
        (
            b"{\"op\":\"sum\",\"weights\":[\"1\"],\"weights\":[\"2\"]}",
            r#"{"ok":true,"sum":"2"}"#,
        ),
    ];
    for (line, reply) in cases {
        let wanted = with_sum(rt.alloc(), reply)?;
        assert_eq!(rt; answer(rt.alloc(), line)?.as_str(), wanted.as_str());
    }
    Ok(())
}

/// So many opening brackets, and as many closing ones.
fn brackets(alloc: Global, depth: usize) -> Result<Vec<u8>, Fail> {
    let mut line = vec![in alloc; b'['; depth]?;
    line.extend_from_slice(&vec![in alloc; b']'; depth]?)?;
    Ok(line)
}

#[test]
fn deep_and_long_lines_are_refused_and_the_next_is_answered(rt: HostRuntime) -> Result<(), Fail> {
    let alloc = rt.alloc();
    let cases = [
        (
            brackets(alloc, 127)?,
            r#"{"field":"request","ok":false,"why":"shape"}"#,
        ),
        (brackets(alloc, 128)?, NO_JSON),
        (vec![in alloc; b' '; 1_048_576]?, NO_JSON),
        (
            vec![in alloc; b' '; 1_048_577]?,
            r#"{"ok":false,"why":"line"}"#,
        ),
    ];
    for (line, reply) in &cases {
        let wanted = with_sum(alloc, reply)?;
        assert_eq!(rt; answer(alloc, line)?.as_str(), wanted.as_str());
    }
    Ok(())
}
