//! Sessions with two sources: lines in one run, each with the reply that it is to have.

use crate::Memory;
use crate::runs::{Told, answer_over};
use crate::texts::of_rows;
use io_edge::{Noise, SureNoise};
use std::alloc::Global;
use wpinq_program::Ending;

/// Two sources with a few rows.
const OPENING: [(&str, &str); 4] = [
    (
        r#"{"op":"source","name":"a","kinds":["int"],"signed":false,"budget":300000}"#,
        r#"{"ok":true}"#,
    ),
    (
        r#"{"op":"source","name":"b","kinds":["int"],"signed":false,"budget":300000}"#,
        r#"{"ok":true}"#,
    ),
    (
        r#"{"op":"update","source":"a","csv":"1,3/4\n2,2\n3,1\n"}"#,
        r#"{"ok":true,"records":3}"#,
    ),
    (
        r#"{"op":"update","source":"b","csv":"1,3\n4,2\n"}"#,
        r#"{"ok":true,"records":2}"#,
    ),
];

/// Answers the lines that declare two sources and then these in one run under the words: what is told, and what is wanted.
pub fn converse(
    alloc: Global,
    words: &[&str],
    rows: &[(&str, &str)],
) -> Result<(Told, Told), Memory> {
    converse_over(alloc, words, rows, &mut SureNoise::new())
}

/// The same with this noise.
pub fn converse_over<N: Noise>(
    alloc: Global,
    words: &[&str],
    rows: &[(&str, &str)],
    noise: &mut N,
) -> Result<(Told, Told), Memory> {
    let (input, replies) = of_rows(alloc, &OPENING, rows)?;
    let told = answer_over(alloc, words, input.as_str(), 64, noise)?;
    let lines = (OPENING.len() + rows.len()) as u64;
    Ok((told, (Ending { status: 0, lines }, replies)))
}
