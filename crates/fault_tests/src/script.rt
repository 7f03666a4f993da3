//! A session that uses every device, which the tests disturb.

use io_edge::{MemNoise, MemShelf, MemSink, MemSource};
use std::alloc::Global;
use trial_runs::{Memory, Told, of_rows, run_with_files};

/// Lines, each with its reply.
pub type Rows<'a> = &'a [(&'a str, &'a str)];

/// Two sources with rows, and a plan that joins them.
pub const OPENING: [(&str, &str); 6] = [
    (
        r#"{"op":"source","name":"a","kinds":["int"],"signed":false,"budget":300000}"#,
        r#"{"ok":true}"#,
    ),
    (
        r#"{"op":"source","name":"b","kinds":["int"],"signed":false,"budget":300000}"#,
        r#"{"ok":true}"#,
    ),
    (
        r#"{"op":"update","source":"a","csv":"1,3/4\n2,2\n3,1\n"}"#,
        r#"{"ok":true,"records":3}"#,
    ),
    (
        r#"{"op":"update","source":"b","csv":"1,3\n4,2\n"}"#,
        r#"{"ok":true,"records":2}"#,
    ),
    (
        r#"{"op":"plan","name":"j","plan":{"format":1,"steps":[{"do":"source","name":"a"},{"do":"source","name":"b"},{"do":"join","left":0,"right":1,"left_key":[{"call":"mod","args":[{"col":0},{"int":2}]}],"right_key":[{"call":"mod","args":[{"col":0},{"int":2}]}]}]}}"#,
        r#"{"cols":["int","int"],"ok":true,"uses":[["a",1],["b",1]]}"#,
    ),
    (
        r#"{"op":"exact","plan":"j","rows":[[1,1],[3,1],[2,4],[1,4]]}"#,
        r#"{"ok":true,"weights":["9/19","12/19","1","0"]}"#,
    ),
];

/// A measurement of two rows.
pub const MEASURE: &str = r#"{"op":"measure","plan":"j","rows":[[1,1],[8,8]],"epsilon":1}"#;

/// The load of a file of one record and a header.
pub const LOAD: (&str, &str) = (
    r#"{"op":"load","source":"a","path":"d.csv","header":true}"#,
    r#"{"ok":true,"records":1}"#,
);

/// What follows the opening: a measurement, and a load.
pub const REST: [(&str, &str); 2] = [
    (
        MEASURE,
        r#"{"charged":[["a",1],["b",1]],"ok":true,"values":["496698","-7"]}"#,
    ),
    LOAD,
];

/// The lines of the opening and these, and their replies, each as one text.
pub fn texts(alloc: Global, rows: Rows) -> Result<(String, String), Memory> {
    of_rows(alloc, &OPENING, rows)
}

/// Runs the top call with the curator's word: how it ends, and what is written. The noise gives 5, -7, 11 and 4, and
/// fails at these calls, and so does the shelf, which has the file that is loaded.
pub fn run(
    alloc: Global,
    source: MemSource,
    sink: MemSink,
    noise_fails: &[u64],
    shelf_fails: &[u64],
) -> Result<Told, Memory> {
    let numbers = Vec::from_slice(alloc, &[5, -7, 11, 4])?;
    let mut noise = MemNoise::new(alloc, numbers, Vec::from_slice(alloc, noise_fails)?)?;
    let mut shelf = MemShelf::new(alloc);
    shelf.put(b"d.csv", Vec::from_slice(alloc, b"n,w\n5,1\n")?)?;
    for call in shelf_fails {
        shelf.fail_at(*call)?;
    }
    run_with_files(alloc, &["--curator"], source, sink, &mut noise, &mut shelf)
}

/// A source of these bytes, in pieces of 7.
pub fn source_of(alloc: Global, bytes: &[u8], fails: &[u64]) -> Result<MemSource, Memory> {
    let bytes = Vec::from_slice(alloc, bytes)?;
    Ok(MemSource::new(bytes, 7, Vec::from_slice(alloc, fails)?))
}

/// A sink that takes 5 bytes in a call.
pub fn sink_of(alloc: Global, fails: &[u64]) -> Result<MemSink, Memory> {
    MemSink::new(alloc, 10_000, 5, Vec::from_slice(alloc, fails)?)
}
