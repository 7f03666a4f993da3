//! A run that loads files from a shelf in memory.

use io_edge::{MemShelf, MemSink, MemSource, SureNoise};
use std::test::Fail;
use trial_runs::run_with_files;

const SESSION: &str = r#"{"op":"source","name":"a","kinds":["int"],"signed":false,"budget":300000}
{"op":"load","source":"a","path":"d.csv","header":true}
{"op":"load","source":"a","path":"e.csv","header":true}
{"op":"load","source":"a","path":"long.csv"}
{"op":"load","source":"a","path":"../d.csv"}
{"op":"load","source":"a","path":"d.csv","header":true}
{"op":"exact","source":"a","rows":[[5]]}
"#;

const REPLIES: &str = r#"{"ok":true}
{"ok":true,"records":1}
{"ok":false,"why":"file_missing"}
{"ok":false,"why":"file_long"}
{"field":"path","ok":false,"why":"name"}
{"ok":false,"why":"file"}
{"ok":true,"weights":["1"]}
"#;

#[test]
fn files_are_loaded_or_refused(rt: HostRuntime) -> Result<(), Fail> {
    let alloc = rt.alloc();
    let mut shelf = MemShelf::new(alloc);
    shelf.put(b"d.csv", Vec::from_slice(alloc, b"n,w\n5,1\n")?)?;
    shelf.put(b"long.csv", vec![in alloc; b'1'; 16_777_217]?)?;
    // The shelf is asked at each load of a path, and fails at the fourth.
    shelf.fail_at(3)?;
    let source = MemSource::new(
        Vec::from_slice(alloc, SESSION.as_bytes())?,
        64,
        Vec::new(alloc),
    );
    let sink = MemSink::new(alloc, 1_000, 64, Vec::new(alloc))?;
    let (ending, written) = run_with_files(
        alloc,
        &["--curator"],
        source,
        sink,
        &mut SureNoise::new(),
        &mut shelf,
    )?;
    assert_eq!(rt; written.as_str(), REPLIES);
    assert_eq!(rt; (ending.status, ending.lines), (0, 7));
    Ok(())
}
