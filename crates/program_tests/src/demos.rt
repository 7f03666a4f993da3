//! Runs of the demo.
ghost use Rattle.std.specs.Prelude.{◌≤◌};

use io_edge::{MemSink, MemSource, SureNoise};
use std::alloc::Global;
use std::test::Fail;
use trial_runs::{Told, run};

const REPLIES: &str = r#"{"ok":true,"weights":["500","0","0","0","0"]}
{"ok":true,"weights":["1/4","1/4","1/4","1/4","0"]}
{"left":1000000,"ok":true,"spent":0,"total":1000000}
"#;

/// Runs under these words over a source that must not be read, and a sink that takes pieces of this length and fails at
/// these calls.
fn demo(alloc: Global, texts: &[&str], piece: usize, fails: Vec<u64>) -> Result<Told, Fail>
    requires { 1 ≤ piece }
{
    let unread = Vec::from_slice(alloc, b"{\"op\":\"sum\",\"weights\":[]}\n")?;
    let source = MemSource::new(unread, 64, [0].to_vec(alloc)?);
    let sink = MemSink::new(alloc, 1_000, piece, fails)?;
    Ok(run(alloc, texts, source, sink, &mut SureNoise::new())?)
}

#[test]
fn the_demo_writes_its_last_three_replies(rt: HostRuntime) -> Result<(), Fail> {
    let rows: [&[&str]; 2] = [&["--demo", "1"], &["--max-bytes=1", "--demo=1"]];
    for words in rows {
        let (ending, written) = demo(rt.alloc(), words, 1_000, Vec::new(rt.alloc()))?;
        assert_eq!(rt; written.as_str(), REPLIES, "{words:?}");
        assert_eq!(rt; (ending.status, ending.lines), (0, 1_006), "{words:?}");
    }
    Ok(())
}

#[test]
fn a_write_fault_leaves_a_front_of_the_last_replies(rt: HostRuntime) -> Result<(), Fail> {
    let rows = [
        (0, "", 1_004),
        (5, r#"{"ok":true,"weights":["500","0","0","0","0"]}"#, 1_004),
        (
            6,
            "{\"ok\":true,\"weights\":[\"500\",\"0\",\"0\",\"0\",\"0\"]}\n",
            1_005,
        ),
    ];
    for (call, front, lines) in rows {
        let (ending, written) = demo(rt.alloc(), &["--demo", "1"], 9, [call].to_vec(rt.alloc())?)?;
        assert_eq!(rt; written.as_str(), front, "{call}");
        assert_eq!(rt; (ending.status, ending.lines), (4, lines), "{call}");
    }
    Ok(())
}
