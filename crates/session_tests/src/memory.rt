//! A line for which there was no memory, sent again.
ghost use Rattle.std.specs.Prelude.{◌≡◌, ◌<◌, Some, length};

use io_edge::{MemNoise, MemShelf, Shelf, ShelfFault};
use session_core::{Memory, Session};
use std::alloc::Global;
use std::marker::Brand;
use std::sync::ledger::{Blank, Ledger};
use std::test::Fail;
use steps::Steps;

/// A shelf in memory that has no memory at its first call.
#[derive(Drop)]
struct ShortShelf {
    shelf: MemShelf,
    calls: u64,
}

impl Shelf for ShortShelf {
    ghost files = { λ s. Some s.shelf.files };

    ghost faults = { λ s. s.shelf.faults };

    fn fetch(&mut self, path: &[u8], max: usize, into: &mut Vec<u8>) -> Result<(), ShelfFault> {
        let call = self.calls;
        self.calls = self.calls.saturating_add(1);
        if call == 0 {
            into.clear();
            return Err(ShelfFault::Memory);
        }
        self.shelf.fetch(path, max, into)
    }
}

// The shelf, with one file.
fn short_shelf(alloc: Global) -> Result<ShortShelf, Fail> {
    let mut shelf = MemShelf::new(alloc);
    shelf.put(b"d.csv", Vec::from_slice(alloc, b"n,w\n5,1\n")?)?;
    Ok(ShortShelf { shelf, calls: 0 })
}

const MEASURE: &str = r#"{"op":"measure","plan":"j","rows":[[1,1],[8,8]],"epsilon":1}"#;

const LOAD: &str = r#"{"op":"load","source":"a","path":"d.csv","header":true}"#;

// Lines that use every device, each with its reply where noise gives 5, -7, 11 and 4.
const SCRIPT: [(&str, &str); 11] = [
    (
        r#"{"op":"source","name":"a","kinds":["int"],"signed":false,"budget":300000}"#,
        r#"{"ok":true}"#,
    ),
    (
        r#"{"op":"source","name":"b","kinds":["int"],"signed":false,"budget":300000}"#,
        r#"{"ok":true}"#,
    ),
    (
        r#"{"op":"update","source":"a","csv":"1,3/4\n2,2\n3,1\n"}"#,
        r#"{"ok":true,"records":3}"#,
    ),
    (
        r#"{"op":"update","source":"b","csv":"1,3\n4,2\n"}"#,
        r#"{"ok":true,"records":2}"#,
    ),
    (
        r#"{"op":"plan","name":"j","plan":{"format":1,"steps":[{"do":"source","name":"a"},{"do":"source","name":"b"},{"do":"join","left":0,"right":1,"left_key":[{"call":"mod","args":[{"col":0},{"int":2}]}],"right_key":[{"call":"mod","args":[{"col":0},{"int":2}]}]}]}}"#,
        r#"{"cols":["int","int"],"ok":true,"uses":[["a",1],["b",1]]}"#,
    ),
    (
        r#"{"op":"exact","plan":"j","rows":[[1,1],[3,1],[2,4],[1,4]]}"#,
        r#"{"ok":true,"weights":["9/19","12/19","1","0"]}"#,
    ),
    (
        MEASURE,
        r#"{"charged":[["a",1],["b",1]],"ok":true,"values":["496698","-7"]}"#,
    ),
    (LOAD, r#"{"ok":true,"records":1}"#),
    (
        r#"{"op":"exact","plan":"j","rows":[[5,1],[1,1]]}"#,
        r#"{"ok":true,"weights":["12/23","9/23"]}"#,
    ),
    (
        MEASURE,
        r#"{"charged":[["a",1],["b",1]],"ok":true,"values":["410323","4"]}"#,
    ),
    (
        r#"{"op":"budget","source":"a"}"#,
        r#"{"left":299998,"ok":true,"spent":2,"total":300000}"#,
    ),
];

// Answers a line, and once more where there was no memory for it. Tells how often it was sent, 0 times where it is
// empty.
fn send<L: Ledger>(
    session: &mut Session,
    noise: &mut MemNoise,
    shelf: &mut ShortShelf,
    line: &str,
    reply: &mut Vec<u8>,
    steps: &mut Steps<L>,
) -> Result<u64, Memory> {
    if line.is_empty() {
        return Ok(0);
    }
    let line = line.as_bytes();
    if session.answer(line, noise, shelf, reply, steps).is_ok() {
        return Ok(1);
    }
    session.answer(line, noise, shelf, reply, steps)?;
    Ok(2)
}

// How often each line of the script was sent, and its reply.
fn talk_counted<L: Ledger>(
    alloc: Global,
    blank: Blank,
    noise: &mut MemNoise,
    shelf: &mut ShortShelf,
) -> Result<Vec<(u64, String)>, Fail>
    requires name { blank.name ≡ L.name }
    requires parts { blank.parts ≡ L.parts }
    requires some { 0 < blank.parts }
{
    let mut steps: Steps<L> = Steps::new(blank);
    let mut session = Session::new(alloc, true)?;
    let mut told = Vec::new(alloc);
    for (line, _) in &SCRIPT {
        let mut reply = Vec::new(alloc);
        let sent = send(&mut session, noise, shelf, line, &mut reply, &mut steps)?;
        told.push((sent, String::from_utf8(reply)?))?;
    }
    Ok(told)
}

// The same with a counter of its own.
fn talk(
    alloc: Global,
    noise: &mut MemNoise,
    shelf: &mut ShortShelf,
) -> Result<Vec<(u64, String)>, Fail> {
    talk_counted::<Brand>(alloc, Blank::new(1), noise, shelf)
}

#[test]
fn a_line_without_memory_is_sent_again(rt: HostRuntime) -> Result<(), Fail> {
    let alloc = rt.alloc();
    let numbers = Vec::from_slice(alloc, &[5, -7, 11, 4])?;
    let mut noise = MemNoise::new(alloc, numbers, Vec::new(alloc))?;
    let told = talk(alloc, &mut noise, &mut short_shelf(alloc)?)?;
    assert_eq!(rt; told.len(), SCRIPT.len());
    for ((sent, got), (line, reply)) in told.iter().zip(&SCRIPT) {
        let wanted = format!(in alloc; "{reply}\n")?;
        assert_eq!(rt; got.as_str(), wanted.as_str(), "{line}");
        assert_eq!(rt; *sent, if *line == LOAD { 2 } else { 1 }, "{line}");
    }
    Ok(())
}
