//! Tests of sessions: lines that are answered one after another.
ghost use Rattle.std.specs.Prelude.{◌≡◌, ◌<◌, length};

use io_edge::{MemShelf, SureNoise};
use session_core::{MAX_LINE, Session};
use std::alloc::Global;
use std::marker::Brand;
use std::sync::ledger::{Blank, Ledger};
use std::test::Fail;
use steps::Steps;

const SOURCE: &str = r#"{"op":"source","name":"a","kinds":["int"],"signed":false,"budget":0}"#;

const DONE: &str = r#"{"ok":true}"#;

const PLANNED: &str = r#"{"cols":["int"],"ok":true,"uses":[["a",1]]}"#;

const ONE_MORE: &str =
    r#"{"op":"plan","name":"more","plan":{"format":1,"steps":[{"do":"source","name":"a"}]}}"#;

// Whether the session answers the line with this reply.
fn has_reply<L: Ledger>(
    alloc: Global,
    session: &mut Session,
    shelf: &mut MemShelf,
    line: &str,
    wanted: &str,
    steps: &mut Steps<L>,
) -> Result<bool, Fail>
    requires { 0 < length line.now }
{
    let mut noise = SureNoise::new();
    let mut reply = Vec::new(alloc);
    session.answer(line.as_bytes(), &mut noise, shelf, &mut reply, steps)?;
    Ok(reply.pop() == Some(b'\n') && reply.as_slice() == wanted.as_bytes())
}

// The place of the first row whose line is empty or gets another reply.
fn first_wrong_in<L: Ledger>(
    alloc: Global,
    session: &mut Session,
    shelf: &mut MemShelf,
    rows: &[(String, String)],
    steps: &mut Steps<L>,
) -> Result<Option<usize>, Fail> {
    for (at, (line, wanted)) in rows.iter().enumerate() {
        let (line, wanted) = (line.as_str(), wanted.as_str());
        if line.is_empty() || !has_reply(alloc, session, shelf, line, wanted, steps)? {
            return Ok(Some(at));
        }
    }
    Ok(None)
}

// The same in a session of its own, with a counter of steps from the blank page.
fn first_wrong_counted<L: Ledger>(
    alloc: Global,
    blank: Blank,
    shelf: &mut MemShelf,
    rows: &[(String, String)],
) -> Result<Option<usize>, Fail>
    requires name { blank.name ≡ L.name }
    requires parts { blank.parts ≡ L.parts }
    requires some { 0 < blank.parts }
{
    let mut steps: Steps<L> = Steps::new(blank);
    let mut session = Session::new(alloc, true)?;
    first_wrong_in(alloc, &mut session, shelf, rows, &mut steps)
}

// The same with a counter of its own.
fn first_wrong_over(
    alloc: Global,
    shelf: &mut MemShelf,
    rows: &[(String, String)],
) -> Result<Option<usize>, Fail> {
    first_wrong_counted::<Brand>(alloc, Blank::new(1), shelf, rows)
}

// The same with a shelf without files.
fn first_wrong(alloc: Global, rows: &[(String, String)]) -> Result<Option<usize>, Fail> {
    first_wrong_over(alloc, &mut MemShelf::new(alloc), rows)
}

fn owned_row(alloc: Global, line: &str, reply: &str) -> Result<(String, String), Fail> {
    let line = String::from_str(alloc, line)?;
    let reply = String::from_str(alloc, reply)?;
    Ok((line, reply))
}

fn owned(alloc: Global, rows: &[(&str, &str)]) -> Result<Vec<(String, String)>, Fail> {
    let mut list = Vec::new(alloc);
    for (line, reply) in rows {
        list.push(owned_row(alloc, line, reply)?)?;
    }
    Ok(list)
}

// The place of the first row whose line gets another reply, in one session.
fn first_wrong_of(alloc: Global, rows: &[(&str, &str)]) -> Result<Option<usize>, Fail> {
    let rows = owned(alloc, rows)?;
    first_wrong(alloc, &rows)
}

// The bytes of a file that has one too many.
fn long_file(alloc: Global) -> Result<Vec<u8>, Fail> {
    Ok(vec![in alloc; b'1'; 16_777_217]?)
}

// A shelf that has two files, of which one is a byte too long, and that fails at the call of this number.
fn shelf_of_two(alloc: Global, fails_at: u64) -> Result<MemShelf, Fail> {
    let mut shelf = MemShelf::new(alloc);
    shelf.put(b"d.csv", Vec::from_slice(alloc, b"n,w\n5,1\n")?)?;
    shelf.put(b"long.csv", long_file(alloc)?)?;
    shelf.fail_at(fails_at)?;
    Ok(shelf)
}

// The same with such a shelf.
fn first_wrong_with_files(
    alloc: Global,
    fails_at: u64,
    rows: &[(&str, &str)],
) -> Result<Option<usize>, Fail> {
    let mut shelf = shelf_of_two(alloc, fails_at)?;
    let rows = owned(alloc, rows)?;
    first_wrong_over(alloc, &mut shelf, &rows)
}

#[test]
fn a_line_over_the_limit_is_refused_unread(rt: HostRuntime) -> Result<(), Fail> {
    let overlong = String::from_utf8(vec![in rt.alloc(); b'{'; MAX_LINE + 1]?)?;
    let rows = [
        (overlong.as_str(), r#"{"ok":false,"why":"line"}"#),
        ("{", r#"{"ok":false,"why":"json"}"#),
    ];
    assert_eq!(rt; first_wrong_of(rt.alloc(), &rows)?, None);
    Ok(())
}

#[test]
fn a_refusal_changes_nothing(rt: HostRuntime) -> Result<(), Fail> {
    let rows = [
        (SOURCE, DONE),
        (
            r#"{"op":"update","source":"a","csv":"1,3/4\n"}"#,
            r#"{"ok":true,"records":1}"#,
        ),
        (
            r#"{"op":"update","source":"a","csv":"2,1\n1,-1\n"}"#,
            r#"{"ok":false,"record":1,"why":"negative"}"#,
        ),
        (
            r#"{"op":"exact","source":"a","rows":[[1],[2]]}"#,
            r#"{"ok":true,"weights":["3/4","0"]}"#,
        ),
    ];
    assert_eq!(rt; first_wrong_of(rt.alloc(), &rows)?, None);
    Ok(())
}

#[test]
fn a_refused_update_leaves_source_and_plans(rt: HostRuntime) -> Result<(), Fail> {
    let rows = [
        (
            r#"{"op":"source","name":"s","kinds":["int"],"signed":false,"budget":0}"#,
            r#"{"ok":true}"#,
        ),
        (
            r#"{"op":"update","source":"s","csv":"1,1\n"}"#,
            r#"{"ok":true,"records":1}"#,
        ),
        (
            r#"{"op":"plan","name":"p1","plan":{"format":1,"steps":[{"do":"source","name":"s"}]}}"#,
            r#"{"cols":["int"],"ok":true,"uses":[["s",1]]}"#,
        ),
        (
            r#"{"op":"plan","name":"p2","plan":{"format":1,"steps":[{"do":"source","name":"s"},{"do":"select","of":0,"row":[{"int":0}]}]}}"#,
            r#"{"cols":["int"],"ok":true,"uses":[["s",1]]}"#,
        ),
        (
            r#"{"op":"update","source":"s","csv":"2,4611686018427387903\n"}"#,
            r#"{"ok":false,"plan":"p2","step":1,"why":"range"}"#,
        ),
        (
            r#"{"op":"exact","source":"s","rows":[[1],[2]]}"#,
            r#"{"ok":true,"weights":["1","0"]}"#,
        ),
        (
            r#"{"op":"exact","plan":"p1","rows":[[1],[2]]}"#,
            r#"{"ok":true,"weights":["1","0"]}"#,
        ),
        (
            r#"{"op":"update","source":"s","csv":"2,3\n"}"#,
            r#"{"ok":true,"records":1}"#,
        ),
        (
            r#"{"op":"exact","plan":"p1","rows":[[1],[2]]}"#,
            r#"{"ok":true,"weights":["1","3"]}"#,
        ),
        (
            r#"{"op":"exact","plan":"p2","rows":[[0]]}"#,
            r#"{"ok":true,"weights":["4"]}"#,
        ),
    ];
    assert_eq!(rt; first_wrong_of(rt.alloc(), &rows)?, None);
    Ok(())
}

#[test]
fn a_source_that_is_declared_later_leaves_plans_as_they_are(rt: HostRuntime) -> Result<(), Fail> {
    let look = r#"{"op":"exact","plan":"p","rows":[[1],[2]]}"#;
    let rows = [
        (
            r#"{"op":"source","name":"s","kinds":["int"],"signed":false,"budget":0}"#,
            r#"{"ok":true}"#,
        ),
        (
            r#"{"op":"plan","name":"p","plan":{"format":1,"steps":[{"do":"source","name":"s"}]}}"#,
            r#"{"cols":["int"],"ok":true,"uses":[["s",1]]}"#,
        ),
        (
            r#"{"op":"source","name":"t","kinds":["int"],"signed":false,"budget":0}"#,
            r#"{"ok":true}"#,
        ),
        (
            r#"{"op":"update","source":"t","csv":"1,5\n"}"#,
            r#"{"ok":true,"records":1}"#,
        ),
        (look, r#"{"ok":true,"weights":["0","0"]}"#),
        (
            r#"{"op":"update","source":"s","csv":"2,3\n"}"#,
            r#"{"ok":true,"records":1}"#,
        ),
        (look, r#"{"ok":true,"weights":["0","3"]}"#),
    ];
    assert_eq!(rt; first_wrong_of(rt.alloc(), &rows)?, None);
    Ok(())
}

#[test]
fn a_dropped_name_is_free(rt: HostRuntime) -> Result<(), Fail> {
    let plan =
        r#"{"op":"plan","name":"p","plan":{"format":1,"steps":[{"do":"source","name":"a"}]}}"#;
    let drop = r#"{"op":"drop","plan":"p"}"#;
    let rows = [
        (SOURCE, DONE),
        (plan, PLANNED),
        (
            plan,
            r#"{"name":"p","ok":false,"what":"plan","why":"exists"}"#,
        ),
        (drop, r#"{"ok":true}"#),
        (
            drop,
            r#"{"name":"p","ok":false,"what":"plan","why":"unknown"}"#,
        ),
        (
            r#"{"op":"exact","plan":"p","rows":[[1]]}"#,
            r#"{"name":"p","ok":false,"what":"plan","why":"unknown"}"#,
        ),
        (plan, PLANNED),
    ];
    assert_eq!(rt; first_wrong_of(rt.alloc(), &rows)?, None);
    Ok(())
}

// A source, so many plans under numbered names, and one more, each with its reply.
fn plan_rows(alloc: Global, count: usize) -> Result<Vec<(String, String)>, Fail> {
    let mut rows = owned(alloc, &[(SOURCE, DONE)])?;
    for at in 0..count {
        let plan = r#"{"format":1,"steps":[{"do":"source","name":"a"}]}"#;
        let line = format!(in alloc; r#"{{"op":"plan","name":"p{at}","plan":{plan}}}"#)?;
        rows.push(owned_row(alloc, line.as_str(), PLANNED)?)?;
    }
    let full = r#"{"ok":false,"what":"plan","why":"full"}"#;
    rows.push(owned_row(alloc, ONE_MORE, full)?)?;
    Ok(rows)
}

#[test]
fn the_33rd_plan_is_refused(rt: HostRuntime) -> Result<(), Fail> {
    let rows = plan_rows(rt.alloc(), 32)?;
    assert_eq!(rt; first_wrong(rt.alloc(), &rows)?, None);
    Ok(())
}

#[test]
fn a_file_is_loaded_or_refused(rt: HostRuntime) -> Result<(), Fail> {
    let load = r#"{"op":"load","source":"a","path":"d.csv","header":true}"#;
    let look = r#"{"op":"exact","source":"a","rows":[[5]]}"#;
    let rows = [
        (
            load,
            r#"{"name":"a","ok":false,"what":"source","why":"unknown"}"#,
        ),
        (SOURCE, DONE),
        (load, r#"{"ok":true,"records":1}"#),
        (look, r#"{"ok":true,"weights":["1"]}"#),
        (
            r#"{"op":"load","source":"a","path":"e.csv","header":true}"#,
            r#"{"ok":false,"why":"file_missing"}"#,
        ),
        (
            r#"{"op":"load","source":"a","path":"long.csv"}"#,
            r#"{"ok":false,"why":"file_long"}"#,
        ),
        (
            r#"{"op":"load","source":"a","path":"../d.csv"}"#,
            r#"{"field":"path","ok":false,"why":"name"}"#,
        ),
        (
            r#"{"op":"load","source":"a","path":"d.csv"}"#,
            r#"{"ok":false,"record":0,"what":"int","why":"csv"}"#,
        ),
        (look, r#"{"ok":true,"weights":["1"]}"#),
        (load, r#"{"ok":false,"why":"file"}"#),
        (load, r#"{"ok":true,"records":1}"#),
        (look, r#"{"ok":true,"weights":["2"]}"#),
    ];
    assert_eq!(rt; first_wrong_with_files(rt.alloc(), 4, &rows)?, None);
    Ok(())
}
