//! Tests of `demo_input`.
ghost use Rattle.std.specs.Prelude.{◌≤◌};

use demo_input::{demo_questions, demo_setup, demo_text, law_demo};
use std::alloc::Global;
use std::str;
use std::test::Fail;

// The demo's first three lines, and its last three.
const FIRST: [&str; 3] = [
    r#"{"op":"source","name":"edges","kinds":["int","int"],"signed":false,"budget":1000000}"#,
    r#"{"op":"plan","name":"deg","plan":{"format":1,"steps":[{"do":"source","name":"edges"},{"do":"select","of":0,"row":[{"col":0}]},{"do":"shave","of":1,"runs":[{"weight":"1","times":64}]},{"do":"select","of":2,"row":[{"col":1}]}]}}"#,
    r#"{"op":"plan","name":"paths","plan":{"format":1,"steps":[{"do":"source","name":"edges"},{"do":"join","left":0,"right":0,"left_key":[{"col":1}],"right_key":[{"col":0}]}]}}"#,
];

const LAST: [&str; 3] = [
    r#"{"op":"exact","plan":"deg","rows":[[1],[3],[9],[39],[40]]}"#,
    r#"{"op":"exact","plan":"paths","rows":[[0,1,1,2],[50,51,51,52],[150,151,151,152],[300,301,301,302],[0,1,1,50]]}"#,
    r#"{"op":"budget","source":"edges"}"#,
];

// Lines of the smallest demo at some places: the first and the last of each block's updates.
const SMALL: [(usize, &str); 10] = [
    (3, r#"{"op":"update","source":"edges","csv":"0,1,1"}"#),
    (4, r#"{"op":"update","source":"edges","csv":"1,0,1"}"#),
    (101, r#"{"op":"update","source":"edges","csv":"49,0,1"}"#),
    (102, r#"{"op":"update","source":"edges","csv":"0,49,1"}"#),
    (103, r#"{"op":"update","source":"edges","csv":"50,51,1"}"#),
    (302, r#"{"op":"update","source":"edges","csv":"50,149,1"}"#),
    (303, r#"{"op":"update","source":"edges","csv":"150,151,1"}"#),
    (602, r#"{"op":"update","source":"edges","csv":"150,299,1"}"#),
    (603, r#"{"op":"update","source":"edges","csv":"300,301,1"}"#),
    (
        1002,
        r#"{"op":"update","source":"edges","csv":"300,499,1"}"#,
    ),
];

// Lines of the largest: the first updates, and the first at the last offset of each block.
const LARGE: [(usize, &str); 7] = [
    (3, r#"{"op":"update","source":"edges","csv":"0,1,1"}"#),
    (4, r#"{"op":"update","source":"edges","csv":"1,0,1"}"#),
    (1903, r#"{"op":"update","source":"edges","csv":"0,20,1"}"#),
    (2003, r#"{"op":"update","source":"edges","csv":"50,51,1"}"#),
    (2803, r#"{"op":"update","source":"edges","csv":"50,55,1"}"#),
    (
        3303,
        r#"{"op":"update","source":"edges","csv":"150,152,1"}"#,
    ),
    (
        4002,
        r#"{"op":"update","source":"edges","csv":"300,499,1"}"#,
    ),
];

fn stands_at(lines: &[&str], at: usize, line: &str) -> bool {
    at < lines.len() && lines[at] == line
}

// The number of a demo's lines, whether it begins and ends with the lines above, and one of some others that isn't at its place.
type Compared = (usize, bool, bool, Option<usize>);

fn compared(alloc: Global, n: u64, some: &[(usize, &str)]) -> Result<Compared, Fail>
    requires positive { 1 ≤ n }
    requires at_most_20 { n ≤ 20 }
{
    let mut bytes = Vec::new(alloc);
    demo_text(n, &mut bytes)?;
    let lines: Vec<&str> = str::from_utf8(&bytes)?.lines().collect(alloc)?;
    let mut misplaced = None;
    for (at, line) in some {
        if !stands_at(&lines, *at, line) {
            misplaced = Some(*at);
        }
    }
    let begins = lines.starts_with(&FIRST);
    let ends = lines.ends_with(&LAST);
    Ok((lines.len(), begins, ends, misplaced))
}

#[test]
fn demos_have_these_lines(rt: HostRuntime) -> Result<(), Fail> {
    assert_eq!(rt; compared(rt.alloc(), 1, &SMALL)?, (1006, true, true, None));
    assert_eq!(rt; compared(rt.alloc(), 20, &LARGE)?, (4006, true, true, None));
    Ok(())
}

#[test]
fn demo_is_its_setup_and_its_questions(rt: HostRuntime) -> Result<(), Fail> {
    let mut whole = Vec::new(rt.alloc());
    demo_text(7, &mut whole)?;
    let mut parts = Vec::new(rt.alloc());
    demo_setup(7, &mut parts)?;
    parts.extend_from_slice(demo_questions())?;
    assert_eq!(rt; whole, parts);
    law_demo();
    Ok(())
}
