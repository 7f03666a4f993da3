//! The demo: a session's lines, which build a graph in four blocks and ask for the degrees and paths of some nodes.
#![tactic(auto)]

ghost use Rattle.std.specs.Prelude.{OnErr, OnOk, ◌++◌, ◌≡◌, ◌≤◌};
ghost use Rattle.demo_input.specs.Demo.{demo_questions, demo_setup, demo_text};
ghost use Rattle.demo_input.specs.Growth.{BeginsWith};

mod edges;
mod laws;

use edges::{append_block, blocks};
pub use laws::law_demo;
pub use std::alloc::AllocError as Memory;

// The source, and a plan of its nodes' degrees and one of its paths.
const DECLARATIONS: &str =
    r#"{"op":"source","name":"edges","kinds":["int","int"],"signed":false,"budget":1000000}
{"op":"plan","name":"deg","plan":{"format":1,"steps":[{"do":"source","name":"edges"},{"do":"select","of":0,"row":[{"col":0}]},{"do":"shave","of":1,"runs":[{"weight":"1","times":64}]},{"do":"select","of":2,"row":[{"col":1}]}]}}
{"op":"plan","name":"paths","plan":{"format":1,"steps":[{"do":"source","name":"edges"},{"do":"join","left":0,"right":0,"left_key":[{"col":1}],"right_key":[{"col":0}]}]}}
"#;

const QUESTIONS: &str = r#"{"op":"exact","plan":"deg","rows":[[1],[3],[9],[39],[40]]}
{"op":"exact","plan":"paths","rows":[[0,1,1,2],[50,51,51,52],[150,151,151,152],[300,301,301,302],[0,1,1,50]]}
{"op":"budget","source":"edges"}
"#;

/// Appends the whole demo of this size, from 1 to 20: its setup, then its questions. After a refusal `into` is as before.
pub fn demo_text(n: u64, into: &mut Vec<u8>) -> Result<(), Memory>
    requires positive { 1 ≤ n }
    requires at_most_20 { n ≤ 20 }
    ensures ok { OnOk result (into.new.items ≡ into.old.items ++ demo_text n) }
    ensures err { OnErr result (into.new.items ≡ into.old.items) }
{
    let before = into.len();
    demo_setup(n, into)?;
    if let Err(fault) = into.extend_from_slice(demo_questions()) {
        into.truncate(before);
        return Err(fault);
    }
    Ok(())
}

/// Appends the demo's lines but for its questions: the source, the plans, and each edge as an update. After a
/// refusal `into` is as before.
pub fn demo_setup(n: u64, into: &mut Vec<u8>) -> Result<(), Memory>
    requires positive { 1 ≤ n }
    requires at_most_20 { n ≤ 20 }
    ensures ok { OnOk result (into.new.items ≡ into.old.items ++ demo_setup n) }
    ensures err { OnErr result (into.new.items ≡ into.old.items) }
{
    let start = into.len();
    if let Err(fault) = append_setup(n as u32, into) {
        into.truncate(start);
        return Err(fault);
    }
    Ok(())
}

/// The demo's last three lines, whose replies show what the plans hold.
pub fn demo_questions() -> &'static [u8]
    ensures { result.now ≡ demo_questions }
{
    QUESTIONS.as_bytes()
}

fn append_setup(n: u32, into: &mut Vec<u8>) -> Result<(), Memory>
    ensures ok { OnOk result (into.new.items ≡ into.old.items ++ demo_setup n) }
    ensures err { OnErr result (BeginsWith into.old.items into.new.items) }
{
    into.extend_from_slice(DECLARATIONS.as_bytes())?;
    for block in blocks(n) {
        append_block(block, into)?;
    }
    Ok(())
}
