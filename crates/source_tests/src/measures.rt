//! Sessions with measurements: lines in one run over noise in memory, each with its reply.

use crate::sources::converse_over;
use io_edge::MemNoise;
use std::alloc::Global;
use std::process::Abort;
use std::test::Fail;

/// Both sources together, as the plan c.
const BOTH: (&str, &str) = (
    r#"{"op":"plan","name":"c","plan":{"format":1,"steps":[{"do":"source","name":"a"},{"do":"source","name":"b"},{"do":"concat","left":0,"right":1}]}}"#,
    r#"{"cols":["int"],"ok":true,"uses":[["a",1],["b",1]]}"#,
);

/// The source a twice, as the plan d.
const TWICE: (&str, &str) = (
    r#"{"op":"plan","name":"d","plan":{"format":1,"steps":[{"do":"source","name":"a"},{"do":"concat","left":0,"right":0}]}}"#,
    r#"{"cols":["int"],"ok":true,"uses":[["a",2]]}"#,
);

/// The rows of both sources of equal remainder, as the plan j.
const PAIRS: (&str, &str) = (
    r#"{"op":"plan","name":"j","plan":{"format":1,"steps":[{"do":"source","name":"a"},{"do":"source","name":"b"},{"do":"join","left":0,"right":1,"left_key":[{"call":"mod","args":[{"col":0},{"int":2}]}],"right_key":[{"call":"mod","args":[{"col":0},{"int":2}]}]}]}}"#,
    r#"{"cols":["int","int"],"ok":true,"uses":[["a",1],["b",1]]}"#,
);

// Converses over noise that gives these numbers and fails at these draws.
fn measure(
    rt: &impl Abort,
    alloc: Global,
    numbers: &[i64],
    fails: &[u64],
    rows: &[(&str, &str)],
) -> Result<(), Fail> {
    let numbers = Vec::from_slice(alloc, numbers)?;
    let fails = Vec::from_slice(alloc, fails)?;
    let mut noise = MemNoise::new(alloc, numbers, fails)?;
    converse_over(rt, alloc, &[], rows, &mut noise)
}

#[test]
fn each_use_of_a_source_is_charged_until_its_budget_is_short(rt: HostRuntime) -> Result<(), Fail> {
    let line = r#"{"op":"measure","plan":"d","rows":[[1]],"epsilon":100000}"#;
    let rows = [
        TWICE,
        // 2 * 3/4 * 2^20
        (
            line,
            r#"{"charged":[["a",200000]],"ok":true,"values":["1572864"]}"#,
        ),
        (
            line,
            r#"{"asked":200000,"left":100000,"ok":false,"source":"a","why":"budget"}"#,
        ),
        (
            r#"{"op":"budget","source":"a"}"#,
            r#"{"left":100000,"ok":true,"spent":200000,"total":300000}"#,
        ),
        // All that is left may be spent.
        (
            r#"{"op":"measure","plan":"d","rows":[[1]],"epsilon":50000}"#,
            r#"{"charged":[["a",100000]],"ok":true,"values":["1572864"]}"#,
        ),
        (
            r#"{"op":"budget","source":"a"}"#,
            r#"{"left":0,"ok":true,"spent":300000,"total":300000}"#,
        ),
    ];
    measure(&rt, rt.alloc(), &[0, 0], &[], &rows)
}

#[test]
fn each_row_has_a_number_of_its_own(rt: HostRuntime) -> Result<(), Fail> {
    let rows = [
        BOTH,
        // (3/4 + 3) * 2^20 + 5, and a row that weighs nothing
        (
            r#"{"op":"measure","plan":"c","rows":[[1],[8]],"epsilon":1}"#,
            r#"{"charged":[["a",1],["b",1]],"ok":true,"values":["3932165","-7"]}"#,
        ),
    ];
    measure(&rt, rt.alloc(), &[5, -7], &[], &rows)
}

#[test]
fn a_refused_measurement_charges_nothing(rt: HostRuntime) -> Result<(), Fail> {
    let rows = [
        BOTH,
        (
            r#"{"op":"measure","plan":"c","rows":[[1],[1]],"epsilon":1}"#,
            r#"{"ok":false,"row":1,"why":"repeat"}"#,
        ),
        (
            r#"{"op":"measure","plan":"c","rows":[[1],["x"]],"epsilon":1}"#,
            r#"{"ok":false,"row":1,"why":"row"}"#,
        ),
        (
            r#"{"op":"measure","plan":"z","rows":[[1]],"epsilon":1}"#,
            r#"{"name":"z","ok":false,"what":"plan","why":"unknown"}"#,
        ),
        // The noise fails at its second draw.
        (
            r#"{"op":"measure","plan":"c","rows":[[1],[8]],"epsilon":1}"#,
            r#"{"ok":false,"why":"noise"}"#,
        ),
        (
            r#"{"op":"budget","source":"a"}"#,
            r#"{"left":300000,"ok":true,"spent":0,"total":300000}"#,
        ),
        // The next measurement draws anew.
        (
            r#"{"op":"measure","plan":"c","rows":[[8]],"epsilon":1}"#,
            r#"{"charged":[["a",1],["b",1]],"ok":true,"values":["2"]}"#,
        ),
    ];
    measure(&rt, rt.alloc(), &[1, 2], &[1], &rows)
}

#[test]
fn nothing_is_left_of_an_empty_budget(rt: HostRuntime) -> Result<(), Fail> {
    let rows = [
        (
            r#"{"op":"source","name":"z","kinds":["int"],"signed":false,"budget":0}"#,
            r#"{"ok":true}"#,
        ),
        (
            r#"{"op":"plan","name":"p","plan":{"format":1,"steps":[{"do":"source","name":"z"}]}}"#,
            r#"{"cols":["int"],"ok":true,"uses":[["z",1]]}"#,
        ),
        (
            r#"{"op":"measure","plan":"p","rows":[[1]],"epsilon":1}"#,
            r#"{"asked":1,"left":0,"ok":false,"source":"z","why":"budget"}"#,
        ),
        (
            r#"{"op":"budget","source":"y"}"#,
            r#"{"name":"y","ok":false,"what":"source","why":"unknown"}"#,
        ),
    ];
    measure(&rt, rt.alloc(), &[], &[], &rows)
}

#[test]
fn pairs_of_a_source_with_itself_are_charged_twice(rt: HostRuntime) -> Result<(), Fail> {
    let line = r#"{"op":"measure","plan":"s","rows":[[1,1]],"epsilon":100000}"#;
    let rows = [
        (
            r#"{"op":"plan","name":"s","plan":{"format":1,"steps":[{"do":"source","name":"a"},{"do":"join","left":0,"right":0,"left_key":[{"call":"mod","args":[{"col":0},{"int":2}]}],"right_key":[{"call":"mod","args":[{"col":0},{"int":2}]}]}]}}"#,
            r#"{"cols":["int","int"],"ok":true,"uses":[["a",2]]}"#,
        ),
        // 9/56 * 2^20
        (
            line,
            r#"{"charged":[["a",200000]],"ok":true,"values":["168521"]}"#,
        ),
        (
            line,
            r#"{"asked":200000,"left":100000,"ok":false,"source":"a","why":"budget"}"#,
        ),
        (
            r#"{"op":"budget","source":"a"}"#,
            r#"{"left":100000,"ok":true,"spent":200000,"total":300000}"#,
        ),
    ];
    measure(&rt, rt.alloc(), &[0], &[], &rows)
}

#[test]
fn pairs_of_two_sources_are_charged_to_both(rt: HostRuntime) -> Result<(), Fail> {
    let rows = [
        PAIRS,
        // 9/19 * 2^20, rounded down, is 496693; the other row weighs nothing.
        (
            r#"{"op":"measure","plan":"j","rows":[[1,1],[8,8]],"epsilon":1}"#,
            r#"{"charged":[["a",1],["b",1]],"ok":true,"values":["496698","-7"]}"#,
        ),
    ];
    measure(&rt, rt.alloc(), &[5, -7], &[], &rows)
}

#[test]
fn a_refused_measurement_of_pairs_charges_nothing(rt: HostRuntime) -> Result<(), Fail> {
    let rows = [
        PAIRS,
        (
            r#"{"op":"measure","plan":"j","rows":[[1,1],[1,1]],"epsilon":1}"#,
            r#"{"ok":false,"row":1,"why":"repeat"}"#,
        ),
        (
            r#"{"op":"measure","plan":"j","rows":[[1,1],["x",1]],"epsilon":1}"#,
            r#"{"ok":false,"row":1,"why":"row"}"#,
        ),
        (
            r#"{"op":"measure","plan":"j","rows":[[1,1],[3,1]],"epsilon":1}"#,
            r#"{"ok":false,"why":"noise"}"#,
        ),
        (
            r#"{"op":"budget","source":"a"}"#,
            r#"{"left":300000,"ok":true,"spent":0,"total":300000}"#,
        ),
    ];
    measure(&rt, rt.alloc(), &[5, -7], &[1], &rows)
}
