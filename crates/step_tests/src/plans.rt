//! Sessions with plans: lines in one run, each with its reply.

use crate::sessions::converse;
use std::test::Fail;
use trial_runs::{answer, numbered, repeated};

#[test]
fn plans_filter_and_select_and_follow_their_sources(rt: HostRuntime) -> Result<(), Fail> {
    let rows = [
        (
            r#"{"op":"plan","name":"odd","plan":{"format":1,"steps":[{"do":"source","name":"a"},{"do":"where","of":0,"if":{"call":"mod","args":[{"col":0},{"int":2}]}}]}}"#,
            r#"{"cols":["int"],"ok":true,"uses":[["a",1]]}"#,
        ),
        (
            r#"{"op":"plan","name":"parity","plan":{"format":1,"steps":[{"do":"source","name":"a"},{"do":"select","of":0,"row":[{"call":"mod","args":[{"col":0},{"int":2}]}]}]}}"#,
            r#"{"cols":["int"],"ok":true,"uses":[["a",1]]}"#,
        ),
        (
            r#"{"op":"exact","plan":"odd","rows":[[1],[2],[3]]}"#,
            r#"{"ok":true,"weights":["3/4","0","1"]}"#,
        ),
        (
            r#"{"op":"exact","plan":"parity","rows":[[0],[1],[2]]}"#,
            r#"{"ok":true,"weights":["2","7/4","0"]}"#,
        ),
        (
            r#"{"op":"update","source":"a","csv":"1,1/4\n2,-2\n"}"#,
            r#"{"ok":true,"records":2}"#,
        ),
        (
            r#"{"op":"exact","plan":"odd","rows":[[1],[2],[3]]}"#,
            r#"{"ok":true,"weights":["1","0","1"]}"#,
        ),
        (
            r#"{"op":"exact","plan":"parity","rows":[[0],[1],[2]]}"#,
            r#"{"ok":true,"weights":["0","2","0"]}"#,
        ),
    ];
    converse(&rt, rt.alloc(), &["--curator"], &rows)
}

#[test]
fn a_plan_has_the_columns_and_the_uses_of_its_last_step(rt: HostRuntime) -> Result<(), Fail> {
    let rows = [
        (
            r#"{"op":"plan","name":"tagged","plan":{"format":1,"steps":[{"do":"source","name":"a"},{"do":"source","name":"b"},{"do":"select","of":1,"row":[{"col":0},{"text":"b"}]}]}}"#,
            r#"{"cols":["int","text"],"ok":true,"uses":[["b",1]]}"#,
        ),
        (
            r#"{"op":"exact","plan":"tagged","rows":[[1,"b"],[4,"b"],[4,"a"]]}"#,
            r#"{"ok":true,"weights":["3","2","0"]}"#,
        ),
        (
            r#"{"op":"exact","plan":"tagged","rows":[[1,"b"],[1]]}"#,
            r#"{"ok":false,"row":1,"why":"row"}"#,
        ),
        (
            r#"{"op":"exact","plan":"tagged","rows":[[1,"b"],[1,"b"]]}"#,
            r#"{"ok":false,"row":1,"why":"repeat"}"#,
        ),
    ];
    converse(&rt, rt.alloc(), &["--curator"], &rows)
}

#[test]
fn names_and_the_missing_word_are_refused(rt: HostRuntime) -> Result<(), Fail> {
    let rows = [
        (
            r#"{"op":"exact","source":"a","rows":[[1]]}"#,
            r#"{"ok":false,"why":"curator"}"#,
        ),
        (
            r#"{"op":"drop","plan":"zz"}"#,
            r#"{"name":"zz","ok":false,"what":"plan","why":"unknown"}"#,
        ),
        (
            r#"{"op":"drop","plan":"a-b"}"#,
            r#"{"field":"plan","ok":false,"why":"name"}"#,
        ),
        (
            r#"{"op":"source","name":"a","kinds":["int"],"signed":false,"budget":300000}"#,
            r#"{"name":"a","ok":false,"what":"source","why":"exists"}"#,
        ),
        (
            r#"{"op":"plan","name":"p","plan":{"format":1,"steps":[{"do":"source","name":"a"}]}}"#,
            r#"{"cols":["int"],"ok":true,"uses":[["a",1]]}"#,
        ),
        (
            r#"{"op":"exact","plan":"p","rows":[["x"]]}"#,
            r#"{"ok":false,"why":"curator"}"#,
        ),
        (
            r#"{"op":"exact","plan":"zz","rows":[[1]]}"#,
            r#"{"name":"zz","ok":false,"what":"plan","why":"unknown"}"#,
        ),
    ];
    converse(&rt, rt.alloc(), &[], &rows)
}

#[test]
fn a_plan_is_refused_at_its_first_faulty_step(rt: HostRuntime) -> Result<(), Fail> {
    let rows = [
        (
            r#"{"op":"plan","name":"p","plan":{"format":1,"steps":[{"do":"source","name":"a"},{"do":"select","of":0,"row":[{"col":0},{"col":0},{"col":0},{"col":0},{"col":0},{"col":0},{"col":0},{"col":0},{"col":0},{"col":0},{"col":0},{"col":0},{"col":0},{"col":0},{"col":0},{"col":0},{"col":0}]}]}}"#,
            r#"{"limit":"width","ok":false,"step":1,"why":"over"}"#,
        ),
        (
            r#"{"op":"plan","name":"p","plan":{"format":1,"steps":[{"do":"source","name":"a"},{"do":"select","of":0,"row":[{"col":5}]}]}}"#,
            r#"{"ok":false,"step":1,"what":"column","why":"plan"}"#,
        ),
        (
            r#"{"op":"plan","name":"p","plan":{"format":1,"steps":[{"do":"source","name":"a"},{"do":"where","of":1,"if":{"col":0}}]}}"#,
            r#"{"field":"of","ok":false,"step":1,"why":"shape"}"#,
        ),
        (
            r#"{"op":"plan","name":"p","plan":{"format":1,"steps":[{"do":"source","name":"a"},{"do":"where","of":0,"if":{"text":"x"}},{"do":"select","of":1,"row":[{"col":5}]}]}}"#,
            r#"{"ok":false,"step":1,"what":"kind","why":"plan"}"#,
        ),
        (
            r#"{"op":"plan","name":"p","plan":{"format":1,"steps":[{"do":"source","name":"zz"}]}}"#,
            r#"{"ok":false,"step":0,"what":"unknown_source","why":"plan"}"#,
        ),
        (
            r#"{"op":"exact","plan":"p","rows":[[1]]}"#,
            r#"{"name":"p","ok":false,"what":"plan","why":"unknown"}"#,
        ),
    ];
    converse(&rt, rt.alloc(), &["--curator"], &rows)
}

#[test]
fn a_plan_out_of_range_is_refused_and_stops_an_update(rt: HostRuntime) -> Result<(), Fail> {
    let parity =
        r#"{"op":"plan","name":"m","plan":{"format":1,"steps":[{"do":"source","name":"s"},{"do":"select","of":0,"row":[{"call":"mod","args":[{"col":0},{"int":2}]}]}]}}"#;
    let out_of_range = r#"{"ok":false,"plan":"m","step":1,"why":"range"}"#;
    let rows = [
        (
            r#"{"op":"source","name":"s","kinds":["int"],"signed":false,"budget":0}"#,
            r#"{"ok":true}"#,
        ),
        (
            r#"{"op":"update","source":"s","csv":"1,4611686018427387903\n3,1\n"}"#,
            r#"{"ok":true,"records":2}"#,
        ),
        (parity, out_of_range),
        (
            r#"{"op":"update","source":"s","csv":"3,-1\n"}"#,
            r#"{"ok":true,"records":1}"#,
        ),
        (parity, r#"{"cols":["int"],"ok":true,"uses":[["s",1]]}"#),
        (
            r#"{"op":"update","source":"s","csv":"5,1\n"}"#,
            out_of_range,
        ),
        (
            r#"{"op":"exact","source":"s","rows":[[5]]}"#,
            r#"{"ok":true,"weights":["0"]}"#,
        ),
        (
            r#"{"op":"exact","plan":"m","rows":[[1],[0]]}"#,
            r#"{"ok":true,"weights":["4611686018427387903","0"]}"#,
        ),
    ];
    converse(&rt, rt.alloc(), &["--curator"], &rows)
}

#[test]
fn an_update_that_one_plan_refuses_leaves_the_others_as_they_were(
    rt: HostRuntime,
) -> Result<(), Fail> {
    let rows = [
        (
            r#"{"op":"source","name":"s","kinds":["int"],"signed":false,"budget":0}"#,
            r#"{"ok":true}"#,
        ),
        (
            r#"{"op":"update","source":"s","csv":"1,1\n"}"#,
            r#"{"ok":true,"records":1}"#,
        ),
        (
            r#"{"op":"plan","name":"p1","plan":{"format":1,"steps":[{"do":"source","name":"s"}]}}"#,
            r#"{"cols":["int"],"ok":true,"uses":[["s",1]]}"#,
        ),
        (
            r#"{"op":"plan","name":"p2","plan":{"format":1,"steps":[{"do":"source","name":"s"},{"do":"select","of":0,"row":[{"int":0}]}]}}"#,
            r#"{"cols":["int"],"ok":true,"uses":[["s",1]]}"#,
        ),
        (
            r#"{"op":"update","source":"s","csv":"2,4611686018427387903\n"}"#,
            r#"{"ok":false,"plan":"p2","step":1,"why":"range"}"#,
        ),
        (
            r#"{"op":"exact","source":"s","rows":[[1],[2]]}"#,
            r#"{"ok":true,"weights":["1","0"]}"#,
        ),
        (
            r#"{"op":"exact","plan":"p1","rows":[[1],[2]]}"#,
            r#"{"ok":true,"weights":["1","0"]}"#,
        ),
        (
            r#"{"op":"exact","plan":"p2","rows":[[0]]}"#,
            r#"{"ok":true,"weights":["1"]}"#,
        ),
        (
            r#"{"op":"update","source":"s","csv":"2,1/2\n"}"#,
            r#"{"ok":true,"records":1}"#,
        ),
        (
            r#"{"op":"exact","plan":"p1","rows":[[1],[2]]}"#,
            r#"{"ok":true,"weights":["1","1/2"]}"#,
        ),
        (
            r#"{"op":"exact","plan":"p2","rows":[[0]]}"#,
            r#"{"ok":true,"weights":["3/2"]}"#,
        ),
    ];
    converse(&rt, rt.alloc(), &["--curator"], &rows)
}

#[test]
fn a_dropped_plan_is_gone_and_the_others_keep_their_order(rt: HostRuntime) -> Result<(), Fail> {
    let p =
        r#"{"op":"plan","name":"p","plan":{"format":1,"steps":[{"do":"source","name":"b"},{"do":"select","of":0,"row":[{"int":0}]}]}}"#;
    let q =
        r#"{"op":"plan","name":"q","plan":{"format":1,"steps":[{"do":"source","name":"b"},{"do":"select","of":0,"row":[{"int":1}]}]}}"#;
    let planned = r#"{"cols":["int"],"ok":true,"uses":[["b",1]]}"#;
    let over = r#"{"op":"update","source":"b","csv":"5,4611686018427387903\n"}"#;
    let rows = [
        (p, planned),
        (q, planned),
        (q, r#"{"name":"q","ok":false,"what":"plan","why":"exists"}"#),
        (over, r#"{"ok":false,"plan":"p","step":1,"why":"range"}"#),
        (r#"{"op":"drop","plan":"p"}"#, r#"{"ok":true}"#),
        (
            r#"{"op":"exact","plan":"p","rows":[[0]]}"#,
            r#"{"name":"p","ok":false,"what":"plan","why":"unknown"}"#,
        ),
        (
            r#"{"op":"exact","plan":"q","rows":[[1]]}"#,
            r#"{"ok":true,"weights":["5"]}"#,
        ),
        (p, planned),
        (over, r#"{"ok":false,"plan":"q","step":1,"why":"range"}"#),
        // Plans and sources have their names apart.
        (
            r#"{"op":"plan","name":"a","plan":{"format":1,"steps":[{"do":"source","name":"a"}]}}"#,
            r#"{"cols":["int"],"ok":true,"uses":[["a",1]]}"#,
        ),
    ];
    converse(&rt, rt.alloc(), &["--curator"], &rows)
}

#[test]
fn thirty_two_plans_are_the_most(rt: HostRuntime) -> Result<(), Fail> {
    let alloc = rt.alloc();
    let before = r#"{"op":"plan","name":"p"#;
    let after = r#"","plan":{"format":1,"steps":[{"do":"source","name":"s"}]}}"#;
    let plans = numbered(alloc, 33, before, after)?;
    let input = format!(in alloc;
        "{{\"op\":\"source\",\"name\":\"s\",\"kinds\":[\"int\"],\"signed\":false,\"budget\":0}}\n{plans}"
    )?;
    let planned = repeated(alloc, 32, r#"{"cols":["int"],"ok":true,"uses":[["s",1]]}"#)?;
    let replies = format!(in alloc;
        "{{\"ok\":true}}\n{planned}{{\"ok\":false,\"what\":\"plan\",\"why\":\"full\"}}\n"
    )?;
    let (ending, written) = answer(alloc, &[], input.as_str(), 64)?;
    assert_eq!(rt; written.as_str(), replies.as_str());
    assert_eq!(rt; (ending.status, ending.lines), (0, 34));
    Ok(())
}
