//! Sessions with many, shave and set steps: lines in one run, each with its reply.

use crate::sessions::converse;
use std::alloc::{AllocError, Global};
use std::test::Fail;

#[test]
fn a_shave_cuts_weights_into_pieces(rt: HostRuntime) -> Result<(), Fail> {
    let rows = [
        (
            r#"{"op":"plan","name":"v","plan":{"format":1,"steps":[{"do":"source","name":"a"},{"do":"shave","of":0,"runs":[{"weight":"1/2","times":4}]}]}}"#,
            r#"{"cols":["int","int"],"ok":true,"uses":[["a",1]]}"#,
        ),
        (
            r#"{"op":"exact","plan":"v","rows":[[1,0],[1,1],[1,2],[2,3],[3,1],[3,2]]}"#,
            r#"{"ok":true,"weights":["1/2","1/4","0","1/2","1/2","0"]}"#,
        ),
        (
            r#"{"op":"update","source":"a","csv":"1,1/2\n2,-1\n"}"#,
            r#"{"ok":true,"records":2}"#,
        ),
        (
            r#"{"op":"exact","plan":"v","rows":[[1,0],[1,1],[1,2],[2,1],[2,2]]}"#,
            r#"{"ok":true,"weights":["1/2","1/2","1/4","1/2","0"]}"#,
        ),
    ];
    converse(&rt, rt.alloc(), &["--curator"], &rows)
}

#[test]
fn set_steps_compare_and_add_weights(rt: HostRuntime) -> Result<(), Fail> {
    let both = r#"{"cols":["int"],"ok":true,"uses":[["a",1],["b",1]]}"#;
    let rows = [
        (
            r#"{"op":"plan","name":"u","plan":{"format":1,"steps":[{"do":"source","name":"a"},{"do":"source","name":"b"},{"do":"union","left":0,"right":1}]}}"#,
            both,
        ),
        (
            r#"{"op":"plan","name":"i","plan":{"format":1,"steps":[{"do":"source","name":"a"},{"do":"source","name":"b"},{"do":"intersect","left":0,"right":1}]}}"#,
            both,
        ),
        (
            r#"{"op":"plan","name":"c","plan":{"format":1,"steps":[{"do":"source","name":"a"},{"do":"source","name":"b"},{"do":"concat","left":0,"right":1}]}}"#,
            both,
        ),
        (
            r#"{"op":"plan","name":"e","plan":{"format":1,"steps":[{"do":"source","name":"a"},{"do":"source","name":"b"},{"do":"except","left":0,"right":1}]}}"#,
            both,
        ),
        (
            r#"{"op":"exact","plan":"u","rows":[[1]]}"#,
            r#"{"ok":true,"weights":["3"]}"#,
        ),
        (
            r#"{"op":"exact","plan":"i","rows":[[1]]}"#,
            r#"{"ok":true,"weights":["3/4"]}"#,
        ),
        (
            r#"{"op":"exact","plan":"c","rows":[[1]]}"#,
            r#"{"ok":true,"weights":["15/4"]}"#,
        ),
        (
            r#"{"op":"exact","plan":"e","rows":[[1]]}"#,
            r#"{"ok":true,"weights":["-9/4"]}"#,
        ),
    ];
    converse(&rt, rt.alloc(), &["--curator"], &rows)
}

#[test]
fn an_update_that_a_sum_of_two_inputs_refuses_changes_nothing(rt: HostRuntime) -> Result<(), Fail> {
    let rows = [
        (
            r#"{"op":"source","name":"s","kinds":["int"],"signed":false,"budget":0}"#,
            r#"{"ok":true}"#,
        ),
        (
            r#"{"op":"update","source":"s","csv":"1,1\n"}"#,
            r#"{"ok":true,"records":1}"#,
        ),
        (
            r#"{"op":"plan","name":"p1","plan":{"format":1,"steps":[{"do":"source","name":"s"}]}}"#,
            r#"{"cols":["int"],"ok":true,"uses":[["s",1]]}"#,
        ),
        (
            r#"{"op":"plan","name":"p2","plan":{"format":1,"steps":[{"do":"source","name":"s"},{"do":"concat","left":0,"right":0}]}}"#,
            r#"{"cols":["int"],"ok":true,"uses":[["s",2]]}"#,
        ),
        (
            r#"{"op":"update","source":"s","csv":"1,4611686018427387902\n"}"#,
            r#"{"ok":false,"plan":"p2","step":1,"why":"range"}"#,
        ),
        (
            r#"{"op":"exact","source":"s","rows":[[1]]}"#,
            r#"{"ok":true,"weights":["1"]}"#,
        ),
        (
            r#"{"op":"exact","plan":"p1","rows":[[1]]}"#,
            r#"{"ok":true,"weights":["1"]}"#,
        ),
        (
            r#"{"op":"exact","plan":"p2","rows":[[1]]}"#,
            r#"{"ok":true,"weights":["2"]}"#,
        ),
    ];
    converse(&rt, rt.alloc(), &["--curator"], &rows)
}

#[test]
fn many_spreads_a_weight_over_the_items_that_apply(rt: HostRuntime) -> Result<(), Fail> {
    let rows = [
        (
            r#"{"op":"source","name":"s","kinds":["int"],"signed":false,"budget":0}"#,
            r#"{"ok":true}"#,
        ),
        (
            r#"{"op":"update","source":"s","csv":"5,1\n6,1\n"}"#,
            r#"{"ok":true,"records":2}"#,
        ),
        (
            r#"{"op":"plan","name":"m","plan":{"format":1,"steps":[{"do":"source","name":"s"},{"do":"many","of":0,"over":4,"items":[{"weight":3,"row":[{"int":0}]},{"weight":3,"if":{"call":"mod","args":[{"col":0},{"int":2}]},"row":[{"int":0}]},{"weight":0,"row":[{"int":1}]}]}]}}"#,
            r#"{"cols":["int"],"ok":true,"uses":[["s",1]]}"#,
        ),
        (
            r#"{"op":"exact","plan":"m","rows":[[0],[1]]}"#,
            r#"{"ok":true,"weights":["7/4","0"]}"#,
        ),
    ];
    converse(&rt, rt.alloc(), &["--curator"], &rows)
}

// Declares the plan p of so many steps, the source a and then each step the concat of the one before with itself.
fn doubling(alloc: Global, steps: usize) -> Result<String, AllocError> {
    let mut line = format!(in alloc;
        r#"{{"op":"plan","name":"p","plan":{{"format":1,"steps":[{{"do":"source","name":"a"}}"#
    )?;
    for before in 0..steps.saturating_sub(1) {
        let step = format!(in alloc; r#",{{"do":"concat","left":{before},"right":{before}}}"#)?;
        line.push_str(step.as_str())?;
    }
    line.push_str("]}}")?;
    Ok(line)
}

#[test]
fn a_source_is_used_a_million_times_at_most(rt: HostRuntime) -> Result<(), Fail> {
    let alloc = rt.alloc();
    let within = doubling(alloc, 20)?;
    let over = doubling(alloc, 21)?;
    let rows = [
        (
            over.as_str(),
            r#"{"ok":false,"step":20,"what":"uses_over","why":"plan"}"#,
        ),
        (
            within.as_str(),
            r#"{"cols":["int"],"ok":true,"uses":[["a",524288]]}"#,
        ),
    ];
    converse(&rt, alloc, &["--curator"], &rows)
}

#[test]
fn steps_are_refused_by_their_inputs_and_limits(rt: HostRuntime) -> Result<(), Fail> {
    let rows = [
        // A shave of 16 columns would have 17.
        (
            r#"{"op":"source","name":"w","kinds":["int","int","int","int","int","int","int","int","int","int","int","int","int","int","int","int"],"signed":false,"budget":0}"#,
            r#"{"ok":true}"#,
        ),
        (
            r#"{"op":"plan","name":"p","plan":{"format":1,"steps":[{"do":"source","name":"w"},{"do":"shave","of":0,"runs":[{"weight":"1","times":1}]}]}}"#,
            r#"{"ok":false,"step":1,"what":"too_wide","why":"plan"}"#,
        ),
        (
            r#"{"op":"plan","name":"p","plan":{"format":1,"steps":[{"do":"source","name":"a"},{"do":"source","name":"w"},{"do":"union","left":0,"right":1}]}}"#,
            r#"{"ok":false,"step":2,"what":"kind","why":"plan"}"#,
        ),
        (
            r#"{"op":"plan","name":"p","plan":{"format":1,"steps":[{"do":"source","name":"a"},{"do":"shave","of":0,"runs":[{"weight":"1","times":4096},{"weight":"1","times":1}]}]}}"#,
            r#"{"limit":"pieces","ok":false,"step":1,"why":"over"}"#,
        ),
        (
            r#"{"op":"plan","name":"p","plan":{"format":1,"steps":[{"do":"source","name":"a"},{"do":"shave","of":0,"runs":[{"weight":"0","times":1}]}]}}"#,
            r#"{"field":"runs","ok":false,"step":1,"why":"shape"}"#,
        ),
        (
            r#"{"op":"plan","name":"p","plan":{"format":1,"steps":[{"do":"source","name":"a"},{"do":"many","of":0,"over":0,"items":[{"weight":1,"row":[{"col":0}]}]}]}}"#,
            r#"{"field":"over","ok":false,"step":1,"why":"shape"}"#,
        ),
        (
            r#"{"op":"plan","name":"p","plan":{"format":1,"steps":[{"do":"source","name":"a"},{"do":"many","of":0,"over":1,"items":[{"weight":1,"row":[{"col":0}]},{"weight":1,"row":[{"text":"x"}]}]}]}}"#,
            r#"{"ok":false,"step":1,"what":"kind","why":"plan"}"#,
        ),
        // So would a group by 16 columns, and a join of 16 and 1.
        (
            r#"{"op":"plan","name":"p","plan":{"format":1,"steps":[{"do":"source","name":"w"},{"do":"group","of":0,"key":[{"col":0},{"col":0},{"col":0},{"col":0},{"col":0},{"col":0},{"col":0},{"col":0},{"col":0},{"col":0},{"col":0},{"col":0},{"col":0},{"col":0},{"col":0},{"col":0}],"reduce":{"fn":"count"}}]}}"#,
            r#"{"ok":false,"step":1,"what":"too_wide","why":"plan"}"#,
        ),
        (
            r#"{"op":"plan","name":"p","plan":{"format":1,"steps":[{"do":"source","name":"w"},{"do":"source","name":"a"},{"do":"join","left":0,"right":1,"left_key":[{"col":0}],"right_key":[{"col":0}]}]}}"#,
            r#"{"ok":false,"step":2,"what":"too_wide","why":"plan"}"#,
        ),
    ];
    converse(&rt, rt.alloc(), &["--curator"], &rows)
}

#[test]
fn a_product_out_of_range_refuses_an_update(rt: HostRuntime) -> Result<(), Fail> {
    let rows = [
        (
            r#"{"op":"source","name":"s","kinds":["int"],"signed":false,"budget":0}"#,
            r#"{"ok":true}"#,
        ),
        (
            r#"{"op":"plan","name":"m","plan":{"format":1,"steps":[{"do":"source","name":"s"},{"do":"many","of":0,"over":3,"items":[{"weight":1,"row":[{"int":0}]},{"weight":1,"row":[{"int":1}]}]}]}}"#,
            r#"{"cols":["int"],"ok":true,"uses":[["s",1]]}"#,
        ),
        // A third of it has a denominator of 2^62 and more.
        (
            r#"{"op":"update","source":"s","csv":"1,1/2305843009213693952\n"}"#,
            r#"{"ok":false,"plan":"m","step":1,"why":"range"}"#,
        ),
        (
            r#"{"op":"update","source":"s","csv":"1,3/2305843009213693952\n"}"#,
            r#"{"ok":true,"records":1}"#,
        ),
        (
            r#"{"op":"exact","plan":"m","rows":[[0],[1],[2]]}"#,
            r#"{"ok":true,"weights":["1/2305843009213693952","1/2305843009213693952","0"]}"#,
        ),
    ];
    converse(&rt, rt.alloc(), &["--curator"], &rows)
}
