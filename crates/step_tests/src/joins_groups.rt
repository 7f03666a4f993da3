//! Sessions with joins and groups: lines in one run, each with its reply.

use crate::sessions::converse;
use std::test::Fail;

#[test]
fn a_join_pairs_rows_of_equal_keys(rt: HostRuntime) -> Result<(), Fail> {
    let rows = [
        (
            r#"{"op":"plan","name":"j","plan":{"format":1,"steps":[{"do":"source","name":"a"},{"do":"source","name":"b"},{"do":"join","left":0,"right":1,"left_key":[{"call":"mod","args":[{"col":0},{"int":2}]}],"right_key":[{"call":"mod","args":[{"col":0},{"int":2}]}]}]}}"#,
            r#"{"cols":["int","int"],"ok":true,"uses":[["a",1],["b",1]]}"#,
        ),
        (
            r#"{"op":"exact","plan":"j","rows":[[1,1],[3,1],[2,4],[1,4]]}"#,
            r#"{"ok":true,"weights":["9/19","12/19","1","0"]}"#,
        ),
    ];
    converse(&rt, rt.alloc(), &["--curator"], &rows)
}

#[test]
fn paths_of_a_triangle_weigh_by_the_edges_at_their_node(rt: HostRuntime) -> Result<(), Fail> {
    let rows = [
        (
            r#"{"op":"source","name":"e","kinds":["int","int"],"signed":false,"budget":0}"#,
            r#"{"ok":true}"#,
        ),
        (
            r#"{"op":"update","source":"e","csv":"1,2,1\n2,1,1\n2,3,1\n3,2,1\n1,3,1\n3,1,1\n"}"#,
            r#"{"ok":true,"records":6}"#,
        ),
        (
            r#"{"op":"plan","name":"p","plan":{"format":1,"steps":[{"do":"source","name":"e"},{"do":"join","left":0,"right":0,"left_key":[{"col":1}],"right_key":[{"col":0}]},{"do":"where","of":1,"if":{"call":"ne","args":[{"col":0},{"col":3}]}}]}}"#,
            r#"{"cols":["int","int","int","int"],"ok":true,"uses":[["e",2]]}"#,
        ),
        (
            r#"{"op":"exact","plan":"p","rows":[[1,2,2,3],[1,3,3,2],[2,1,1,3],[2,3,3,1],[3,1,1,2],[3,2,2,1]]}"#,
            r#"{"ok":true,"weights":["1/4","1/4","1/4","1/4","1/4","1/4"]}"#,
        ),
        (
            r#"{"op":"update","source":"e","csv":"1,3,-1\n"}"#,
            r#"{"ok":true,"records":1}"#,
        ),
        (
            r#"{"op":"exact","plan":"p","rows":[[2,3,3,1],[1,3,3,2]]}"#,
            r#"{"ok":true,"weights":["1/3","0"]}"#,
        ),
        (
            r#"{"op":"update","source":"e","csv":"3,1,-1\n"}"#,
            r#"{"ok":true,"records":1}"#,
        ),
        (
            r#"{"op":"exact","plan":"p","rows":[[1,2,2,3],[3,2,2,1],[2,1,1,3]]}"#,
            r#"{"ok":true,"weights":["1/4","1/4","0"]}"#,
        ),
    ];
    converse(&rt, rt.alloc(), &["--curator"], &rows)
}

// No weight divided by the sum of the norms has to be in range by itself.
#[test]
fn a_join_is_refused_by_norms_and_not_by_shares(rt: HostRuntime) -> Result<(), Fail> {
    let rows = [
        (
            r#"{"op":"source","name":"c","kinds":["int"],"signed":false,"budget":0}"#,
            r#"{"ok":true}"#,
        ),
        (
            r#"{"op":"source","name":"d","kinds":["int"],"signed":false,"budget":0}"#,
            r#"{"ok":true}"#,
        ),
        (
            r#"{"op":"update","source":"c","csv":"1,3145728\n"}"#,
            r#"{"ok":true,"records":1}"#,
        ),
        (
            r#"{"op":"update","source":"d","csv":"1,1/1099511627776\n3,1152921504606846975/1099511627776\n"}"#,
            r#"{"ok":true,"records":2}"#,
        ),
        (
            r#"{"op":"plan","name":"j","plan":{"format":1,"steps":[{"do":"source","name":"c"},{"do":"source","name":"d"},{"do":"join","left":0,"right":1,"left_key":[{"call":"mod","args":[{"col":0},{"int":2}]}],"right_key":[{"call":"mod","args":[{"col":0},{"int":2}]}]}]}}"#,
            r#"{"cols":["int","int"],"ok":true,"uses":[["c",1],["d",1]]}"#,
        ),
        (
            r#"{"op":"exact","plan":"j","rows":[[1,1],[1,3]]}"#,
            r#"{"ok":true,"weights":["3/4398046511104","3458764513820540925/4398046511104"]}"#,
        ),
        (
            r#"{"op":"update","source":"d","csv":"5,4611686018427387903\n"}"#,
            r#"{"ok":false,"plan":"j","step":2,"why":"range"}"#,
        ),
        (
            r#"{"op":"exact","plan":"j","rows":[[1,5]]}"#,
            r#"{"ok":true,"weights":["0"]}"#,
        ),
    ];
    converse(&rt, rt.alloc(), &["--curator"], &rows)
}

#[test]
fn a_group_halves_the_levels_of_its_rows(rt: HostRuntime) -> Result<(), Fail> {
    let rows = [
        (
            r#"{"op":"plan","name":"g","plan":{"format":1,"steps":[{"do":"source","name":"a"},{"do":"group","of":0,"key":[{"call":"mod","args":[{"col":0},{"int":2}]}],"reduce":{"fn":"count"}}]}}"#,
            r#"{"cols":["int","int"],"ok":true,"uses":[["a",1]]}"#,
        ),
        (
            r#"{"op":"exact","plan":"g","rows":[[0,1],[1,1],[1,2]]}"#,
            r#"{"ok":true,"weights":["1","1/8","3/8"]}"#,
        ),
        (
            r#"{"op":"update","source":"a","csv":"1,1/4\n"}"#,
            r#"{"ok":true,"records":1}"#,
        ),
        (
            r#"{"op":"exact","plan":"g","rows":[[0,1],[1,1],[1,2]]}"#,
            r#"{"ok":true,"weights":["1","0","1/2"]}"#,
        ),
    ];
    converse(&rt, rt.alloc(), &["--curator"], &rows)
}

#[test]
fn a_group_reduces_a_column(rt: HostRuntime) -> Result<(), Fail> {
    let rows = [
        (
            r#"{"op":"plan","name":"most","plan":{"format":1,"steps":[{"do":"source","name":"a"},{"do":"group","of":0,"key":[{"call":"mod","args":[{"col":0},{"int":2}]}],"reduce":{"fn":"max","col":0}}]}}"#,
            r#"{"cols":["int","int"],"ok":true,"uses":[["a",1]]}"#,
        ),
        (
            r#"{"op":"plan","name":"least","plan":{"format":1,"steps":[{"do":"source","name":"a"},{"do":"group","of":0,"key":[{"call":"mod","args":[{"col":0},{"int":2}]}],"reduce":{"fn":"min","col":0}}]}}"#,
            r#"{"cols":["int","int"],"ok":true,"uses":[["a",1]]}"#,
        ),
        (
            r#"{"op":"plan","name":"sum","plan":{"format":1,"steps":[{"do":"source","name":"a"},{"do":"group","of":0,"key":[{"call":"mod","args":[{"col":0},{"int":2}]}],"reduce":{"fn":"sum","col":0}}]}}"#,
            r#"{"cols":["int","int"],"ok":true,"uses":[["a",1]]}"#,
        ),
        (
            r#"{"op":"exact","plan":"most","rows":[[0,2],[1,3],[1,1]]}"#,
            r#"{"ok":true,"weights":["1","1/2","0"]}"#,
        ),
        (
            r#"{"op":"exact","plan":"least","rows":[[0,2],[1,3],[1,1]]}"#,
            r#"{"ok":true,"weights":["1","1/8","3/8"]}"#,
        ),
        (
            r#"{"op":"exact","plan":"sum","rows":[[0,2],[1,3],[1,4]]}"#,
            r#"{"ok":true,"weights":["1","1/8","3/8"]}"#,
        ),
    ];
    converse(&rt, rt.alloc(), &["--curator"], &rows)
}

#[test]
fn a_group_takes_no_input_that_may_be_negative(rt: HostRuntime) -> Result<(), Fail> {
    let rows = [
        (
            r#"{"op":"plan","name":"g","plan":{"format":1,"steps":[{"do":"source","name":"a"},{"do":"source","name":"b"},{"do":"except","left":0,"right":1},{"do":"group","of":2,"key":[{"call":"mod","args":[{"col":0},{"int":2}]}],"reduce":{"fn":"count"}}]}}"#,
            r#"{"ok":false,"step":3,"what":"negative","why":"plan"}"#,
        ),
        (
            r#"{"op":"plan","name":"g","plan":{"format":1,"steps":[{"do":"source","name":"a"},{"do":"source","name":"b"},{"do":"union","left":0,"right":1},{"do":"group","of":2,"key":[{"call":"mod","args":[{"col":0},{"int":2}]}],"reduce":{"fn":"count"}}]}}"#,
            r#"{"cols":["int","int"],"ok":true,"uses":[["a",1],["b",1]]}"#,
        ),
        (
            r#"{"op":"source","name":"s","kinds":["int"],"signed":true,"budget":0}"#,
            r#"{"ok":true}"#,
        ),
        (
            r#"{"op":"plan","name":"h","plan":{"format":1,"steps":[{"do":"source","name":"a"},{"do":"source","name":"s"},{"do":"union","left":0,"right":1},{"do":"group","of":2,"key":[{"call":"mod","args":[{"col":0},{"int":2}]}],"reduce":{"fn":"count"}}]}}"#,
            r#"{"cols":["int","int"],"ok":true,"uses":[["a",1],["s",1]]}"#,
        ),
        (
            r#"{"op":"plan","name":"i","plan":{"format":1,"steps":[{"do":"source","name":"s"},{"do":"group","of":0,"key":[{"call":"mod","args":[{"col":0},{"int":2}]}],"reduce":{"fn":"count"}}]}}"#,
            r#"{"ok":false,"step":1,"what":"negative","why":"plan"}"#,
        ),
    ];
    converse(&rt, rt.alloc(), &["--curator"], &rows)
}
