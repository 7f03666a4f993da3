//! Lines that a device kept from their answer, sent again.

use crate::script::{LOAD, MEASURE, Rows, run, sink_of, source_of, texts};
use std::test::Fail;

const NO_NOISE: &str = r#"{"ok":false,"why":"noise"}"#;

const NO_FILE: &str = r#"{"ok":false,"why":"file"}"#;

const BUDGET: (&str, &str) = (
    r#"{"op":"budget","source":"a"}"#,
    r#"{"left":299999,"ok":true,"spent":1,"total":300000}"#,
);

#[test]
fn a_line_that_is_sent_again_has_its_answer(rt: HostRuntime) -> Result<(), Fail> {
    let alloc = rt.alloc();
    let cases: [(&[u64], &[u64], Rows); 4] = [
        // No number was drawn.
        (
            &[0],
            &[],
            &[
                (MEASURE, NO_NOISE),
                (
                    MEASURE,
                    r#"{"charged":[["a",1],["b",1]],"ok":true,"values":["496698","-7"]}"#,
                ),
                BUDGET,
            ],
        ),
        // The first number stays drawn.
        (
            &[1],
            &[],
            &[
                (MEASURE, NO_NOISE),
                (
                    MEASURE,
                    r#"{"charged":[["a",1],["b",1]],"ok":true,"values":["496686","11"]}"#,
                ),
                BUDGET,
            ],
        ),
        (&[], &[0], &[(LOAD.0, NO_FILE), LOAD]),
        // Another device's fault is no reason to refuse a line.
        (&[], &[1], &[LOAD, (LOAD.0, NO_FILE), LOAD]),
    ];
    for (noise_fails, shelf_fails, rows) in cases {
        let (input, replies) = texts(alloc, rows)?;
        let source = source_of(alloc, input.as_bytes(), &[])?;
        let (ending, written) = run(
            alloc,
            source,
            sink_of(alloc, &[])?,
            noise_fails,
            shelf_fails,
        )?;
        assert_eq!(rt; written.as_str(), replies.as_str());
        assert_eq!(rt; ending.status, 0);
    }
    Ok(())
}
