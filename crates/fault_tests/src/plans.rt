//! Plans at the limits and one past them.

use crate::script::{run, sink_of, source_of};
use std::alloc::Global;
use std::test::Fail;

const SOURCE: &str = r#"{"do":"source","name":"a"}"#;

const DECLARED: &str = "{\"ok\":true}\n";

/// The replies to a source and to a plan of these steps.
fn answer(alloc: Global, steps: &str) -> Result<String, Fail> {
    let source = r#"{"op":"source","name":"a","kinds":["int"],"signed":false,"budget":0}"#;
    let input = format!(in alloc;
        "{source}\n{{\"op\":\"plan\",\"name\":\"p\",\"plan\":{{\"format\":1,\"steps\":[{steps}]}}}}\n"
    )?;
    let source = source_of(alloc, input.as_bytes(), &[])?;
    let (_ending, written) = run(alloc, source, sink_of(alloc, &[])?, &[], &[])?;
    Ok(written)
}

/// So many steps, each the source.
fn sources(alloc: Global, count: usize) -> Result<String, Fail> {
    let mut steps = String::from_str(alloc, SOURCE)?;
    for _ in 1..count {
        steps.push(',')?;
        steps.push_str(SOURCE)?;
    }
    Ok(steps)
}

/// The source, and what an expression selects of it.
fn selected(alloc: Global, expression: &str) -> Result<String, Fail> {
    Ok(format!(in alloc; "{SOURCE},{{\"do\":\"select\",\"of\":0,\"row\":[{expression}]}}")?)
}

/// The negation of an expression, so many times.
fn negated(alloc: Global, expression: &str, times: usize) -> Result<String, Fail> {
    let mut text = String::from_str(alloc, expression)?;
    for _ in 0..times {
        text = format!(in alloc; "{{\"call\":\"neg\",\"args\":[{text}]}}")?;
    }
    Ok(text)
}

/// The sum of an expression and itself, so many times.
fn doubled(alloc: Global, expression: &str, times: usize) -> Result<String, Fail> {
    let mut text = String::from_str(alloc, expression)?;
    for _ in 0..times {
        text = format!(in alloc; "{{\"call\":\"add\",\"args\":[{text},{text}]}}")?;
    }
    Ok(text)
}

/// The source, shaved into so many pieces.
fn shaved(alloc: Global, times: usize) -> Result<String, Fail> {
    Ok(format!(in alloc;
        "{SOURCE},{{\"do\":\"shave\",\"of\":0,\"runs\":[{{\"weight\":\"1\",\"times\":{times}}}]}}"
    )?)
}

#[test]
fn plans_at_the_limits_are_taken(rt: HostRuntime) -> Result<(), Fail> {
    let alloc = rt.alloc();
    let column = r#"{"col":0}"#;
    // A sum of 128 columns has 255 nodes.
    let wide = doubled(alloc, column, 7)?;
    let one = r#"{"cols":["int"],"ok":true,"uses":[["a",1]]}"#;
    let cases = [
        (sources(alloc, 64)?, one),
        (
            selected(alloc, negated(alloc, wide.as_str(), 1)?.as_str())?,
            one,
        ),
        (selected(alloc, negated(alloc, column, 15)?.as_str())?, one),
        (
            shaved(alloc, 4096)?,
            r#"{"cols":["int","int"],"ok":true,"uses":[["a",1]]}"#,
        ),
    ];
    for (steps, reply) in &cases {
        let wanted = format!(in alloc; "{DECLARED}{reply}\n")?;
        assert_eq!(rt; answer(alloc, steps.as_str())?.as_str(), wanted.as_str());
    }
    Ok(())
}

#[test]
fn plans_past_the_limits_are_refused(rt: HostRuntime) -> Result<(), Fail> {
    let alloc = rt.alloc();
    let column = r#"{"col":0}"#;
    let wide = doubled(alloc, column, 7)?;
    let cases = [
        (sources(alloc, 65)?, "steps", 64),
        (
            selected(alloc, negated(alloc, wide.as_str(), 2)?.as_str())?,
            "nodes",
            1,
        ),
        (
            selected(alloc, negated(alloc, column, 16)?.as_str())?,
            "depth",
            1,
        ),
        (shaved(alloc, 4097)?, "pieces", 1),
    ];
    for (steps, limit, step) in &cases {
        let wanted = format!(in alloc;
            "{DECLARED}{{\"limit\":\"{limit}\",\"ok\":false,\"step\":{step},\"why\":\"over\"}}\n"
        )?;
        assert_eq!(rt; answer(alloc, steps.as_str())?.as_str(), wanted.as_str());
    }
    Ok(())
}
