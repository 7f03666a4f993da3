//! Tests of `plan_reader`.
use plan_model::Plan;
use plan_reader::{Field, Limit, PlanText, plan_to_json, read_plan};
use serde_json::Value;
use std::alloc::{AllocError, Global};
use std::test::Fail;
use trial_plans::{added, listed, negated, plan, tree, with_step, with_test};

// Why a text is no plan, or nothing where it is one.
fn fault(alloc: Global, text: &str) -> Result<Option<PlanText>, Fail> {
    let value = Value::from_str(alloc, text)?;
    Ok(read_plan(alloc, &value).err())
}

// Why a source and this step are no plan.
fn step_fault(alloc: Global, step: &str) -> Result<Option<PlanText>, Fail> {
    let text = with_step(alloc, step)?;
    fault(alloc, text.as_str())
}

// Why this is no test of a step.
fn test_fault(alloc: Global, test: &str) -> Result<Option<PlanText>, Fail> {
    let text = with_test(alloc, test)?;
    fault(alloc, text.as_str())
}

fn shape(step: usize, field: Field) -> Option<PlanText> {
    Some(PlanText::Shape { step, field })
}

fn over(step: usize, limit: Limit) -> Option<PlanText> {
    Some(PlanText::Over { step, limit })
}

type Row = (&'static str, Field);

// The first text that isn't refused for the field beside it.
fn first_taken_plan(alloc: Global, rows: &[Row]) -> Result<Option<&'static str>, Fail> {
    for (text, field) in rows {
        if fault(alloc, text)? != shape(0, *field) {
            return Ok(Some(*text));
        }
    }
    Ok(None)
}

// The first second step that isn't refused for the field beside it.
fn first_taken_step(alloc: Global, rows: &[Row]) -> Result<Option<&'static str>, Fail> {
    for (text, field) in rows {
        if step_fault(alloc, text)? != shape(1, *field) {
            return Ok(Some(*text));
        }
    }
    Ok(None)
}

// The first test that isn't answered so.
fn first_other_test(
    alloc: Global,
    tests: &[&'static str],
    expected: Option<PlanText>,
) -> Result<Option<&'static str>, Fail> {
    for test in tests {
        if test_fault(alloc, test)? != expected {
            return Ok(Some(*test));
        }
    }
    Ok(None)
}

#[test]
fn names_the_first_fault_of_a_plan(rt: HostRuntime) -> Result<(), Fail> {
    let rows = [
        ("7", Field::Plan),
        ("[]", Field::Plan),
        ("{}", Field::Format),
        ("{\"format\":2,\"steps\":[]}", Field::Format),
        ("{\"format\":\"1\"}", Field::Format),
        ("{\"format\":1.0,\"a\":0}", Field::Format),
        ("{\"format\":1}", Field::Steps),
        ("{\"format\":1,\"a\":0}", Field::Steps),
        ("{\"format\":1,\"steps\":{}}", Field::Steps),
        ("{\"format\":1,\"steps\":[],\"a\":0}", Field::Steps),
        ("{\"format\":1,\"steps\":[7],\"a\":0}", Field::Other),
        ("{\"format\":1,\"steps\":[7]}", Field::Step),
        ("{\"format\":1,\"steps\":[{}]}", Field::Do),
        ("{\"format\":1,\"steps\":[{\"do\":7,\"a\":0}]}", Field::Do),
        ("{\"format\":1,\"steps\":[{\"do\":\"group\"}]}", Field::Of),
        (
            "{\"format\":1,\"steps\":[{\"do\":\"join\",\"left\":7},7]}",
            Field::Left,
        ),
        (
            "{\"format\":1,\"steps\":[{\"do\":\"source\"}]}",
            Field::Name,
        ),
        (
            "{\"format\":1,\"steps\":[{\"do\":\"source\",\"name\":7}]}",
            Field::Name,
        ),
        (
            "{\"format\":1,\"steps\":[{\"do\":\"source\",\"name\":\"\",\"of\":0}]}",
            Field::Name,
        ),
        (
            "{\"format\":1,\"steps\":[{\"do\":\"source\",\"name\":\"a\",\"of\":0}]}",
            Field::Other,
        ),
        (
            "{\"format\":1,\"steps\":[{\"do\":\"where\",\"of\":0,\"if\":{\"col\":0}}]}",
            Field::Of,
        ),
    ];
    assert_eq!(rt; first_taken_plan(rt.alloc(), &rows)?, None);
    Ok(())
}

#[test]
fn names_the_first_fault_of_a_step(rt: HostRuntime) -> Result<(), Fail> {
    let rows = [
        ("7", Field::Step),
        ("{\"of\":0}", Field::Do),
        ("{\"do\":\"where\"}", Field::Of),
        ("{\"do\":\"where\",\"of\":1,\"if\":7}", Field::Of),
        ("{\"do\":\"where\",\"of\":-1,\"if\":{\"col\":0}}", Field::Of),
        (
            "{\"do\":\"where\",\"of\":0.0,\"if\":{\"col\":0}}",
            Field::Of,
        ),
        ("{\"do\":\"where\",\"of\":0}", Field::If),
        ("{\"do\":\"where\",\"of\":0,\"if\":7,\"row\":[]}", Field::If),
        (
            "{\"do\":\"where\",\"of\":0,\"if\":{\"col\":0},\"row\":[]}",
            Field::Other,
        ),
        ("{\"do\":\"select\",\"row\":7}", Field::Of),
        (
            "{\"do\":\"select\",\"of\":1,\"row\":[{\"col\":0}]}",
            Field::Of,
        ),
        ("{\"do\":\"select\",\"of\":0}", Field::Row),
        (
            "{\"do\":\"select\",\"of\":0,\"row\":[],\"if\":0}",
            Field::Row,
        ),
        (
            "{\"do\":\"select\",\"of\":0,\"row\":{\"col\":0}}",
            Field::Row,
        ),
        (
            "{\"do\":\"select\",\"of\":0,\"row\":[{\"col\":0},7],\"if\":0}",
            Field::Row,
        ),
        (
            "{\"do\":\"select\",\"of\":0,\"row\":[{\"col\":0}],\"if\":0}",
            Field::Other,
        ),
    ];
    assert_eq!(rt; first_taken_step(rt.alloc(), &rows)?, None);
    Ok(())
}

#[test]
fn names_the_first_fault_of_many(rt: HostRuntime) -> Result<(), Fail> {
    let rows = [
        ("{\"do\":\"many\",\"over\":0}", Field::Of),
        ("{\"do\":\"many\",\"of\":0,\"items\":7}", Field::Over),
        (
            "{\"do\":\"many\",\"of\":0,\"over\":0,\"items\":7}",
            Field::Over,
        ),
        ("{\"do\":\"many\",\"of\":0,\"over\":1048577}", Field::Over),
        (
            "{\"do\":\"many\",\"of\":0,\"over\":1,\"a\":0}",
            Field::Items,
        ),
        (
            "{\"do\":\"many\",\"of\":0,\"over\":1,\"items\":[]}",
            Field::Items,
        ),
        (
            "{\"do\":\"many\",\"of\":0,\"over\":1,\"items\":[{\"weight\":0,\"row\":[{\"col\":0}]}],\"a\":0}",
            Field::Other,
        ),
    ];
    assert_eq!(rt; first_taken_step(rt.alloc(), &rows)?, None);
    Ok(())
}

// Why so many of these items are none of a step.
fn items_fault(alloc: Global, item: &str, times: usize) -> Result<Option<PlanText>, Fail> {
    let list = listed(alloc, item, times)?;
    let step = format!(in alloc;
        "{{\"do\":\"many\",\"of\":0,\"over\":1048576,\"items\":[{list}]}}"
    )?;
    step_fault(alloc, step.as_str())
}

#[test]
fn refuses_what_is_no_item(rt: HostRuntime) -> Result<(), Fail> {
    let rows = [
        "7",
        "{\"row\":[{\"col\":0}]}",
        "{\"weight\":1048577,\"row\":[{\"col\":0}]}",
        "{\"weight\":-1,\"row\":[{\"col\":0}]}",
        "{\"weight\":1}",
        "{\"weight\":1,\"row\":[]}",
        "{\"weight\":1,\"if\":null,\"row\":[{\"col\":0}]}",
        "{\"weight\":1,\"row\":[{\"col\":0}],\"a\":0}",
    ];
    for item in rows {
        assert!(rt; items_fault(rt.alloc(), item, 1)? == shape(1, Field::Items));
    }
    Ok(())
}

#[test]
fn limits_the_items(rt: HostRuntime) -> Result<(), Fail> {
    let rows = [
        ("{\"weight\":1048576,\"row\":[{\"col\":0}]}", 64, None),
        (
            "{\"weight\":1048576,\"row\":[{\"col\":0}]}",
            65,
            over(1, Limit::Items),
        ),
        ("7", 64, shape(1, Field::Items)),
        ("7", 65, over(1, Limit::Items)),
    ];
    for (item, times, expected) in rows {
        assert!(rt; items_fault(rt.alloc(), item, times)? == expected);
    }
    Ok(())
}

// Why these runs are none of a step.
fn runs_fault(alloc: Global, runs: &str) -> Result<Option<PlanText>, Fail> {
    let step = format!(in alloc; "{{\"do\":\"shave\",\"of\":0,\"runs\":{runs}}}")?;
    step_fault(alloc, step.as_str())
}

#[test]
fn refuses_what_are_no_runs(rt: HostRuntime) -> Result<(), Fail> {
    let rows = [
        "7",
        "[]",
        "[7]",
        "[{\"times\":1}]",
        "[{\"weight\":1,\"times\":1}]",
        "[{\"weight\":\"a\",\"times\":1}]",
        "[{\"weight\":\"0\",\"times\":1}]",
        "[{\"weight\":\"-1/2\",\"times\":1}]",
        "[{\"weight\":\"1/2\"}]",
        "[{\"weight\":\"1/2\",\"times\":0}]",
        "[{\"weight\":\"1/2\",\"times\":1.0}]",
        "[{\"weight\":\"1/2\",\"times\":4097,\"a\":0}]",
        "[{\"weight\":\"1/2\",\"times\":4096},7]",
    ];
    for runs in rows {
        assert!(rt; runs_fault(rt.alloc(), runs)? == shape(1, Field::Runs));
    }
    Ok(())
}

#[test]
fn limits_the_pieces(rt: HostRuntime) -> Result<(), Fail> {
    let rows = [
        ("[{\"weight\":\"1/2\",\"times\":4096}]", None),
        (
            "[{\"weight\":\"1/2\",\"times\":4097},7]",
            over(1, Limit::Pieces),
        ),
        (
            "[{\"weight\":\"1/2\",\"times\":18446744073709551615}]",
            over(1, Limit::Pieces),
        ),
        (
            "[{\"weight\":\"1/2\",\"times\":4095},{\"weight\":\"1\",\"times\":2}]",
            over(1, Limit::Pieces),
        ),
    ];
    for (runs, expected) in rows {
        assert!(rt; runs_fault(rt.alloc(), runs)? == expected);
    }
    Ok(())
}

#[test]
fn names_the_first_fault_of_a_set_step(rt: HostRuntime) -> Result<(), Fail> {
    let rows = [
        ("{\"do\":\"union\",\"right\":0}", Field::Left),
        ("{\"do\":\"union\",\"left\":1,\"right\":0}", Field::Left),
        ("{\"do\":\"intersect\",\"left\":0,\"of\":0}", Field::Right),
        ("{\"do\":\"concat\",\"left\":0,\"right\":1}", Field::Right),
        (
            "{\"do\":\"except\",\"left\":0,\"right\":0,\"of\":0}",
            Field::Other,
        ),
        ("{\"do\":\"joins\",\"left\":0,\"right\":0}", Field::Do),
    ];
    assert_eq!(rt; first_taken_step(rt.alloc(), &rows)?, None);
    Ok(())
}

#[test]
fn names_the_first_fault_of_a_join(rt: HostRuntime) -> Result<(), Fail> {
    let rows = [
        ("{\"do\":\"join\",\"right\":0}", Field::Left),
        ("{\"do\":\"join\",\"left\":0,\"left_key\":7}", Field::Right),
        (
            "{\"do\":\"join\",\"left\":0,\"right\":0,\"right_key\":7,\"of\":0}",
            Field::LeftKey,
        ),
        (
            "{\"do\":\"join\",\"left\":0,\"right\":0,\"left_key\":[],\"right_key\":7}",
            Field::LeftKey,
        ),
        (
            "{\"do\":\"join\",\"left\":0,\"right\":0,\"left_key\":[{\"col\":0}],\"right_key\":[7],\"of\":0}",
            Field::RightKey,
        ),
        (
            "{\"do\":\"join\",\"left\":0,\"right\":0,\"left_key\":[{\"col\":0}],\"right_key\":[]}",
            Field::RightKey,
        ),
        (
            "{\"do\":\"join\",\"left\":0,\"right\":0,\"left_key\":[{\"col\":0}],\"right_key\":[{\"col\":0}],\"of\":0}",
            Field::Other,
        ),
    ];
    assert_eq!(rt; first_taken_step(rt.alloc(), &rows)?, None);
    Ok(())
}

#[test]
fn names_the_first_fault_of_a_group(rt: HostRuntime) -> Result<(), Fail> {
    let rows = [
        ("{\"do\":\"group\",\"key\":7}", Field::Of),
        ("{\"do\":\"group\",\"of\":0,\"reduce\":7}", Field::Key),
        (
            "{\"do\":\"group\",\"of\":0,\"key\":[],\"reduce\":{\"fn\":\"count\"}}",
            Field::Key,
        ),
        (
            "{\"do\":\"group\",\"of\":0,\"key\":[{\"col\":0}],\"left\":0}",
            Field::Reduce,
        ),
        (
            "{\"do\":\"group\",\"of\":0,\"key\":[{\"col\":0}],\"reduce\":{\"fn\":\"count\"},\"left\":0}",
            Field::Other,
        ),
    ];
    assert_eq!(rt; first_taken_step(rt.alloc(), &rows)?, None);
    Ok(())
}

// Why this is no reducer of a step.
fn reducer_fault(alloc: Global, reducer: &str) -> Result<Option<PlanText>, Fail> {
    let step = format!(in alloc;
        "{{\"do\":\"group\",\"of\":0,\"key\":[{{\"col\":0}}],\"reduce\":{reducer}}}"
    )?;
    step_fault(alloc, step.as_str())
}

#[test]
fn refuses_what_is_no_reducer(rt: HostRuntime) -> Result<(), Fail> {
    let rows = [
        "7",
        "\"count\"",
        "{}",
        "{\"col\":0}",
        "{\"fn\":7}",
        "{\"fn\":\"mean\",\"col\":0}",
        "{\"fn\":\"count\",\"col\":0}",
        "{\"fn\":\"min\"}",
        "{\"fn\":\"min\",\"col\":256}",
        "{\"fn\":\"max\",\"col\":-1}",
        "{\"fn\":\"max\",\"col\":0.0}",
        "{\"fn\":\"sum\",\"col\":{\"col\":0}}",
        "{\"fn\":\"sum\",\"col\":0,\"of\":0}",
    ];
    for reducer in rows {
        assert!(rt; reducer_fault(rt.alloc(), reducer)? == shape(1, Field::Reduce));
    }
    assert!(rt; reducer_fault(rt.alloc(), "{\"col\":255,\"fn\":\"sum\"}")? == None);
    Ok(())
}

#[test]
fn refuses_what_has_no_form(rt: HostRuntime) -> Result<(), Fail> {
    let rows = [
        "null",
        "[]",
        "{}",
        "{\"col\":256}",
        "{\"col\":-1}",
        "{\"col\":0.0}",
        "{\"col\":\"0\"}",
        "{\"col\":0,\"int\":0}",
        "{\"int\":9223372036854775808}",
        "{\"int\":1.5}",
        "{\"text\":7}",
        "{\"text\":\"\",\"a\":0}",
        "{\"call\":\"neg\"}",
        "{\"args\":[{\"col\":0}]}",
        "{\"call\":\"neg\",\"args\":{\"col\":0}}",
        "{\"call\":\"neg\",\"args\":[]}",
        "{\"call\":\"neg\",\"args\":[{\"col\":0},{\"col\":0}]}",
        "{\"call\":\"add\",\"args\":[{\"col\":0}]}",
        "{\"call\":\"pick\",\"args\":[{\"col\":0},{\"col\":0}]}",
        "{\"call\":\"Neg\",\"args\":[{\"col\":0}]}",
        "{\"call\":7,\"args\":[{\"col\":0}]}",
        "{\"call\":\"neg\",\"args\":[{\"col\":0}],\"a\":0}",
        "{\"call\":\"neg\",\"args\":[{\"col\":256}]}",
        "{\"call\":\"add\",\"args\":[{\"col\":0},7]}",
    ];
    let refused = shape(1, Field::If);
    assert_eq!(rt; first_other_test(rt.alloc(), &rows, refused)?, None);
    Ok(())
}

#[test]
fn takes_each_form(rt: HostRuntime) -> Result<(), Fail> {
    let taken = [
        "{\"col\":255}",
        "{\"int\":-9223372036854775808}",
        "{\"text\":\"\"}",
        "{\"args\":[{\"text\":\"a\"}],\"call\":\"len\"}",
        "{\"call\":\"pick\",\"args\":[{\"col\":0},{\"int\":1},{\"int\":2}]}",
    ];
    assert_eq!(rt; first_other_test(rt.alloc(), &taken, None)?, None);
    Ok(())
}

// Why a text of so many letters is no test.
fn letters_fault(alloc: Global, count: usize) -> Result<Option<PlanText>, Fail> {
    let mut text = String::from_str(alloc, "{\"text\":\"")?;
    for _ in 0..count {
        text.push('a')?;
    }
    text.push_str("\"}")?;
    test_fault(alloc, text.as_str())
}

#[test]
fn limits_a_text(rt: HostRuntime) -> Result<(), Fail> {
    assert_eq!(rt; letters_fault(rt.alloc(), 255)?, None);
    assert_eq!(rt; letters_fault(rt.alloc(), 256)?, shape(1, Field::If));
    Ok(())
}

// Why so many of these expressions are no row.
fn row_fault(alloc: Global, expr: &str, times: usize) -> Result<Option<PlanText>, Fail> {
    let list = listed(alloc, expr, times)?;
    let step = format!(in alloc; "{{\"do\":\"select\",\"of\":0,\"row\":[{list}]}}")?;
    step_fault(alloc, step.as_str())
}

// Why so many of these expressions are no key of a group.
fn key_fault(alloc: Global, expr: &str, times: usize) -> Result<Option<PlanText>, Fail> {
    let list = listed(alloc, expr, times)?;
    let step = format!(in alloc;
        "{{\"do\":\"group\",\"of\":0,\"key\":[{list}],\"reduce\":{{\"fn\":\"count\"}}}}"
    )?;
    step_fault(alloc, step.as_str())
}

// Why so many of these expressions are no right key of a join.
fn right_key_fault(alloc: Global, expr: &str, times: usize) -> Result<Option<PlanText>, Fail> {
    let list = listed(alloc, expr, times)?;
    let step = format!(in alloc;
        "{{\"do\":\"join\",\"left\":0,\"right\":0,\"left_key\":[{{\"col\":0}}],\"right_key\":[{list}]}}"
    )?;
    step_fault(alloc, step.as_str())
}

#[test]
fn limits_a_key(rt: HostRuntime) -> Result<(), Fail> {
    let rows = [
        ("{\"col\":0}", 16, None),
        ("{\"col\":0}", 17, over(1, Limit::Width)),
        ("7", 17, over(1, Limit::Width)),
    ];
    for (expr, times, expected) in rows {
        assert!(rt; key_fault(rt.alloc(), expr, times)? == expected);
        assert!(rt; right_key_fault(rt.alloc(), expr, times)? == expected);
    }
    Ok(())
}

#[test]
fn limits_a_list(rt: HostRuntime) -> Result<(), Fail> {
    let rows = [
        ("{\"col\":0}", 16, None),
        ("{\"col\":0}", 17, over(1, Limit::Width)),
        ("7", 16, shape(1, Field::Row)),
        ("7", 17, over(1, Limit::Width)),
    ];
    for (expr, times, expected) in rows {
        assert!(rt; row_fault(rt.alloc(), expr, times)? == expected);
    }
    Ok(())
}

// Why a plan of so many of these steps, with further fields, is none.
fn steps_fault(
    alloc: Global,
    step: &str,
    times: usize,
    rest: &str,
) -> Result<Option<PlanText>, Fail> {
    let list = listed(alloc, step, times)?;
    let text = format!(in alloc; "{{\"format\":1,\"steps\":[{list}]{rest}}}")?;
    fault(alloc, text.as_str())
}

#[test]
fn limits_the_steps(rt: HostRuntime) -> Result<(), Fail> {
    let source = "{\"do\":\"source\",\"name\":\"a\"}";
    let rows = [
        (source, 64, "", None),
        (source, 65, "", over(64, Limit::Steps)),
        ("7", 65, "", over(64, Limit::Steps)),
        ("7", 65, ",\"a\":0", shape(0, Field::Other)),
    ];
    for (step, times, rest, expected) in rows {
        assert!(rt; steps_fault(rt.alloc(), step, times, rest)? == expected);
    }
    Ok(())
}

// Why so many negations of an expression are no test.
fn negated_fault(alloc: Global, expr: &str, times: usize) -> Result<Option<PlanText>, Fail> {
    let test = negated(alloc, times, expr)?;
    test_fault(alloc, test.as_str())
}

#[test]
fn limits_the_depth_of_an_expression(rt: HostRuntime) -> Result<(), Fail> {
    let rows = [
        ("{\"col\":0}", 15, None),
        ("{\"col\":0}", 16, over(1, Limit::Depth)),
        ("7", 15, shape(1, Field::If)),
        ("7", 16, over(1, Limit::Depth)),
    ];
    for (expr, times, expected) in rows {
        assert!(rt; negated_fault(rt.alloc(), expr, times)? == expected);
    }
    Ok(())
}

// Why so many negations of a tree of 255 nodes are no test.
fn full_fault(alloc: Global, times: usize) -> Result<Option<PlanText>, Fail> {
    let full = tree(alloc, 8)?;
    negated_fault(alloc, full.as_str(), times)
}

// Why the sum of such a tree and of what has no form, in this or the other order, is no test.
fn sum_fault(alloc: Global, full_first: bool) -> Result<Option<PlanText>, Fail> {
    let full = tree(alloc, 8)?;
    let sum = if full_first {
        added(alloc, full.as_str(), "7")?
    } else {
        added(alloc, "7", full.as_str())?
    };
    test_fault(alloc, sum.as_str())
}

// Why two expressions of 256 nodes are no row.
fn two_full_fault(alloc: Global) -> Result<Option<PlanText>, Fail> {
    let full = tree(alloc, 8)?;
    let most = negated(alloc, 1, full.as_str())?;
    row_fault(alloc, most.as_str(), 2)
}

#[test]
fn limits_the_nodes_of_an_expression(rt: HostRuntime) -> Result<(), Fail> {
    assert!(rt; full_fault(rt.alloc(), 1)? == None);
    assert!(rt; full_fault(rt.alloc(), 2)? == over(1, Limit::Nodes));
    assert!(rt; sum_fault(rt.alloc(), true)? == over(1, Limit::Nodes));
    assert!(rt; sum_fault(rt.alloc(), false)? == shape(1, Field::If));
    assert!(rt; two_full_fault(rt.alloc())? == None);
    Ok(())
}

// The sum of a tree of so many levels and of an expression.
fn with_tree(alloc: Global, depth: usize, expr: &str) -> Result<String, Fail> {
    let tree = tree(alloc, depth)?;
    Ok(added(alloc, tree.as_str(), expr)?)
}

// An expression of 240 nodes.
fn nearly_full(alloc: Global) -> Result<String, Fail> {
    let small = tree(alloc, 4)?;
    let small = with_tree(alloc, 5, small.as_str())?;
    let middle = with_tree(alloc, 6, small.as_str())?;
    let middle = negated(alloc, 1, middle.as_str())?;
    with_tree(alloc, 7, middle.as_str())
}

// Why the sum of this expression and of so many negations is no test.
fn nearly_full_fault(alloc: Global, times: usize) -> Result<Option<PlanText>, Fail> {
    let left = nearly_full(alloc)?;
    let right = negated(alloc, times, "{\"col\":0}")?;
    let sum = added(alloc, left.as_str(), right.as_str())?;
    test_fault(alloc, sum.as_str())
}

#[test]
fn tests_the_depth_before_the_nodes(rt: HostRuntime) -> Result<(), Fail> {
    assert!(rt; nearly_full_fault(rt.alloc(), 14)? == None);
    assert!(rt; nearly_full_fault(rt.alloc(), 15)? == over(1, Limit::Depth));
    Ok(())
}

// The text that a plan is written as, which is read again.
fn written(alloc: Global, plan: &Plan) -> Result<String, Fail> {
    let value = plan_to_json(alloc, plan)?;
    read_plan(alloc, &value)?;
    Ok(value.to_string(alloc)?)
}

fn read_and_written(alloc: Global, text: &str) -> Result<String, Fail> {
    let plan = plan(alloc, text)?;
    written(alloc, &plan)
}

#[test]
fn writes_what_it_reads(rt: HostRuntime) -> Result<(), Fail> {
    let text = "{\"format\":1,\"steps\":[{\"do\":\"source\",\"name\":\"people\"},\
        {\"do\":\"where\",\"if\":{\"args\":[{\"col\":255},{\"int\":-9223372036854775808}],\"call\":\"lt\"},\"of\":0},\
        {\"do\":\"select\",\"of\":1,\"row\":[{\"args\":[{\"text\":\"a \\\"b\\\" ż\"}],\"call\":\"len\"},\
        {\"args\":[{\"int\":9223372036854775807},{\"int\":0},{\"col\":0}],\"call\":\"pick\"}]},\
        {\"do\":\"where\",\"if\":{\"text\":\"\"},\"of\":2}]}";
    assert_eq!(rt; read_and_written(rt.alloc(), text)?.as_str(), text);
    Ok(())
}

#[test]
fn writes_steps_on_several_rows(rt: HostRuntime) -> Result<(), Fail> {
    let text = "{\"format\":1,\"steps\":[{\"do\":\"source\",\"name\":\"people\"},\
        {\"do\":\"many\",\"items\":[{\"row\":[{\"col\":0}],\"weight\":0},\
        {\"if\":{\"int\":1},\"row\":[{\"col\":1}],\"weight\":1048576}],\"of\":0,\"over\":2},\
        {\"do\":\"shave\",\"of\":1,\"runs\":[{\"times\":4095,\"weight\":\"1/2\"},{\"times\":1,\"weight\":\"3\"}]},\
        {\"do\":\"union\",\"left\":0,\"right\":1},{\"do\":\"intersect\",\"left\":2,\"right\":1},\
        {\"do\":\"concat\",\"left\":4,\"right\":3},{\"do\":\"except\",\"left\":5,\"right\":5}]}";
    assert_eq!(rt; read_and_written(rt.alloc(), text)?.as_str(), text);
    Ok(())
}

// The text of a plan of two sources and these steps.
fn with_sources(alloc: Global, steps: &str) -> Result<String, AllocError> {
    format!(in alloc;
        "{{\"format\":1,\"steps\":[{{\"do\":\"source\",\"name\":\"a\"}},{{\"do\":\"source\",\"name\":\"b\"}},{steps}]}}"
    )
}

// Whether a plan of two sources and these steps is written as it was read.
fn is_written_back(alloc: Global, steps: &str) -> Result<bool, Fail> {
    let text = with_sources(alloc, steps)?;
    let written = read_and_written(alloc, text.as_str())?;
    Ok(written.as_str() == text.as_str())
}

#[test]
fn writes_joins_and_groups(rt: HostRuntime) -> Result<(), Fail> {
    let rows = [
        "{\"do\":\"join\",\"left\":0,\"left_key\":[{\"args\":[{\"col\":0},{\"int\":2}],\"call\":\"mod\"}],\"right\":1,\"right_key\":[{\"args\":[{\"col\":0},{\"int\":2}],\"call\":\"mod\"}]}",
        "{\"do\":\"group\",\"key\":[{\"args\":[{\"col\":0},{\"int\":2}],\"call\":\"mod\"}],\"of\":0,\"reduce\":{\"fn\":\"count\"}}",
        "{\"do\":\"group\",\"key\":[{\"args\":[{\"col\":0},{\"int\":2}],\"call\":\"mod\"},{\"col\":0}],\"of\":0,\"reduce\":{\"col\":0,\"fn\":\"max\"}}",
        "{\"do\":\"group\",\"key\":[{\"args\":[{\"col\":0},{\"int\":2}],\"call\":\"mod\"}],\"of\":0,\"reduce\":{\"col\":255,\"fn\":\"min\"}}",
        "{\"do\":\"group\",\"key\":[{\"args\":[{\"col\":0},{\"int\":2}],\"call\":\"mod\"}],\"of\":0,\"reduce\":{\"col\":0,\"fn\":\"sum\"}}",
        "{\"do\":\"except\",\"left\":0,\"right\":1},{\"do\":\"group\",\"key\":[{\"args\":[{\"col\":0},{\"int\":2}],\"call\":\"mod\"}],\"of\":2,\"reduce\":{\"fn\":\"count\"}}",
        "{\"do\":\"union\",\"left\":0,\"right\":1},{\"do\":\"group\",\"key\":[{\"args\":[{\"col\":0},{\"int\":2}],\"call\":\"mod\"}],\"of\":2,\"reduce\":{\"fn\":\"count\"}}",
        "{\"do\":\"join\",\"left\":0,\"left_key\":[{\"col\":1}],\"right\":0,\"right_key\":[{\"col\":0}]},{\"do\":\"where\",\"if\":{\"args\":[{\"col\":0},{\"col\":3}],\"call\":\"ne\"},\"of\":2}",
    ];
    for steps in rows {
        assert!(rt; is_written_back(rt.alloc(), steps)?, "{steps}");
    }
    Ok(())
}
