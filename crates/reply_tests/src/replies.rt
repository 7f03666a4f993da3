//! Tests of replies as lines: that they are written, and that the definitions say what is meant.

use frac_core::{Frac, FracFault};
use plan_model::What;
use plan_reader::Limit;
use record_text::{Kind, Kinds, Name};
use request_text::{
    CsvWhat, FieldText, Memory, Refusal, Reply, Thing, Uses, Weights, Wides, write_reply,
};
use std::alloc::Global;
use std::test::Fail;

/// The line of a reply, without its LF.
fn reply_text(alloc: Global, reply: &Reply) -> Result<Vec<u8>, Fail> {
    let mut line = Vec::new(alloc);
    write_reply(alloc, reply, &mut line)?;
    match line.pop() {
        Some(b'\n') => Ok(line),
        _ => Err(Fail::from("no LF")),
    }
}

fn name(text: &str) -> Result<Name, Fail> {
    Ok(Name::read(text.as_bytes()).ok_or("no name")?)
}

fn field(alloc: Global, text: &str) -> Result<FieldText, Memory> {
    Ok(FieldText::from_vec(Vec::from_slice(alloc, text.as_bytes())?))
}

// The weights of these numerators and denominators.
fn weights(alloc: Global, pairs: &[(i64, i64)]) -> Result<Reply, Fail> {
    let mut list = Vec::new(alloc);
    for (num, den) in pairs {
        list.push(Frac::new(*num, *den)?)?;
    }
    Ok(Reply::Weights {
        weights: Weights::from_vec(list),
    })
}

// Sources by name, each with its number.
fn named(alloc: Global, sources: &[(&str, u64)]) -> Result<Uses, Fail> {
    let mut list = Vec::new(alloc);
    for (source, count) in sources {
        list.push((name(source)?, *count))?;
    }
    Ok(Uses::from_vec(list))
}

// A plan with these columns and uses.
fn planned(alloc: Global, cols: Kinds, uses: &[(&str, u64)]) -> Result<Reply, Fail> {
    let uses = named(alloc, uses)?;
    Ok(Reply::Planned { cols, uses })
}

// These values, for which these sources are charged.
fn measured(alloc: Global, charged: &[(&str, u64)], values: &[i128]) -> Result<Reply, Fail> {
    let charged = named(alloc, charged)?;
    let values = Wides::from_vec(Vec::from_slice(alloc, values)?);
    Ok(Reply::Values { charged, values })
}

#[test]
fn writes_each_answer(rt: HostRuntime) -> Result<(), Fail> {
    let sum = Frac::new(5, 6)?;
    let rows = [
        (Reply::Done, r#"{"ok":true}"#),
        (Reply::SumOf { sum }, r#"{"ok":true,"sum":"5/6"}"#),
        (Reply::Records { count: 3 }, r#"{"ok":true,"records":3}"#),
    ];
    for (reply, text) in rows {
        let line = reply_text(rt.alloc(), &reply)?;
        assert_eq!(rt; line.as_slice(), text.as_bytes());
    }
    Ok(())
}

#[test]
fn writes_columns_and_uses_of_plans(rt: HostRuntime) -> Result<(), Fail> {
    let int = Kinds::from_slice(&[Kind::Int]);
    let int_and_text = Kinds::from_slice(&[Kind::Int, Kind::Text]);
    let ints = Kinds::from_slice(&[Kind::Int, Kind::Int]);
    let rows: [(Kinds, &[(&str, u64)], &str); 3] = [
        (
            int_and_text,
            &[("a", 1)],
            r#"{"cols":["int","text"],"ok":true,"uses":[["a",1]]}"#,
        ),
        (
            ints,
            &[("a", 1), ("b", 1)],
            r#"{"cols":["int","int"],"ok":true,"uses":[["a",1],["b",1]]}"#,
        ),
        (
            int,
            &[("a", 524_288)],
            r#"{"cols":["int"],"ok":true,"uses":[["a",524288]]}"#,
        ),
    ];
    for (cols, uses, text) in rows {
        let reply = planned(rt.alloc(), cols, uses)?;
        let line = reply_text(rt.alloc(), &reply)?;
        assert_eq!(rt; line.as_slice(), text.as_bytes());
    }
    Ok(())
}

#[test]
fn writes_weights(rt: HostRuntime) -> Result<(), Fail> {
    let rows: [(&[(i64, i64)], &str); 2] = [
        (
            &[(9, 19), (0, 1), (-3, 2)],
            r#"{"ok":true,"weights":["9/19","0","-3/2"]}"#,
        ),
        (&[], r#"{"ok":true,"weights":[]}"#),
    ];
    for (pairs, text) in rows {
        let reply = weights(rt.alloc(), pairs)?;
        let line = reply_text(rt.alloc(), &reply)?;
        assert_eq!(rt; line.as_slice(), text.as_bytes());
    }
    Ok(())
}

#[test]
fn writes_measured_values(rt: HostRuntime) -> Result<(), Fail> {
    let rows: [(&[(&str, u64)], &[i128], &str); 3] = [
        (
            &[("a", 200_000)],
            &[168_521],
            r#"{"charged":[["a",200000]],"ok":true,"values":["168521"]}"#,
        ),
        (
            &[("a", 1), ("b", 1)],
            &[496_698, -7],
            r#"{"charged":[["a",1],["b",1]],"ok":true,"values":["496698","-7"]}"#,
        ),
        (
            &[],
            &[i128::MIN, 0, i128::MAX],
            r#"{"charged":[],"ok":true,"values":["-170141183460469231731687303715884105728","0","170141183460469231731687303715884105727"]}"#,
        ),
    ];
    for (charged, values, text) in rows {
        let reply = measured(rt.alloc(), charged, values)?;
        let line = reply_text(rt.alloc(), &reply)?;
        assert_eq!(rt; line.as_slice(), text.as_bytes());
    }
    Ok(())
}

#[test]
fn writes_budgets_and_their_refusals(rt: HostRuntime) -> Result<(), Fail> {
    let rows = [
        (
            Reply::Budget {
                left: 100_000,
                spent: 200_000,
                total: 300_000,
            },
            r#"{"left":100000,"ok":true,"spent":200000,"total":300000}"#,
        ),
        (
            Reply::Refused(Refusal::Budget {
                source: name("a")?,
                left: 100_000,
                asked: 200_000,
            }),
            r#"{"asked":200000,"left":100000,"ok":false,"source":"a","why":"budget"}"#,
        ),
        (
            Reply::Refused(Refusal::Budget {
                source: name("z")?,
                left: 0,
                asked: 1,
            }),
            r#"{"asked":1,"left":0,"ok":false,"source":"z","why":"budget"}"#,
        ),
        (
            Reply::Refused(Refusal::Noise),
            r#"{"ok":false,"why":"noise"}"#,
        ),
    ];
    for (reply, text) in rows {
        let line = reply_text(rt.alloc(), &reply)?;
        assert_eq!(rt; line.as_slice(), text.as_bytes());
    }
    Ok(())
}

#[test]
fn writes_each_refusal(rt: HostRuntime) -> Result<(), Fail> {
    let shape = Refusal::Shape {
        field: field(rt.alloc(), "rows")?,
        step: None,
    };
    let no_name = Refusal::Name {
        field: field(rt.alloc(), "source")?,
    };
    let what = Thing::Source;
    let taken = name("a")?;
    let absent = name("zz")?;
    let rows = [
        (Refusal::Line, r#"{"ok":false,"why":"line"}"#),
        (Refusal::Json, r#"{"ok":false,"why":"json"}"#),
        (shape, r#"{"field":"rows","ok":false,"why":"shape"}"#),
        (
            Refusal::Weight {
                at: 0,
                fault: FracFault::BadText,
            },
            r#"{"at":0,"ok":false,"text":"bad","why":"weight"}"#,
        ),
        (
            Refusal::Weight {
                at: 1,
                fault: FracFault::ZeroDenominator,
            },
            r#"{"at":1,"ok":false,"text":"zero","why":"weight"}"#,
        ),
        (
            Refusal::Weight {
                at: 12,
                fault: FracFault::OutOfRange,
            },
            r#"{"at":12,"ok":false,"text":"range","why":"weight"}"#,
        ),
        (no_name, r#"{"field":"source","ok":false,"why":"name"}"#),
        (
            Refusal::Exists { what, name: taken },
            r#"{"name":"a","ok":false,"what":"source","why":"exists"}"#,
        ),
        (
            Refusal::Unknown { what, name: absent },
            r#"{"name":"zz","ok":false,"what":"source","why":"unknown"}"#,
        ),
        (
            Refusal::Full { what },
            r#"{"ok":false,"what":"source","why":"full"}"#,
        ),
        (Refusal::Curator, r#"{"ok":false,"why":"curator"}"#),
        (
            Refusal::Csv {
                at: 0,
                what: CsvWhat::Width,
            },
            r#"{"ok":false,"record":0,"what":"width","why":"csv"}"#,
        ),
        (
            Refusal::Csv {
                at: 1,
                what: CsvWhat::Int,
            },
            r#"{"ok":false,"record":1,"what":"int","why":"csv"}"#,
        ),
        (
            Refusal::Csv {
                at: 2,
                what: CsvWhat::Text,
            },
            r#"{"ok":false,"record":2,"what":"text","why":"csv"}"#,
        ),
        (
            Refusal::Csv {
                at: 3,
                what: CsvWhat::Weight,
            },
            r#"{"ok":false,"record":3,"what":"weight","why":"csv"}"#,
        ),
        (
            Refusal::RecordRange { at: 0 },
            r#"{"ok":false,"record":0,"why":"record_range"}"#,
        ),
        (
            Refusal::Negative { at: 1 },
            r#"{"ok":false,"record":1,"why":"negative"}"#,
        ),
        (
            Refusal::Row { at: 1 },
            r#"{"ok":false,"row":1,"why":"row"}"#,
        ),
        (
            Refusal::Repeat { at: 1 },
            r#"{"ok":false,"row":1,"why":"repeat"}"#,
        ),
        (
            Refusal::SumRange { at: 1 },
            r#"{"at":1,"ok":false,"why":"range"}"#,
        ),
    ];
    for (refusal, text) in rows {
        let line = reply_text(rt.alloc(), &Reply::Refused(refusal))?;
        assert_eq!(rt; line.as_slice(), text.as_bytes());
    }
    Ok(())
}

#[test]
fn writes_refusals_for_files(rt: HostRuntime) -> Result<(), Fail> {
    let rows = [
        (Refusal::File, r#"{"ok":false,"why":"file"}"#),
        (Refusal::FileMissing, r#"{"ok":false,"why":"file_missing"}"#),
        (Refusal::FileLong, r#"{"ok":false,"why":"file_long"}"#),
    ];
    for (refusal, text) in rows {
        let line = reply_text(rt.alloc(), &Reply::Refused(refusal))?;
        assert_eq!(rt; line.as_slice(), text.as_bytes());
    }
    Ok(())
}

#[test]
fn writes_each_refusal_of_plans(rt: HostRuntime) -> Result<(), Fail> {
    let row = Refusal::Shape {
        field: field(rt.alloc(), "row")?,
        step: Some(1),
    };
    let what = Thing::Plan;
    let name = name("p2")?;
    let rows = [
        (row, r#"{"field":"row","ok":false,"step":1,"why":"shape"}"#),
        (
            Refusal::Exists { what, name },
            r#"{"name":"p2","ok":false,"what":"plan","why":"exists"}"#,
        ),
        (
            Refusal::Unknown { what, name },
            r#"{"name":"p2","ok":false,"what":"plan","why":"unknown"}"#,
        ),
        (
            Refusal::Full { what },
            r#"{"ok":false,"what":"plan","why":"full"}"#,
        ),
        (
            Refusal::Range {
                plan: name,
                step: 1,
            },
            r#"{"ok":false,"plan":"p2","step":1,"why":"range"}"#,
        ),
        (
            Refusal::Over {
                step: 1,
                limit: Limit::Steps,
            },
            r#"{"limit":"steps","ok":false,"step":1,"why":"over"}"#,
        ),
        (
            Refusal::Over {
                step: 1,
                limit: Limit::Width,
            },
            r#"{"limit":"width","ok":false,"step":1,"why":"over"}"#,
        ),
        (
            Refusal::Over {
                step: 1,
                limit: Limit::Depth,
            },
            r#"{"limit":"depth","ok":false,"step":1,"why":"over"}"#,
        ),
        (
            Refusal::Over {
                step: 1,
                limit: Limit::Nodes,
            },
            r#"{"limit":"nodes","ok":false,"step":1,"why":"over"}"#,
        ),
        (
            Refusal::Over {
                step: 1,
                limit: Limit::Items,
            },
            r#"{"limit":"items","ok":false,"step":1,"why":"over"}"#,
        ),
        (
            Refusal::Over {
                step: 1,
                limit: Limit::Pieces,
            },
            r#"{"limit":"pieces","ok":false,"step":1,"why":"over"}"#,
        ),
        (
            Refusal::Plan {
                step: 20,
                what: What::UnknownSource,
            },
            r#"{"ok":false,"step":20,"what":"unknown_source","why":"plan"}"#,
        ),
        (
            Refusal::Plan {
                step: 20,
                what: What::Column,
            },
            r#"{"ok":false,"step":20,"what":"column","why":"plan"}"#,
        ),
        (
            Refusal::Plan {
                step: 20,
                what: What::Kind,
            },
            r#"{"ok":false,"step":20,"what":"kind","why":"plan"}"#,
        ),
        (
            Refusal::Plan {
                step: 20,
                what: What::TooWide,
            },
            r#"{"ok":false,"step":20,"what":"too_wide","why":"plan"}"#,
        ),
        (
            Refusal::Plan {
                step: 20,
                what: What::Negative,
            },
            r#"{"ok":false,"step":20,"what":"negative","why":"plan"}"#,
        ),
        (
            Refusal::Plan {
                step: 20,
                what: What::UsesOver,
            },
            r#"{"ok":false,"step":20,"what":"uses_over","why":"plan"}"#,
        ),
    ];
    for (refusal, text) in rows {
        let line = reply_text(rt.alloc(), &Reply::Refused(refusal))?;
        assert_eq!(rt; line.as_slice(), text.as_bytes());
    }
    Ok(())
}

#[test]
fn a_field_lends_its_name(rt: HostRuntime) -> Result<(), Fail> {
    let rows = field(rt.alloc(), "rows")?;
    assert_eq!(rt; rows.as_slice(), b"rows".as_slice());
    Ok(())
}
