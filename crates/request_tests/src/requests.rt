//! Tests of requests as lines: that they are read, and that the definitions say what is meant.

use frac_core::Frac;
use plan_model::{Plan, Step};
use record_text::{Kind, Kinds, Name, Row, row_to_json};
use request_text::{
    MAX_LINE, Memory, ReadFault, Refusal, Reply, Request, Target, read_request, write_reply,
};
use std::alloc::Global;
use std::test::Fail;

// What a line is read as: a word for the request and all that it says, or the reply that refuses it.
fn read(alloc: Global, line: &[u8]) -> Result<Vec<u8>, Fail> {
    match read_request(alloc, line) {
        Ok(request) => shown(alloc, &request),
        Err(ReadFault::Refused(refusal)) => refused(alloc, refusal),
        Err(ReadFault::Memory) => Err(Fail::from(Memory)),
    }
}

// The reply that refuses a line, without its LF.
fn refused(alloc: Global, refusal: Refusal) -> Result<Vec<u8>, Fail> {
    let mut line = Vec::new(alloc);
    write_reply(alloc, &Reply::Refused(refusal), &mut line)?;
    line.pop();
    Ok(line)
}

fn shown(alloc: Global, request: &Request) -> Result<Vec<u8>, Fail> {
    match request {
        Request::Sum { weights } => sum_shown(alloc, weights.as_slice()),
        Request::Source {
            name,
            kinds,
            signed,
            budget,
        } => source_shown(alloc, name, *kinds, *signed, *budget),
        Request::Update {
            source,
            csv,
            header,
        } => added_shown(alloc, b"update", source, csv.as_slice(), *header),
        Request::Load {
            source,
            path,
            header,
        } => added_shown(alloc, b"load", source, path.as_slice(), *header),
        Request::Plan { name, plan } => plan_shown(alloc, name, plan),
        Request::Drop { plan } => words(alloc, &[b"drop", plan.as_bytes()]),
        Request::Measure {
            plan,
            rows,
            epsilon,
        } => measure_shown(alloc, plan, *epsilon, rows.as_slice()),
        Request::Exact { of, rows } => exact_shown(alloc, of, rows.as_slice()),
        Request::Budget { source } => words(alloc, &[b"budget", source.as_bytes()]),
    }
}

// The words with a space between each two.
fn words(alloc: Global, words: &[&[u8]]) -> Result<Vec<u8>, Fail> {
    let mut text = Vec::new(alloc);
    for word in words {
        if !text.is_empty() {
            text.push(b' ')?;
        }
        text.extend_from_slice(word)?;
    }
    Ok(text)
}

fn sum_shown(alloc: Global, weights: &[Frac]) -> Result<Vec<u8>, Fail> {
    let mut text = Vec::from_slice(alloc, b"sum")?;
    for weight in weights {
        text.push(b' ')?;
        weight.write(alloc, &mut text)?;
    }
    Ok(text)
}

fn source_shown(
    alloc: Global,
    name: &Name,
    kinds: Kinds,
    signed: bool,
    budget: u64,
) -> Result<Vec<u8>, Fail> {
    let signs = if signed { "signed" } else { "unsigned" };
    let name = name.as_str();
    let mut text = format!(in alloc; "source {name} {signs} {budget}")?.into_bytes();
    for column in 0..kinds.len() {
        let kind = match kinds.at(column) {
            Kind::Int => b" int".as_slice(),
            Kind::Text => b" text".as_slice(),
        };
        text.extend_from_slice(kind)?;
    }
    Ok(text)
}

// The operation's word, the source, what the first record is, and the CSV text or the path.
fn added_shown(
    alloc: Global,
    word: &[u8],
    source: &Name,
    from: &[u8],
    header: bool,
) -> Result<Vec<u8>, Fail> {
    let first = if header {
        b"header".as_slice()
    } else {
        b"record".as_slice()
    };
    words(alloc, &[word, source.as_bytes(), first, from])
}

// The name, the number of steps and the source of the first step.
fn plan_shown(alloc: Global, name: &Name, plan: &Plan) -> Result<Vec<u8>, Fail> {
    let name = name.as_str();
    let steps = plan.len();
    let Step::Source { name: source } = plan.step(0) else {
        return Err(Fail::from("another step"));
    };
    let source = source.as_str();
    Ok(format!(in alloc; "plan {name} {steps} {source}")?.into_bytes())
}

fn measure_shown(alloc: Global, plan: &Name, epsilon: u64, rows: &[Row]) -> Result<Vec<u8>, Fail> {
    let plan = plan.as_str();
    let text = format!(in alloc; "measure {plan} {epsilon}")?.into_bytes();
    with_rows(alloc, text, rows)
}

fn exact_shown(alloc: Global, of: &Target, rows: &[Row]) -> Result<Vec<u8>, Fail> {
    let text = match of {
        Target::Source(name) => words(alloc, &[b"exact source", name.as_bytes()])?,
        Target::Plan(name) => words(alloc, &[b"exact plan", name.as_bytes()])?,
    };
    with_rows(alloc, text, rows)
}

// The text, and then the rows.
fn with_rows(alloc: Global, mut text: Vec<u8>, rows: &[Row]) -> Result<Vec<u8>, Fail> {
    for row in rows {
        let json = row_to_json(alloc, row)?.to_vec(alloc)?;
        text.push(b' ')?;
        text.extend_from_slice(&json)?;
    }
    Ok(text)
}

// So many opening brackets, and as many closing ones.
fn brackets(alloc: Global, depth: usize) -> Result<Vec<u8>, Fail> {
    let mut line = vec![in alloc; b'['; depth]?;
    line.extend_from_slice(&vec![in alloc; b']'; depth]?)?;
    Ok(line)
}

// A request to load the file at a path.
fn load_of(alloc: Global, path: &[u8]) -> Result<Vec<u8>, Fail> {
    let mut line = Vec::from_slice(alloc, br#"{"op":"load","source":"a","path":""#)?;
    line.extend_from_slice(path)?;
    line.extend_from_slice(br#""}"#)?;
    Ok(line)
}

// A request of a sum with so many spaces behind it.
fn spaced(alloc: Global, spaces: usize) -> Result<Vec<u8>, Fail> {
    let mut line = Vec::from_slice(alloc, br#"{"op":"sum","weights":[]}"#)?;
    line.extend_from_slice(&vec![in alloc; b' '; spaces]?)?;
    Ok(line)
}

#[test]
fn reads_each_request(rt: HostRuntime) -> Result<(), Fail> {
    let rows = [
        (
            r#"{"op":"sum","weights":["1/2","+2/4","007","-3"]}"#,
            "sum 1/2 1/2 7 -3",
        ),
        (
            r#"{"op":"source","name":"a","kinds":["int"],"signed":false,"budget":300000}"#,
            "source a unsigned 300000 int",
        ),
        (
            r#"{"budget":0,"signed":true,"kinds":["text","int"],"name":"p_1","op":"source"}"#,
            "source p_1 signed 0 text int",
        ),
        (
            r#"{"op":"source","name":"e","kinds":["int"],"signed":true,"budget":1000000000000000}"#,
            "source e signed 1000000000000000 int",
        ),
        (
            r#"{"op":"update","source":"a","csv":"1,3/4\n2,2\n3,1\n"}"#,
            "update a record 1,3/4\n2,2\n3,1\n",
        ),
        (
            r#"{"op":"update","source":"b","csv":"","header":false}"#,
            "update b record ",
        ),
        (
            r#"{"op":"update","source":"p","header":true,"csv":"name,age,weight\n\"Smith, J\",34,1\nÅsa,29,1\n"}"#,
            "update p header name,age,weight\n\"Smith, J\",34,1\nÅsa,29,1\n",
        ),
        (
            r#"{"op":"load","source":"a","path":"d.csv","header":true}"#,
            "load a header d.csv",
        ),
        (
            r#"{"header":false,"path":"in/2-3/Q_4..csv","source":"b","op":"load"}"#,
            "load b record in/2-3/Q_4..csv",
        ),
        (
            r#"{"op":"exact","source":"p","rows":[["Smith, J",34],[7]]}"#,
            r#"exact source p ["Smith, J",34] [7]"#,
        ),
        (
            r#"{"op":"exact","plan":"j","rows":[[1,1],[3,1],[2,4],[1,4]]}"#,
            "exact plan j [1,1] [3,1] [2,4] [1,4]",
        ),
        (
            r#"{"op":"plan","name":"p1","plan":{"format":1,"steps":[{"do":"source","name":"a"}]}}"#,
            "plan p1 1 a",
        ),
        (
            r#"{"plan":{"steps":[{"name":"a","do":"source"},{"do":"where","of":0,"if":{"col":0}},{"do":"select","of":1,"row":[{"text":"x"},{"call":"mod","args":[{"col":0},{"int":2}]}]}],"format":1},"name":"p_2","op":"plan"}"#,
            "plan p_2 3 a",
        ),
        (r#"{"op":"drop","plan":"zz"}"#, "drop zz"),
        (
            r#"{"op":"measure","plan":"s","rows":[[1,1]],"epsilon":100000}"#,
            "measure s 100000 [1,1]",
        ),
        (
            r#"{"epsilon":1000000000,"rows":[[1,1],["x",8]],"plan":"j","op":"measure"}"#,
            r#"measure j 1000000000 [1,1] ["x",8]"#,
        ),
        (r#"{"op":"budget","source":"a"}"#, "budget a"),
    ];
    for (line, text) in rows {
        let request = read(rt.alloc(), line.as_bytes())?;
        assert_eq!(rt; request.as_slice(), text.as_bytes(), "{line}");
    }
    Ok(())
}

#[test]
fn refuses_the_first_fault(rt: HostRuntime) -> Result<(), Fail> {
    let rows = [
        (r#"{"op":"sum""#, r#"{"ok":false,"why":"json"}"#),
        ("[]", r#"{"field":"request","ok":false,"why":"shape"}"#),
        ("{}", r#"{"field":"op","ok":false,"why":"shape"}"#),
        (
            r#"{"op":"sun"}"#,
            r#"{"field":"op","ok":false,"why":"shape"}"#,
        ),
        (
            r#"{"op":"plans","name":"a"}"#,
            r#"{"field":"op","ok":false,"why":"shape"}"#,
        ),
        (
            r#"{"op":"sum"}"#,
            r#"{"field":"weights","ok":false,"why":"shape"}"#,
        ),
        (
            r#"{"op":"sum","weights":[],"x":1}"#,
            r#"{"field":"x","ok":false,"why":"shape"}"#,
        ),
        (
            r#"{"op":"sum","weights":["1","1/0"]}"#,
            r#"{"at":1,"ok":false,"text":"zero","why":"weight"}"#,
        ),
        (
            r#"{"op":"sum","weights":["1."]}"#,
            r#"{"at":0,"ok":false,"text":"bad","why":"weight"}"#,
        ),
        (
            r#"{"op":"sum","weights":["9223372036854775807"]}"#,
            r#"{"at":0,"ok":false,"text":"range","why":"weight"}"#,
        ),
        (
            r#"{"op":"sum","weights":["x",1]}"#,
            r#"{"field":"weights","ok":false,"why":"shape"}"#,
        ),
        (
            r#"{"op":"source","kinds":[],"signed":0}"#,
            r#"{"field":"name","ok":false,"why":"shape"}"#,
        ),
        (
            r#"{"op":"source","name":"a-b","kinds":[],"signed":0}"#,
            r#"{"field":"kinds","ok":false,"why":"shape"}"#,
        ),
        (
            r#"{"op":"source","name":"a","kinds":["int","real"],"signed":false,"budget":1}"#,
            r#"{"field":"kinds","ok":false,"why":"shape"}"#,
        ),
        (
            r#"{"op":"source","name":"a","kinds":["int"],"budget":1}"#,
            r#"{"field":"signed","ok":false,"why":"shape"}"#,
        ),
        (
            r#"{"op":"source","name":"a","kinds":["int"],"signed":false,"budget":1000000000000001}"#,
            r#"{"field":"budget","ok":false,"why":"shape"}"#,
        ),
        (
            r#"{"op":"source","name":"a","kinds":["int"],"signed":false,"budget":0.5}"#,
            r#"{"field":"budget","ok":false,"why":"shape"}"#,
        ),
        (
            r#"{"op":"source","name":"a-b","kinds":["int"],"signed":false,"budget":1,"y":1,"x":1}"#,
            r#"{"field":"x","ok":false,"why":"shape"}"#,
        ),
        (
            r#"{"op":"source","name":"a-b","kinds":["int"],"signed":false,"budget":1}"#,
            r#"{"field":"name","ok":false,"why":"name"}"#,
        ),
        (
            r#"{"op":"update","source":1,"csv":1}"#,
            r#"{"field":"source","ok":false,"why":"shape"}"#,
        ),
        (
            r#"{"op":"update","source":"a","header":1}"#,
            r#"{"field":"csv","ok":false,"why":"shape"}"#,
        ),
        (
            r#"{"op":"update","source":"a","csv":"","header":1}"#,
            r#"{"field":"header","ok":false,"why":"shape"}"#,
        ),
        (
            r#"{"op":"update","source":"","csv":"x"}"#,
            r#"{"field":"source","ok":false,"why":"name"}"#,
        ),
        (
            r#"{"op":"exact","rows":[[1]]}"#,
            r#"{"field":"plan","ok":false,"why":"shape"}"#,
        ),
        (
            r#"{"op":"exact","plan":1,"source":"a","rows":[[1]]}"#,
            r#"{"field":"source","ok":false,"why":"shape"}"#,
        ),
        (
            r#"{"op":"exact","source":1,"rows":[[1]]}"#,
            r#"{"field":"source","ok":false,"why":"shape"}"#,
        ),
        (
            r#"{"op":"exact","source":"a-b","rows":[]}"#,
            r#"{"field":"rows","ok":false,"why":"shape"}"#,
        ),
        (
            r#"{"op":"exact","source":"a","rows":[[1],[0.5]]}"#,
            r#"{"field":"rows","ok":false,"why":"shape"}"#,
        ),
        (
            r#"{"op":"exact","source":"a-b","rows":[[1]]}"#,
            r#"{"field":"source","ok":false,"why":"name"}"#,
        ),
        (
            r#"{"op":"exact","plan":1,"source":2,"x":1}"#,
            r#"{"field":"source","ok":false,"why":"shape"}"#,
        ),
        (
            r#"{"op":"exact","plan":1,"rows":[]}"#,
            r#"{"field":"plan","ok":false,"why":"shape"}"#,
        ),
        (
            r#"{"op":"exact","plan":"a-b","rows":[],"x":1}"#,
            r#"{"field":"rows","ok":false,"why":"shape"}"#,
        ),
        (
            r#"{"op":"exact","plan":"a-b","rows":[[1]],"x":1}"#,
            r#"{"field":"x","ok":false,"why":"shape"}"#,
        ),
        (
            r#"{"op":"exact","plan":"a-b","rows":[[1]]}"#,
            r#"{"field":"plan","ok":false,"why":"name"}"#,
        ),
        (
            r#"{"op":"drop"}"#,
            r#"{"field":"plan","ok":false,"why":"shape"}"#,
        ),
        (
            r#"{"op":"drop","plan":"a-b","name":"a"}"#,
            r#"{"field":"name","ok":false,"why":"shape"}"#,
        ),
        (
            r#"{"op":"drop","plan":"a-b"}"#,
            r#"{"field":"plan","ok":false,"why":"name"}"#,
        ),
        // A text is escaped as JSON has it.
        (
            r#"{"op":"sum","weights":[],"\"\\\/\b\f\n\r\t\u0001Å\u00e5":1}"#,
            r#"{"field":"\"\\/\b\f\n\r\t\u0001Åå","ok":false,"why":"shape"}"#,
        ),
    ];
    for (line, reply) in rows {
        let answer = read(rt.alloc(), line.as_bytes())?;
        assert_eq!(rt; answer.as_slice(), reply.as_bytes(), "{line}");
    }
    Ok(())
}

#[test]
fn refuses_the_first_fault_of_a_measurement_or_a_budget(rt: HostRuntime) -> Result<(), Fail> {
    let rows = [
        (
            r#"{"op":"measure","plan":"j","rows":[[1,1]],"epsilon":0.5}"#,
            r#"{"field":"epsilon","ok":false,"why":"shape"}"#,
        ),
        (
            r#"{"op":"measure","plan":"j","rows":[[1,1]],"epsilon":0}"#,
            r#"{"field":"epsilon","ok":false,"why":"shape"}"#,
        ),
        (
            r#"{"op":"measure","plan":"j","rows":[[1,1]],"epsilon":1000000001}"#,
            r#"{"field":"epsilon","ok":false,"why":"shape"}"#,
        ),
        (
            r#"{"op":"measure","plan":"a-b","rows":[[1,1]],"x":1}"#,
            r#"{"field":"epsilon","ok":false,"why":"shape"}"#,
        ),
        (
            r#"{"op":"measure","plan":"j","rows":[],"epsilon":0}"#,
            r#"{"field":"rows","ok":false,"why":"shape"}"#,
        ),
        (
            r#"{"op":"measure","plan":1,"rows":[],"epsilon":0}"#,
            r#"{"field":"plan","ok":false,"why":"shape"}"#,
        ),
        (
            r#"{"op":"measure","source":"a","rows":[[1]],"epsilon":1}"#,
            r#"{"field":"plan","ok":false,"why":"shape"}"#,
        ),
        (
            r#"{"op":"measure","plan":"a-b","rows":[[1]],"epsilon":1,"source":"a"}"#,
            r#"{"field":"source","ok":false,"why":"shape"}"#,
        ),
        (
            r#"{"op":"measure","plan":"a-b","rows":[[1]],"epsilon":1}"#,
            r#"{"field":"plan","ok":false,"why":"name"}"#,
        ),
        (
            r#"{"op":"budget","plan":"a"}"#,
            r#"{"field":"source","ok":false,"why":"shape"}"#,
        ),
        (
            r#"{"op":"budget","source":"a-b","plan":"a"}"#,
            r#"{"field":"plan","ok":false,"why":"shape"}"#,
        ),
        (
            r#"{"op":"budget","source":"a-b"}"#,
            r#"{"field":"source","ok":false,"why":"name"}"#,
        ),
    ];
    for (line, reply) in rows {
        let answer = read(rt.alloc(), line.as_bytes())?;
        assert_eq!(rt; answer.as_slice(), reply.as_bytes(), "{line}");
    }
    Ok(())
}

#[test]
fn refuses_the_first_fault_of_a_load(rt: HostRuntime) -> Result<(), Fail> {
    let rows = [
        (
            r#"{"op":"load","path":"../d.csv","x":1}"#,
            r#"{"field":"source","ok":false,"why":"shape"}"#,
        ),
        (
            r#"{"op":"load","source":1,"path":1}"#,
            r#"{"field":"source","ok":false,"why":"shape"}"#,
        ),
        (
            r#"{"op":"load","source":"a","csv":"5,1\n"}"#,
            r#"{"field":"path","ok":false,"why":"shape"}"#,
        ),
        (
            r#"{"op":"load","source":"a-b","path":["d.csv"],"header":1}"#,
            r#"{"field":"path","ok":false,"why":"shape"}"#,
        ),
        (
            r#"{"op":"load","source":"a-b","path":"../d.csv","header":1,"csv":""}"#,
            r#"{"field":"header","ok":false,"why":"shape"}"#,
        ),
        (
            r#"{"op":"load","source":"a-b","path":"../d.csv","csv":""}"#,
            r#"{"field":"csv","ok":false,"why":"shape"}"#,
        ),
        (
            r#"{"op":"load","source":"a-b","path":"../d.csv"}"#,
            r#"{"field":"source","ok":false,"why":"name"}"#,
        ),
        (
            r#"{"op":"load","source":"a","path":"../d.csv"}"#,
            r#"{"field":"path","ok":false,"why":"name"}"#,
        ),
    ];
    for (line, reply) in rows {
        let answer = read(rt.alloc(), line.as_bytes())?;
        assert_eq!(rt; answer.as_slice(), reply.as_bytes(), "{line}");
    }
    Ok(())
}

#[test]
fn refuses_what_is_no_path(rt: HostRuntime) -> Result<(), Fail> {
    let rows = [
        "", "/", "a/", "/a", "a//b", ".", "..", ".x", "a/.x", "a/../b", "a b", "a:b", "Å",
    ];
    for path in rows {
        let line = load_of(rt.alloc(), path.as_bytes())?;
        let answer = read(rt.alloc(), &line)?;
        assert_eq!(rt;
            answer.as_slice(),
            br#"{"field":"path","ok":false,"why":"name"}"#.as_slice(),
            "{path}"
        );
    }
    Ok(())
}

#[test]
fn a_path_has_at_most_200_bytes(rt: HostRuntime) -> Result<(), Fail> {
    let most = vec![in rt.alloc(); b'a'; 200]?;
    let taken = words(rt.alloc(), &[b"load a record", &most])?;
    let over = vec![in rt.alloc(); b'a'; 201]?;
    let refused = br#"{"field":"path","ok":false,"why":"name"}"#;
    let rows = [
        (most.as_slice(), taken.as_slice()),
        (over.as_slice(), refused.as_slice()),
    ];
    for (path, text) in rows {
        let line = load_of(rt.alloc(), path)?;
        let answer = read(rt.alloc(), &line)?;
        assert_eq!(rt; answer.as_slice(), text);
    }
    Ok(())
}

#[test]
fn refuses_the_first_fault_of_a_plan(rt: HostRuntime) -> Result<(), Fail> {
    let rows = [
        (
            r#"{"op":"plan","plan":1}"#,
            r#"{"field":"name","ok":false,"why":"shape"}"#,
        ),
        (
            r#"{"op":"plan","name":"a-b","x":1}"#,
            r#"{"field":"plan","ok":false,"why":"shape"}"#,
        ),
        (
            r#"{"op":"plan","name":"p","plan":1}"#,
            r#"{"field":"plan","ok":false,"step":0,"why":"shape"}"#,
        ),
        (
            r#"{"op":"plan","name":"p","plan":{"format":2,"steps":[]}}"#,
            r#"{"field":"format","ok":false,"step":0,"why":"shape"}"#,
        ),
        (
            r#"{"op":"plan","name":"p","plan":{"format":1,"steps":[],"x":1}}"#,
            r#"{"field":"steps","ok":false,"step":0,"why":"shape"}"#,
        ),
        (
            r#"{"op":"plan","name":"p","plan":{"format":1,"steps":[1],"x":1}}"#,
            r#"{"field":"other","ok":false,"step":0,"why":"shape"}"#,
        ),
        (
            r#"{"op":"plan","name":"p","plan":{"format":1,"steps":[{"do":"source","name":"a"},1]}}"#,
            r#"{"field":"step","ok":false,"step":1,"why":"shape"}"#,
        ),
        (
            r#"{"op":"plan","name":"p","plan":{"format":1,"steps":[{"do":"sources","name":"a"}]}}"#,
            r#"{"field":"do","ok":false,"step":0,"why":"shape"}"#,
        ),
        (
            r#"{"op":"plan","name":"p","plan":{"format":1,"steps":[{"do":"source","name":"a-b"}]}}"#,
            r#"{"field":"name","ok":false,"step":0,"why":"shape"}"#,
        ),
        (
            r#"{"op":"plan","name":"p","plan":{"format":1,"steps":[{"do":"source","name":"a"},{"do":"where","of":1,"if":{"col":0}}]}}"#,
            r#"{"field":"of","ok":false,"step":1,"why":"shape"}"#,
        ),
        (
            r#"{"op":"plan","name":"p","plan":{"format":1,"steps":[{"do":"source","name":"a"},{"do":"where","of":0}]}}"#,
            r#"{"field":"if","ok":false,"step":1,"why":"shape"}"#,
        ),
        (
            r#"{"op":"plan","name":"a-b","plan":{"format":1,"steps":[{"do":"source","name":"a"},{"do":"select","of":0,"row":[]}]},"x":1}"#,
            r#"{"field":"row","ok":false,"step":1,"why":"shape"}"#,
        ),
        (
            r#"{"op":"plan","name":"p","plan":{"format":1,"steps":[{"do":"source","name":"a"},{"do":"select","of":0,"row":[1,1,1,1,1,1,1,1,1,1,1,1,1,1,1,1,1]}]}}"#,
            r#"{"limit":"width","ok":false,"step":1,"why":"over"}"#,
        ),
        (
            r#"{"op":"plan","name":"a-b","plan":{"format":1,"steps":[{"do":"source","name":"a"}]},"x":1}"#,
            r#"{"field":"x","ok":false,"why":"shape"}"#,
        ),
        (
            r#"{"op":"plan","name":"a-b","plan":{"format":1,"steps":[{"do":"source","name":"a"}]}}"#,
            r#"{"field":"name","ok":false,"why":"name"}"#,
        ),
    ];
    for (line, reply) in rows {
        let answer = read(rt.alloc(), line.as_bytes())?;
        assert_eq!(rt; answer.as_slice(), reply.as_bytes(), "{line}");
    }
    Ok(())
}

#[test]
fn refuses_deep_lines_and_bytes_that_are_no_text(rt: HostRuntime) -> Result<(), Fail> {
    let deep = brackets(rt.alloc(), 128)?;
    let latin = b"{\"op\":\"sum\",\"weights\":[],\"\xff\":1}".as_slice();
    for line in [deep.as_slice(), latin] {
        let answer = read(rt.alloc(), line)?;
        assert_eq!(rt;
            answer.as_slice(),
            br#"{"ok":false,"why":"json"}"#.as_slice()
        );
    }
    Ok(())
}

#[test]
fn a_line_has_at_most_1048576_bytes(rt: HostRuntime) -> Result<(), Fail> {
    let rows = [
        (1_048_551, MAX_LINE, "sum"),
        (1_048_552, MAX_LINE + 1, r#"{"ok":false,"why":"line"}"#),
    ];
    for (spaces, len, text) in rows {
        let line = spaced(rt.alloc(), spaces)?;
        assert_eq!(rt; line.len(), len);
        let answer = read(rt.alloc(), &line)?;
        assert_eq!(rt; answer.as_slice(), text.as_bytes(), "{spaces}");
    }
    Ok(())
}
