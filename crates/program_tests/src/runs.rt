//! Runs of the top call over devices in memory.
ghost use Rattle.std.specs.Prelude.{◌≢◌};

use io_edge::{MemShelf, MemSink, MemSource, SureNoise, SureSink, SureSource};
use std::alloc::Global;
use std::test::Fail;
use trial_runs::{answer, run};
use wpinq_program::{Ending, wpinq};

const SUM: &str = "{\"op\":\"sum\",\"weights\":[\"1/2\",\"1/3\"]}\n";

const SUM_REPLY: &str = "{\"ok\":true,\"sum\":\"5/6\"}\n";

const EMPTY_SUM: &str = "{\"op\":\"sum\",\"weights\":[]}";

const EMPTY_SUM_REPLY: &str = "{\"ok\":true,\"sum\":\"0\"}\n";

/// So many spaces make that line the longest that there may be.
const SPACES: usize = 1_048_551;

#[test]
fn each_line_has_its_one_reply(rt: HostRuntime) -> Result<(), Fail> {
    let rows = [
        ("", "", 0),
        (SUM, SUM_REPLY, 1),
        // A last line without LF counts, a CR before LF is dropped, and an empty line has no reply.
        (
            "{\"op\":\"sum\",\"weights\":[]}",
            "{\"ok\":true,\"sum\":\"0\"}\n",
            1,
        ),
        (
            "\r\n\n{\"op\":\"sum\",\"weights\":[\"-3/2\"]}\r\n\r",
            "{\"ok\":true,\"sum\":\"-3/2\"}\n",
            1,
        ),
        // Signs, leading zeros, fractions and decimals are read as what they denote.
        (
            "{\"op\":\"sum\",\"weights\":[\"+2/4\",\"0.50\",\"007\"]}\n",
            "{\"ok\":true,\"sum\":\"8\"}\n",
            1,
        ),
    ];
    for (input, replies, lines) in rows {
        let (ending, written) = answer(rt.alloc(), &[], input, 64)?;
        assert_eq!(rt;
            (written.as_str(), ending.status, ending.lines),
            (replies, 0, lines),
            "{input}"
        );
    }
    Ok(())
}

#[test]
fn a_faulty_line_is_refused_for_its_first_fault(rt: HostRuntime) -> Result<(), Fail> {
    let rows = [
        // A running sum out of range is refused, though the total fits.
        (
            "{\"op\":\"sum\",\"weights\":[\"4611686018427387903\",\"1\"]}\n",
            "{\"at\":1,\"ok\":false,\"why\":\"range\"}\n",
        ),
        (
            "{\"op\":\"sum\",\"weights\":[\"4611686018427387903\",\"1\",\"-1\"]}\n",
            "{\"at\":1,\"ok\":false,\"why\":\"range\"}\n",
        ),
        (
            "{\"op\":\"sum\",\"weights\":[\"1/2305843009213693951\",\"1/2305843009213693950\"]}\n",
            "{\"at\":1,\"ok\":false,\"why\":\"range\"}\n",
        ),
        // The first weight that is none, by its form, its denominator or its range.
        (
            "{\"op\":\"sum\",\"weights\":[\"+2/4\",\"1.\",\"1/0\"]}\n",
            "{\"at\":1,\"ok\":false,\"text\":\"bad\",\"why\":\"weight\"}\n",
        ),
        (
            "{\"op\":\"sum\",\"weights\":[\"1.\"]}\n",
            "{\"at\":0,\"ok\":false,\"text\":\"bad\",\"why\":\"weight\"}\n",
        ),
        (
            "{\"op\":\"sum\",\"weights\":[\"1\",\"1/0\"]}\n",
            "{\"at\":1,\"ok\":false,\"text\":\"zero\",\"why\":\"weight\"}\n",
        ),
        (
            "{\"op\":\"sum\",\"weights\":[\"9223372036854775807\"]}\n",
            "{\"at\":0,\"ok\":false,\"text\":\"range\",\"why\":\"weight\"}\n",
        ),
        // The first fault of the walk.
        ("{\"op\":\"sum\"\n", "{\"ok\":false,\"why\":\"json\"}\n"),
        (
            "[]\n",
            "{\"field\":\"request\",\"ok\":false,\"why\":\"shape\"}\n",
        ),
        (
            "{\"op\":\"sun\"}\n",
            "{\"field\":\"op\",\"ok\":false,\"why\":\"shape\"}\n",
        ),
        (
            "{\"op\":\"sum\",\"weights\":[\"x\",1],\"x\":1}\n",
            "{\"field\":\"weights\",\"ok\":false,\"why\":\"shape\"}\n",
        ),
        (
            "{\"op\":\"sum\",\"weights\":[],\"x\":1}\n",
            "{\"field\":\"x\",\"ok\":false,\"why\":\"shape\"}\n",
        ),
    ];
    for (input, reply) in rows {
        let (ending, written) = answer(rt.alloc(), &[], input, 64)?;
        assert_eq!(rt;
            (written.as_str(), ending.status, ending.lines),
            (reply, 0, 1),
            "{input}"
        );
    }
    Ok(())
}

#[test]
fn the_replies_are_the_same_in_pieces_of_each_length(rt: HostRuntime) -> Result<(), Fail> {
    let input = format!(in rt.alloc(); "{SUM}{SUM}")?;
    let replies = format!(in rt.alloc(); "{SUM_REPLY}{SUM_REPLY}")?;
    for piece in 1..41 {
        let (ending, written) = answer(rt.alloc(), &[], input.as_str(), piece)?;
        assert_eq!(rt; written.as_str(), replies.as_str(), "{piece}");
        assert_eq!(rt; (ending.status, ending.lines), (0, 2), "{piece}");
    }
    Ok(())
}

#[test]
fn a_read_fault_in_the_second_line_leaves_the_first_reply(rt: HostRuntime) -> Result<(), Fail> {
    let alloc = rt.alloc();
    let input = format!(in alloc; "{SUM}{SUM}")?.into_bytes();
    let source = MemSource::new(input, 50, [1].to_vec(alloc)?);
    let sink = MemSink::new(alloc, 100, 100, Vec::new(alloc))?;
    let (ending, written) = run(alloc, &[], source, sink, &mut SureNoise::new())?;
    assert_eq!(rt; written.as_str(), SUM_REPLY);
    assert_eq!(rt; (ending.status, ending.lines), (3, 1));
    Ok(())
}

#[test]
fn a_write_fault_leaves_a_front_of_the_reply(rt: HostRuntime) -> Result<(), Fail> {
    let alloc = rt.alloc();
    let input = SUM.as_bytes().to_vec(alloc)?;
    let source = MemSource::new(input, 64, Vec::new(alloc));
    let sink = MemSink::new(alloc, 100, 3, [1].to_vec(alloc)?)?;
    let (ending, written) = run(alloc, &[], source, sink, &mut SureNoise::new())?;
    assert_eq!(rt; written.as_str(), "{\"o");
    assert_eq!(rt; (ending.status, ending.lines), (4, 1));
    Ok(())
}

/// A line that sums nothing, with so many spaces after it, and then this end.
fn spaced_sum(alloc: Global, spaces: usize, end: &str) -> Result<String, Fail> {
    let mut input = Vec::from_slice(alloc, EMPTY_SUM.as_bytes())?;
    input.extend_from_slice(&vec![in alloc; b' '; spaces]?)?;
    input.extend_from_slice(end.as_bytes())?;
    Ok(String::from_utf8(input)?)
}

#[test]
fn a_line_over_the_limit_is_refused_and_the_next_is_answered(rt: HostRuntime) -> Result<(), Fail> {
    let rows = [
        (SPACES, "\n", EMPTY_SUM_REPLY),
        // The CR at the end of a line is none of its bytes.
        (SPACES, "\r\n", EMPTY_SUM_REPLY),
        (SPACES + 1, "\n", "{\"ok\":false,\"why\":\"line\"}\n"),
        (SPACES + 1, "\r\n", "{\"ok\":false,\"why\":\"line\"}\n"),
        (3 * SPACES, "\n", "{\"ok\":false,\"why\":\"line\"}\n"),
    ];
    for (spaces, end, reply) in rows {
        let mut input = spaced_sum(rt.alloc(), spaces, end)?;
        input.push_str(SUM)?;
        let replies = format!(in rt.alloc(); "{reply}{SUM_REPLY}")?;
        let (ending, written) = answer(rt.alloc(), &[], input.as_str(), 65_536)?;
        assert_eq!(rt; written.as_str(), replies.as_str(), "{spaces}");
        assert_eq!(rt; (ending.status, ending.lines), (0, 2), "{spaces}");
    }
    Ok(())
}

#[test]
fn forty_of_the_longest_lines_are_answered(rt: HostRuntime) -> Result<(), Fail> {
    let line = spaced_sum(rt.alloc(), SPACES, "\n")?;
    let mut input = String::new(rt.alloc());
    let mut replies = String::new(rt.alloc());
    for _ in 0..40 {
        input.push_str(line.as_str())?;
        replies.push_str(EMPTY_SUM_REPLY)?;
    }
    let (ending, written) = answer(rt.alloc(), &[], input.as_str(), 65_536)?;
    assert_eq!(rt; written.as_str(), replies.as_str());
    assert_eq!(rt; (ending.status, ending.lines), (0, 40));
    Ok(())
}

#[test]
fn input_over_the_limit_is_cut_there(rt: HostRuntime) -> Result<(), Fail> {
    let rows = [
        ("5", "\n\n\n\n\n", "", 0, 0),
        ("5", "\n\n\n\n\n\n", "", 6, 0),
        // A line that is whole within the limit is answered, and one that is cut isn't.
        (
            "26",
            "{\"op\":\"sum\",\"weights\":[]}\n",
            EMPTY_SUM_REPLY,
            0,
            1,
        ),
        (
            "26",
            "{\"op\":\"sum\",\"weights\":[]}\n\n",
            EMPTY_SUM_REPLY,
            6,
            1,
        ),
        ("25", "{\"op\":\"sum\",\"weights\":[]}\n", "", 6, 0),
        (
            "25",
            "{\"op\":\"sum\",\"weights\":[]}",
            EMPTY_SUM_REPLY,
            0,
            1,
        ),
    ];
    for (most, input, replies, status, lines) in rows {
        for piece in [1, 4, 64] {
            let (ending, written) = answer(rt.alloc(), &["--max-bytes", most], input, piece)?;
            assert_eq!(rt; written.as_str(), replies, "{most}");
            assert_eq!(rt; ending, Ending { status, lines }, "{most}");
        }
    }
    Ok(())
}

#[test]
fn faulty_words_are_refused_before_anything_is_read(rt: HostRuntime) -> Result<(), Fail> {
    let faulty: [&[&str]; 10] = [
        &["--nothing"],
        &["--demo", "0"],
        &["--max-bytes"],
        &["--max-bytes", "007"],
        &[""],
        &["curator"],
        &["--curator "],
        &["--curator=true"],
        &["--curator", "--curator"],
        &["--help"],
    ];
    for words in faulty {
        let (ending, written) = answer(rt.alloc(), words, SUM, 64)?;
        assert_eq!(rt; written.as_str(), "", "{words:?}");
        assert_eq!(rt; (ending.status, ending.lines), (2, 0), "{words:?}");
    }
    Ok(())
}

/// Over devices that never fail, no status says that one did: it follows from the clauses of `wpinq`.
fn over_sure_devices(alloc: Global, input: Vec<u8>) -> Ending
    ensures never_read_fault { result.status ≢ 3 }
    ensures never_write_fault { result.status ≢ 4 }
{
    let mut source = SureSource::new(input);
    let mut sink = SureSink::new();
    let mut noise = SureNoise::new();
    let mut shelf = MemShelf::new(alloc);
    wpinq(alloc, &[], &mut source, &mut sink, &mut noise, &mut shelf)
}

#[test]
fn sure_devices_end_with_the_input(rt: HostRuntime) -> Result<(), Fail> {
    let ending = over_sure_devices(rt.alloc(), SUM.as_bytes().to_vec(rt.alloc())?);
    assert_eq!(rt; (ending.status, ending.lines), (0, 1));
    Ok(())
}
