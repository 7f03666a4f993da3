//! A source and a sink that fail at each of their calls, and input that is cut after each byte.

use crate::script::{REST, run, sink_of, source_of, texts};
use std::test::Fail;
use trial_runs::first_lines;

/// How many bytes the source gives in a call.
const PIECE: usize = 7;

/// How many ends of lines are in a text.
fn count_lines(bytes: &[u8]) -> usize {
    bytes.iter().filter(|byte| **byte == b'\n').count()
}

#[test]
fn a_source_that_fails_ends_the_run_behind_the_whole_lines(rt: HostRuntime) -> Result<(), Fail> {
    let alloc = rt.alloc();
    let (input, replies) = texts(alloc, &REST)?;
    let bytes = input.as_bytes();
    for taken in 0..=bytes.len() {
        // The last call finds the end.
        if taken % PIECE == 0 || taken == bytes.len() {
            let source = source_of(alloc, bytes, &[taken.div_ceil(PIECE) as u64])?;
            let (ending, written) = run(alloc, source, sink_of(alloc, &[])?, &[], &[])?;
            let lines = count_lines(&bytes[..taken]);
            assert_eq!(rt;
                written.as_str(),
                first_lines(alloc, replies.as_str(), lines)?.as_str()
            );
            assert_eq!(rt; (ending.status, ending.lines), (3, lines as u64), "{taken}");
        }
    }
    Ok(())
}

#[test]
fn a_sink_that_fails_has_taken_a_proper_front(rt: HostRuntime) -> Result<(), Fail> {
    let alloc = rt.alloc();
    let (input, replies) = texts(alloc, &REST)?;
    // Each reply has a last piece, which may be short.
    let mut whole = false;
    for call in 0..replies.len() as u64 {
        let source = source_of(alloc, input.as_bytes(), &[])?;
        let (ending, written) = run(alloc, source, sink_of(alloc, &[call])?, &[], &[])?;
        assert!(rt; replies.as_str().starts_with(written.as_str()), "{call}");
        // Past the last write nothing fails.
        assert_eq!(rt; ending.status == 4, written.len() < replies.len(), "{call}");
        assert!(rt; ending.status == 4 || ending.status == 0, "{call}");
        whole = ending.status == 0;
    }
    assert!(rt; whole);
    Ok(())
}

#[test]
fn input_that_is_cut_is_answered_as_far_as_it_goes(rt: HostRuntime) -> Result<(), Fail> {
    let alloc = rt.alloc();
    let (input, replies) = texts(alloc, &REST)?;
    let bytes = input.as_bytes();
    for taken in 0..=bytes.len() {
        let front = &bytes[..taken];
        let source = source_of(alloc, front, &[])?;
        let (ending, written) = run(alloc, source, sink_of(alloc, &[])?, &[], &[])?;
        let lines = count_lines(front);
        let mut wanted = first_lines(alloc, replies.as_str(), lines)?;
        let is_whole = front.is_empty() || front.ends_with(b"\n");
        let lacks_end = bytes.get(taken) == Some(&b'\n');
        if lacks_end && !is_whole {
            wanted = first_lines(alloc, replies.as_str(), lines.saturating_add(1))?;
        } else if !is_whole {
            wanted.push_str("{\"ok\":false,\"why\":\"json\"}\n")?;
        }
        assert_eq!(rt; written.as_str(), wanted.as_str(), "{taken}");
        assert_eq!(rt; ending.status, 0, "{taken}");
    }
    Ok(())
}
