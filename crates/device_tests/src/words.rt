//! Tests of `program_words`.
use program_words::{Options, Word, WordsFault, law_word_values, law_words, read_words};
use std::alloc::Global;
use std::test::Fail;

const MOST_BYTES: u64 = 1_099_511_627_776;

#[test]
fn laws_hold() {
    law_words();
    law_word_values();
}

// The words of a line, with one space between each two.
fn words(alloc: Global, line: &str) -> Result<Vec<Word>, Fail> {
    let mut words = Vec::new(alloc);
    for text in line.split(' ') {
        words.push(Word::new(String::from_str(alloc, text)?))?;
    }
    Ok(words)
}

fn read(alloc: Global, line: &str) -> Result<Result<Options, WordsFault>, Fail> {
    let words = words(alloc, line)?;
    Ok(read_words(alloc, words.as_slice()))
}

#[test]
fn no_words_give_the_defaults(rt: HostRuntime) {
    let options = Options {
        curator: false,
        demo: None,
        max_bytes: MOST_BYTES,
    };
    assert_eq!(rt; read_words(rt.alloc(), &[]), Ok(options));
}

#[test]
fn words_give_options(rt: HostRuntime) -> Result<(), Fail> {
    let rows = [
        ("--curator", true, None, MOST_BYTES),
        ("--demo 1", false, Some(1), MOST_BYTES),
        ("--demo 20", false, Some(20), MOST_BYTES),
        ("--demo=3", false, Some(3), MOST_BYTES),
        ("--max-bytes 5", false, None, 5),
        (
            "--max-bytes 1099511627776 --curator --demo 7",
            true,
            Some(7),
            MOST_BYTES,
        ),
        ("--", false, None, MOST_BYTES),
    ];
    for (line, curator, demo, max_bytes) in rows {
        let options = Options {
            curator,
            demo,
            max_bytes,
        };
        assert_eq!(rt; read(rt.alloc(), line)?, Ok(options), "{line}");
    }
    Ok(())
}

#[test]
fn faulty_words_give_none(rt: HostRuntime) -> Result<(), Fail> {
    let lines = [
        "--nothing",
        "--curato",
        "-c",
        "curator",
        "--curator --curator",
        "--curator=true",
        "--curator=",
        "-- --curator",
        "--demo",
        "--demo=",
        "--demo --curator",
        "--demo 1 --demo 1",
        "--demo 0",
        "--demo 21",
        "--demo +5",
        "--demo -5",
        "--demo 007",
        "--demo 1e1",
        "--max-bytes 0",
        "--max-bytes 1099511627777",
        "--max-bytes 18446744073709551616",
        "--max-bytes 1 --max-bytes 1",
        "--help",
        "-h",
        "help",
        "--version",
        "-V",
    ];
    for line in lines {
        assert_eq!(rt; read(rt.alloc(), line)?, Err(WordsFault::Faulty), "{line}");
    }
    Ok(())
}
