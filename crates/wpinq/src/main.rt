//! The program: the top call over standard input and standard output, with noise from a file and the files of the
//! working folder.
#![tactic(auto)]

use io_edge::{FolderShelf, StdSink, StdSource};
use noise_lines::{FileSource, LineNoise, NOISE_FILE};
use std::process::ExitCode;
use std::{env, io};
use wpinq_program::{Word, wpinq};

/// The status for faulty words.
const FAULTY_WORDS: u8 = 2;

/// The status for want of memory before the first line.
const NO_MEMORY: u8 = 5;

fn main(rt: HostRuntime) -> ExitCode {
    let status = match read_words(&rt) {
        Ok(words) => answer(&rt, &words),
        Err(e) if e.kind() == io::ErrorKind::OutOfMemory => NO_MEMORY,
        Err(_) => FAULTY_WORDS,
    };
    if status == FAULTY_WORDS {
        let _ = eprintln!(rt; "usage: wpinq [--curator] [--demo N] [--max-bytes N]");
    }
    ExitCode::from(status)
}

/// The words after the program's own name. One that isn't UTF-8 is an error.
fn read_words(rt: &HostRuntime) -> io::Result<Vec<Word>> {
    let mut words = Vec::new(rt.alloc());
    for text in env::args(rt)?.skip(1) {
        words.push(Word::new(text))?;
    }
    Ok(words)
}

/// Answers standard input on standard output, with noise from the lines of `wpinq.noise` and the files of the working
/// folder, and gives the status.
fn answer(rt: &HostRuntime, words: &[Word]) -> u8 {
    let mut source = StdSource::new(rt.stdin());
    let mut sink = StdSink::new(rt.stdout());
    let mut noise = LineNoise::new(rt.alloc(), FileSource::new(rt, NOISE_FILE));
    let mut shelf = FolderShelf::new(rt);
    let ending = wpinq(
        rt.alloc(),
        words,
        &mut source,
        &mut sink,
        &mut noise,
        &mut shelf,
    );
    ending.status
}
