//! Runs of the top call over devices in memory.
ghost use Rattle.std.specs.Prelude.{◌≤◌};

use crate::Memory;
use io_edge::{MemShelf, MemSink, MemSource, Noise, SureNoise};
use std::alloc::Global;
use wpinq_program::{Ending, Word, wpinq};

/// How a run ends, and what it has written.
pub type Told = (Ending, String);

/// Runs the top call under these words over these devices, with a shelf without files.
pub fn run<N: Noise>(
    alloc: Global,
    texts: &[&str],
    source: MemSource,
    sink: MemSink,
    noise: &mut N,
) -> Result<Told, Memory> {
    run_with_files(alloc, texts, source, sink, noise, &mut MemShelf::new(alloc))
}

/// The same with this shelf.
pub fn run_with_files<N: Noise>(
    alloc: Global,
    texts: &[&str],
    mut source: MemSource,
    mut sink: MemSink,
    noise: &mut N,
    shelf: &mut MemShelf,
) -> Result<Told, Memory> {
    let mut words = Vec::new(alloc);
    for text in texts {
        words.push(Word::new(String::from_str(alloc, text)?))?;
    }
    let ending = wpinq(alloc, &words, &mut source, &mut sink, noise, shelf);
    Ok((ending, String::from_utf8_lossy(alloc, sink.bytes())?))
}

/// The same for an input that is read in pieces of this length, over devices that don't fail.
pub fn answer(alloc: Global, texts: &[&str], input: &str, piece: usize) -> Result<Told, Memory>
    requires { 1 ≤ piece }
{
    answer_over(alloc, texts, input, piece, &mut SureNoise::new())
}

/// The same with this noise.
pub fn answer_over<N: Noise>(
    alloc: Global,
    texts: &[&str],
    input: &str,
    piece: usize,
    noise: &mut N,
) -> Result<Told, Memory>
    requires { 1 ≤ piece }
{
    let bytes = Vec::from_slice(alloc, input.as_bytes())?;
    let source = MemSource::new(bytes, piece, Vec::new(alloc));
    let sink = MemSink::new(alloc, 10_000, 7, Vec::new(alloc))?;
    run(alloc, texts, source, sink, noise)
}
