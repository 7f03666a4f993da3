//! The top call.
ghost use Rattle.std.specs.Prelude.{◌≡◌, ◌≢◌, ◌⊎◌, ◌<◌, None, Some};
ghost use Rattle.io_edge.specs.Causes.{Rose};
ghost use Rattle.program_words.specs.Laws.{IsWithinLimits};
ghost use Rattle.program_words.specs.Words.{options_of};
ghost use Rattle.wpinq_program.specs.Outcome.{AskDemo, AskKnownInput, IsComplete, IsStatus, Outcome};
ghost use Rattle.wpinq_program.specs.Served.{known};

use crate::demo::run_demo;
use crate::ending::{Ending, NO_MEMORY, USAGE};
use crate::input_run::run_input;
use io_edge::{Noise, Shelf, Sink, Source};
use program_words::{Options, Word, WordsFault, law_word_values, read_words};
use std::alloc::Global;
use std::marker::Brand;
use std::sync::ledger::{Blank, Ledger};
use steps::Steps;

/// Answers the request lines of the source, and writes each reply to the sink before more is read; or, where the
/// words have `--demo N`, answers the demo's lines and writes the replies to the last three. The word `--curator`
/// opens exact answers, which the demo always has, and `--max-bytes N` says how many bytes the input may have.
pub fn wpinq<S: Source, K: Sink, N: Noise, F: Shelf>(
    alloc: Global,
    words: &[Word],
    src: &mut S,
    out: &mut K,
    noise: &mut N,
    shelf: &mut F,
) -> Ending
    // What each status says of the bytes taken, the lines answered and the replies written.
    ensures outcome { Outcome (F.files shelf.old) (options_of words.now) (S.left src.old) (S.left src.new)
        (known 0 (K.written out.old) (N.given noise.old) (N.faults noise.old) (F.faults shelf.old))
        (known result.lines (K.written out.new) (N.given noise.new) (N.faults noise.new) (F.faults shelf.new))
        result.status }
    ensures status { IsStatus result.status }

    // The cause of each. Faulty words are told unless there is no memory to read them.
    ensures words { result.status ≡ 2 → options_of words.now ≡ None }
    ensures faulty { options_of words.now ≡ None → (result.status ≡ 2) ⊎ (result.status ≡ 5) }
    ensures read_fault { result.status ≡ 3 → Rose (S.faults src.old) (S.faults src.new) }
    ensures write_fault { result.status ≡ 4 → Rose (K.faults out.old) (K.faults out.new) }

    // The demo reads nothing.
    ensures source { AskDemo (options_of words.now) → S.faults src.new ≡ S.faults src.old }

    // The files are those of before.
    ensures files { F.files shelf.new ≡ F.files shelf.old }

    // Without a fault, an input within the limit is answered to its end, and so is the demo, unless there was no
    // memory at the start.
    ensures complete { AskKnownInput (options_of words.now) (S.left src.old)
        → ¬ Rose (S.faults src.old) (S.faults src.new) → ¬ Rose (K.faults out.old) (K.faults out.new)
        → IsComplete result.status }
    ensures demo_complete { AskDemo (options_of words.now)
        → ¬ Rose (K.faults out.old) (K.faults out.new) → IsComplete result.status }
{
    law_word_values();
    match read_words(alloc, words) {
        Ok(options) => run::<Brand, S, K, N, F>(
            Blank::new(1),
            alloc,
            options,
            src,
            out,
            noise,
            shelf,
        ),
        Err(WordsFault::Faulty) => Ending::before_any_line(USAGE),
        Err(WordsFault::Memory) => Ending::before_any_line(NO_MEMORY),
    }
}

/// Runs what the options ask for, with a counter of steps from the blank page.
fn run<L: Ledger, S: Source, K: Sink, N: Noise, F: Shelf>(
    blank: Blank,
    alloc: Global,
    options: Options,
    src: &mut S,
    out: &mut K,
    noise: &mut N,
    shelf: &mut F,
) -> Ending
    requires name { blank.name ≡ L.name }
    requires parts { blank.parts ≡ L.parts }
    requires some { 0 < blank.parts }
    requires limits { IsWithinLimits options }
    ensures outcome { Outcome (F.files shelf.old) (Some options) (S.left src.old) (S.left src.new)
        (known 0 (K.written out.old) (N.given noise.old) (N.faults noise.old) (F.faults shelf.old))
        (known result.lines (K.written out.new) (N.given noise.new) (N.faults noise.new) (F.faults shelf.new))
        result.status }
    ensures status { IsStatus result.status }
    ensures words { result.status ≢ 2 }
    ensures read_fault { result.status ≡ 3 → Rose (S.faults src.old) (S.faults src.new) }
    ensures write_fault { result.status ≡ 4 → Rose (K.faults out.old) (K.faults out.new) }
    ensures source { AskDemo (Some options) → S.faults src.new ≡ S.faults src.old }
    ensures files { F.files shelf.new ≡ F.files shelf.old }
{
    let mut steps: Steps<L> = Steps::new(blank);
    match options.demo {
        Some(n) => run_demo(alloc, n, out, noise, shelf, &mut steps),
        None => run_input(
            alloc,
            options.curator,
            options.max_bytes,
            src,
            out,
            noise,
            shelf,
            &mut steps,
        ),
    }
}
