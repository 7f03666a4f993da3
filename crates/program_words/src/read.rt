//! From words to options.
ghost use Rattle.std.specs.Prelude.{◌≡◌, ◌↔◌, ◌⊎◌, Option, None, Some, Err, IfOk};
ghost use Rattle.clap.specs.Words.{found_of, kind_of, rows_of};
ghost use Rattle.program_words.specs.Words.{demo_in, max_bytes_in, options_in, options_of};

use crate::command::command;
use crate::fault::WordsFault;
use crate::number::number_up_to;
use crate::options::Options;
use crate::word::Word;
use clap::error::ErrorKind;
use clap::{ArgMatches, Error};
use std::alloc::Global;

/// The largest size of the demo.
const MOST_DEMO: u64 = 20;

/// The most bytes of input: 2^40.
const MOST_BYTES: u64 = 1_099_511_627_776;

/// The options that the words give. `--help` and `--version` are faulty words.
pub fn read_words(alloc: Global, words: &[Word]) -> Result<Options, WordsFault>
    ensures options { IfOk result (λ options. options_of words.now ≡ Some options) }

    // Faulty words are exactly those that give no options; memory may be wanted for any.
    ensures faulty { result ≡ Err WordsFault.Faulty → options_of words.now ≡ None }
    ensures none { options_of words.now ≡ None
        → (result ≡ Err WordsFault.Faulty) ⊎ (result ≡ Err WordsFault.Memory) }
{
    let command = command(alloc)?;
    match command.try_get_matches_from(words) {
        Ok(matches) => options_in(&matches).ok_or(WordsFault::Faulty),
        Err(error) => Err(own_fault(&error)),
    }
}

/// What clap's fault is here.
fn own_fault(error: &Error) -> WordsFault
    ensures { (result ≡ WordsFault.Memory) ↔ (kind_of error.now ≡ ErrorKind.OutOfMemory) }
{
    match error.kind() {
        ErrorKind::OutOfMemory => WordsFault::Memory,
        _ => WordsFault::Faulty,
    }
}

/// The options of a match, or `None` where a number is out of form or range.
fn options_in(matches: &ArgMatches<'_>) -> Option<Options>
    ensures { result ≡ options_in (rows_of (found_of matches.now)) }
{
    Some(Options {
        curator: matches.get_one::<bool>("curator").unwrap_or(false),
        demo: demo_in(matches)?,
        max_bytes: max_bytes_in(matches)?,
    })
}

/// The size of the demo, if the match has the option.
fn demo_in(matches: &ArgMatches<'_>) -> Option<Option<u64>>
    ensures { result ≡ demo_in (rows_of (found_of matches.now)) }
{
    match matches.get_str("demo") {
        Some(text) => Some(Some(number_up_to(MOST_DEMO, text)?)),
        None => Some(None),
    }
}

/// The most bytes of input.
fn max_bytes_in(matches: &ArgMatches<'_>) -> Option<u64>
    ensures { result ≡ max_bytes_in (rows_of (found_of matches.now)) }
{
    match matches.get_str("max-bytes") {
        Some(text) => number_up_to(MOST_BYTES, text),
        None => Some(MOST_BYTES),
    }
}
