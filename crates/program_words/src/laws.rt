//! Laws of the words.
ghost use Rattle.program_words.specs.Laws.{DemoValue, FaultyWords, MaxBytesValue, NoWords, OptionsWithinLimits, WorkedNumbers, WorkedWords};

/// What some lists of words give.
pub fn law_words()
    ensures none { NoWords }
    ensures worked { WorkedWords }
    ensures faulty { FaultyWords }
{}

/// What values are read as.
pub fn law_word_values()
    ensures demo { DemoValue }
    ensures max_bytes { MaxBytesValue }
    ensures numbers { WorkedNumbers }
    ensures limits { OptionsWithinLimits }
{}
