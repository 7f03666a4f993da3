//! Laws of the definitions, each the contract of a function without code.
ghost use Rattle.request_machine.specs.Laws.{OnlyFailedFile, OnlyShortNoise, RepliesAreApart};

/// No step's reply is the line for want of memory, so the replies show which lines were answered.
pub fn law_replies()
    ensures { RepliesAreApart }
{}

/// Only a measurement is refused for noise, and only where it has fewer numbers than rows.
pub fn law_noise()
    ensures { OnlyShortNoise }
{}

/// Only a load is refused for its file's sake, and only where the shelf failed.
pub fn law_file()
    ensures { OnlyFailedFile }
{}
