ghost use Rattle.std.specs.Prelude.{◌≡◌};

/// The input was answered to its end, or the demo's lines are done.
pub const DONE: u8 = 0;

/// The words are faulty.
pub const USAGE: u8 = 2;

/// The source failed.
pub const READ_FAULT: u8 = 3;

/// The sink failed.
pub const WRITE_FAULT: u8 = 4;

/// There was no memory before the first line.
pub const NO_MEMORY: u8 = 5;

/// The input is over the limit.
pub const OVER_LIMIT: u8 = 6;

/// How a run ended.
#[derive(Clone, Copy, Debug, PartialEq, Eq)]
pub struct Ending {
    /// 0 where the input was answered to its end, 2 for faulty words, 3 where the source failed, 4 where
    /// the sink failed, 5 for want of memory before the first line, and 6 where the input is over the limit.
    pub status: u8,
    /// For how many lines a reply was made.
    pub lines: u64,
}

impl Ending {
    /// The end of a run that began no line.
    pub fn before_any_line(status: u8) -> Ending
        ensures { result ≡ record { status = status; lines = 0 } }
    {
        Ending { status, lines: 0 }
    }
}
