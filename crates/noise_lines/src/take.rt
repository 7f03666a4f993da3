//! The lines of a source, one by one.
ghost use Rattle.std.specs.Prelude.{◌≤◌};
ghost use Rattle.noise_lines.specs.Taken.{Takes};

use crate::byte::next_byte;
use crate::front::{KEPT, LineFront};
use io_edge::{Failed, Source};

/// How the taking of a line ended.
#[derive(Clone, Copy)]
pub enum Taken {
    /// With the line's LF, or with the end of the source after a byte or more.
    Line,
    /// At the end of the source, where no line is begun.
    Nothing,
    /// With a fault of the source, before the line's LF.
    Broken,
    /// After 2^64 - 1 bytes without an LF.
    Endless,
}

/// Takes the rest of the line that is begun, and keeps the front of the line. An LF isn't kept.
pub fn take_line<S: Source>(source: &mut S, front: &mut LineFront) -> Taken
    ensures later { S.faults source.old ≤ S.faults source.new }
    ensures taken { Takes front.old (S.left source.old) (S.left source.new)
        (S.faults source.old) (S.faults source.new) result front.new }
{
    let kept = front.len();
    prove!(kept <= KEPT);
    for _count in 0..u64::MAX {
        match next_byte(source) {
            Ok(Some(b'\n')) => return Taken::Line,
            Ok(Some(byte)) => front.push(byte),
            Ok(None) if front.is_empty() => return Taken::Nothing,
            Ok(None) => return Taken::Line,
            Err(Failed) => return Taken::Broken,
        }
    }
    Taken::Endless
}
