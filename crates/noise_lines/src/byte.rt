//! The bytes of a source, one by one.
ghost use Rattle.io_edge.specs.Causes.{HasCause};
ghost use Rattle.noise_lines.specs.Taken.{ByteTaken};

use io_edge::{Failed, Source};

/// The next byte, or none at the end.
pub fn next_byte<S: Source>(source: &mut S) -> Result<Option<u8>, Failed>
    ensures byte { ByteTaken (S.left source.old) (S.left source.new) result }
    ensures cause { HasCause (S.faults source.old) (S.faults source.new) result }
{
    let mut buf = [0; 1];
    let count = source.read(&mut buf)?;
    if count == 0 {
        Ok(None)
    } else {
        Ok(Some(buf[0]))
    }
}
