//! Writing to the sink.
ghost use Rattle.std.specs.Prelude.{◌≡◌, ◌<◌, ℕ, length, take, MatchResult};
ghost use Rattle.io_edge.specs.Causes.{HasCause};
ghost use Rattle.io_edge.specs.Known.{Gains};

use io_edge::{Failed, Sink};

/// Writes the whole text, or where the sink fails a proper front of it.
pub fn write_all<K: Sink>(out: &mut K, text: &[u8]) -> Result<(), Failed>
    ensures written { (n : ℕ) × Gains (K.written out.old) (K.written out.new) (take n text.now)
        × MatchResult result (λ _. n ≡ length text.now) (λ _. n < length text.now) }
    ensures cause { HasCause (K.faults out.old) (K.faults out.new) result }
{
    let mut at = 0;
    while at < text.len() {
        at += out.write(&text[at..])?;
    }
    Ok(())
}
