ghost use Rattle.std.specs.Prelude.{◌≡◌, ◌≢◌, ◌↔◌, ◌+◌, ◌<◌, ◌≤◌, [], take, vec_len, Err, IfSome, OnOk};
ghost use Rattle.std.specs.IoError.{error_kind};
ghost use Rattle.io_edge.specs.Limits.{fetch_limit};

use crate::ShelfFault;
use std::io::{Error, ErrorKind, Read};

/// Puts what the reader has left into the empty buffer: all of at most `max` bytes, or `max + 1` bytes of more. An
/// error of the reader leaves the buffer empty, and is `Failed`, or `Memory` where its kind is want of memory.
pub fn read_up_to<R: Read + Drop>(
    reader: R,
    max: usize,
    into: &mut Vec<u8>,
) -> Result<(), ShelfFault>
    requires max { max < fetch_limit }
    requires empty { into.old.items ≡ [] }
    ensures within { OnOk result (vec_len into.new ≤ max) }
    ensures whole { OnOk result (IfSome (R.remaining reader) (λ bytes. into.new.items ≡ bytes)) }
    ensures longer { result ≡ Err ShelfFault.Long → vec_len into.new ≡ max + 1 }
    ensures front { result ≡ Err ShelfFault.Long
        → IfSome (R.remaining reader) (λ bytes. into.new.items ≡ take (max + 1) bytes) }
    ensures found { result ≢ Err ShelfFault.Missing }
    ensures failed { result ≡ Err ShelfFault.Failed → into.new.items ≡ [] }
    ensures memory { result ≡ Err ShelfFault.Memory → into.new.items ≡ [] }
{
    match reader.take(max as u64 + 1).read_to_end(into) {
        Ok(count) if count <= max => Ok(()),
        Ok(_) => {
            // it is this long already, which `read_to_end` doesn't promise
            into.truncate(max + 1);
            Err(ShelfFault::Long)
        }
        Err(error) => {
            into.clear();
            Err(read_fault(&error))
        }
    }
}

// The fault of a read that failed so.
fn read_fault(error: &Error) -> ShelfFault
    ensures memory { (result ≡ ShelfFault.Memory) ↔ (error_kind error.now ≡ ErrorKind.OutOfMemory) }
    ensures failed { (result ≡ ShelfFault.Failed) ↔ (error_kind error.now ≢ ErrorKind.OutOfMemory) }
{
    match error.kind() {
        ErrorKind::OutOfMemory => ShelfFault::Memory,
        _ => ShelfFault::Failed,
    }
}
