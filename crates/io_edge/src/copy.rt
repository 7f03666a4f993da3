ghost use Rattle.std.specs.Prelude.{◌≡◌, length, take, min};

/// Copies the first of the bytes to the front of the buffer, as many as fit and at most `most`, and says how
/// many.
pub(crate) fn copy_front(bytes: &[u8], most: usize, buf: &mut [u8]) -> usize
    ensures count { result ≡ min (min (length bytes.now) (length buf.old)) most }
    ensures front { take result buf.new ≡ take result bytes.now }
{
    let count = bytes.len().min(buf.len()).min(most);
    buf[..count].copy_from_slice(&bytes[..count]);
    count
}
