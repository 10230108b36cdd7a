//! The front of a list of bytes.

ghost use Rattle.std.specs.Prelude.{◌≡◌, min, length, take};

/// Copies as many of the first bytes as there is room for, at most so many, and says how many.
pub fn copy_front(bytes: &[u8], buf: &mut [u8], most: usize) -> usize
    ensures count { result ≡ min (length bytes.now) (min (length buf.new) most) }
    ensures front { take result buf.new ≡ take result bytes.now }
{
    let count = bytes.len().min(buf.len().min(most));
    buf[..count].copy_from_slice(&bytes[..count]);
    count
}
