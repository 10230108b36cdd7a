//! Zeros before other digits.

ghost use Rattle.std.specs.Prelude.{◌≡◌, ◌≤◌, ◌<◌, ◌+◌, length, IsTrue, get_or};

/// No zero stands before other digits.
#[inline(always)]
pub fn has_no_zeros(text: &[u8], at: usize, end: usize) -> bool
    requires { (at < end) × (end ≤ length text.now) }
    ensures { IsTrue result → get_or text.now at 0 ≡ 48 → end ≤ at + 1 }
{
    text[at] != b'0' || end - at == 1
}
