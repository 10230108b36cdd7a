//! A mark and the digits of a number as the bytes of a word, the first as the lowest.

ghost use Rattle.std.specs.Prelude.{◌≡◌, ◌<◌, ◌≤◌, ◌∷◌, take, decimal};
ghost use Rattle.std.specs.Int.{to_le_bytes, w64};

use crate::triples::triple;

/// The least number of more than six digits.
pub const MILLION: u64 = 1_000_000;

/// How many of the three digits of a number are zeros in front of it; a zero is its own last digit.
#[inline(always)]
fn zeros_before(n: u32) -> u32
    ensures units { n < 10 → result ≡ 2 }
    ensures tens { 10 ≤ n → n < 100 → result ≡ 1 }
    ensures hundreds { 100 ≤ n → result ≡ 0 }
    ensures few { result ≤ 2 }
{
    if n < 10 {
        2
    } else if n < 100 {
        1
    } else {
        0
    }
}

/// A mark and the digits of a number below 1000 as the lowest bytes of a word, and how many bytes they are.
#[inline(always)]
pub fn small_word(mark: u8, n: u32) -> (u64, usize)
    requires { n < 1000 }
    ensures text { take result.1 (to_le_bytes w64 result.0) ≡ mark ∷ decimal n }
    ensures few { result.1 ≤ 4 }
{
    let none = zeros_before(n);
    let text = (triple(n) >> (8 * none)) * 256 + u64::from(mark);
    (text, 4 - none as usize)
}
