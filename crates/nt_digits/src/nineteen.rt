//! Up to 19 digits, behind those that are known.

ghost use Rattle.std.specs.Prelude.{◌≡◌, ◌≤◌, ◌+◌, ◌^◌};
ghost use Rattle.nt_digits.specs.Digits.{DigitsStand};

use crate::eight::up_to_eight;

/// The end of at most 19 digits, and their number, behind those that are known.
pub fn digits_behind(text: &[u8], at: usize, from: usize, before: u64) -> (u64, usize)
    requires { DigitsStand text.now at from before }
    ensures { DigitsStand text.now at result.1 result.0 }
{
    let mut n = before;
    let mut i = from;
    while i < text.len() && i - at < 19 && text[i].is_ascii_digit() {
        n = n * 10 + u64::from(text[i] - b'0');
        i += 1;
    }
    (n, i)
}

/// The powers of ten up to the eighth.
const TENS: [u64; 9] = [
    1,
    10,
    100,
    1_000,
    10_000,
    100_000,
    1_000_000,
    10_000_000,
    100_000_000,
];

/// A power of ten.
#[inline(always)]
fn ten_to(exponent: usize) -> u64
    requires { exponent ≤ 8 }
    ensures { result ≡ 10 ^ exponent }
{
    TENS[exponent]
}

/// The end of at most 19 digits, and their number, where the first eight are known.
pub fn digits_behind_eight(text: &[u8], at: usize, first: u64) -> (u64, usize)
    requires { DigitsStand text.now at (at + 8) first }
    ensures { DigitsStand text.now at result.1 result.0 }
{
    let i = at + 8;
    if text.len() - i < 8 {
        return digits_behind(text, at, i, first);
    }
    let (next, some) = up_to_eight(text, i);
    let n = first * ten_to(some) + next;
    let j = i + some;
    if some < 8 {
        return (n, j);
    }
    if text.len() - j < 8 {
        return digits_behind(text, at, j, n);
    }
    let (last, few) = up_to_eight(text, j);
    if few > 3 {
        return digits_behind(text, at, j, n);
    }
    (n * ten_to(few) + last, j + few)
}
