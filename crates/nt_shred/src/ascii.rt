//! Whether a line is UTF-8: at once where it is ASCII, as nearly every line is.

ghost use Rattle.std.specs.Prelude.{◌≡◌, ◌≤◌, length, take, IsTrue};
ghost use Rattle.std.specs.Str.{IsAscii, IsUtf8};

use std::simd::prelude::*;

/// A bit for each of eight bytes that isn't ASCII.
#[inline(always)]
fn others(bytes: u8x8) -> u64
    ensures { result ≡ 0 → IsAscii bytes }
{
    bytes.simd_ge(u8x8::splat(128)).to_bitmask()
}

/// A bit for each of sixteen bytes that isn't ASCII.
#[inline(always)]
fn others_of_sixteen(bytes: u8x16) -> u64
    ensures { result ≡ 0 → IsAscii bytes }
{
    bytes.simd_ge(u8x16::splat(128)).to_bitmask()
}

/// The end of bytes of ASCII at the front, eight at a time.
#[inline(always)]
fn ascii_eights(text: &[u8]) -> usize
    ensures high { result ≤ length text.now }
    ensures ascii { IsAscii (take result text.now) }
{
    let mut i = 0;
    while text.len() - i >= 8 && others(u8x8::from_slice(&text[i..])) == 0 {
        i += 8;
    }
    i
}

/// The same, sixteen at a time.
#[inline(always)]
fn ascii_sixteens(text: &[u8]) -> usize
    ensures high { result ≤ length text.now }
    ensures ascii { IsAscii (take result text.now) }
{
    let mut i = 0;
    while text.len() - i >= 16 && others_of_sixteen(u8x16::from_slice(&text[i..])) == 0 {
        i += 16;
    }
    i
}

/// Whether a text of some bytes is ASCII.
fn is_short_ascii(text: &[u8]) -> bool
    ensures { IsTrue result → IsAscii text.now }
{
    let mut i = ascii_eights(text);
    while i < text.len() && text[i] < 128 {
        i += 1;
    }
    i == text.len()
}

/// Whether a text of sixteen bytes or more is ASCII. Its last sixteen are looked at together, whatever was seen of them.
#[inline(always)]
fn is_long_ascii(text: &[u8]) -> bool
    requires { 16 ≤ length text.now }
    ensures { IsTrue result → IsAscii text.now }
{
    let i = ascii_sixteens(text);
    let last = text.len() - 16;
    i >= last && others_of_sixteen(u8x16::from_slice(&text[last..])) == 0
}

fn is_ascii(text: &[u8]) -> bool
    ensures { IsTrue result → IsAscii text.now }
{
    if text.len() < 16 {
        is_short_ascii(text)
    } else {
        is_long_ascii(text)
    }
}

/// Whether these bytes are UTF-8.
pub fn is_utf8(text: &[u8]) -> bool
    ensures yes { IsTrue result → IsUtf8 text.now }
    ensures no { ¬ (IsTrue result) → ¬ (IsUtf8 text.now) }
{
    is_ascii(text) || simdutf8::compat::from_utf8(text).is_ok()
}
