//! Bytes that are characters which stand for themselves, looked at one, eight or all at once.

ghost use Rattle.std.specs.Prelude.{◌≡◌, IsTrue};
ghost use Rattle.nt_print.specs.Simple.{Simple, AllSimple};

use std::simd::prelude::*;

/// Whether a byte is a character that stands for itself.
#[inline(always)]
pub fn is_simple(byte: u8) -> bool
    ensures { IsTrue result → Simple byte }
{
    (byte >= 32) & (byte < 128) & (byte != b'"') & (byte != b'\\')
}

/// A bit for each of eight bytes that isn't one.
#[inline(always)]
pub fn others(bytes: u8x8) -> u64
    ensures { result ≡ 0 → AllSimple bytes }
{
    (bytes.simd_eq(u8x8::splat(b'"'))
        | bytes.simd_eq(u8x8::splat(b'\\'))
        | bytes.simd_lt(u8x8::splat(32))
        | bytes.simd_ge(u8x8::splat(128))).to_bitmask()
}

/// Whether all bytes are. It ends behind the last one whatever they are, so that it can look at many at once.
pub fn are_simple(bytes: &[u8]) -> bool
    ensures { IsTrue result → AllSimple bytes.now }
{
    let mut all = true;
    for byte in bytes {
        all &= is_simple(*byte);
    }
    all
}
