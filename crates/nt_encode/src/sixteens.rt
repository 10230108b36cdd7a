//! The words of split pages of four and of eight bytes, put together sixteen at a time.

ghost use Rattle.std.specs.Prelude.{◌≡◌, ℕ, ◌+◌, ◌*◌, ◌<◌, ◌≤◌, length, slice_index};
ghost use Rattle.nt_encode.specs.Digits.{list_of};
ghost use Rattle.nt_encode.specs.Split.{split_value, split_values};

use crate::number::number_at;
use crate::width::Width;
use std::simd::prelude::*;

/// How many words are put together at a time.
const LANES: usize = 16;

/// The lower halves of two vectors, byte by byte in turn.
const LOW_1: [usize; 16] = [0, 16, 1, 17, 2, 18, 3, 19, 4, 20, 5, 21, 6, 22, 7, 23];

/// Their upper halves.
const HIGH_1: [usize; 16] = [8, 24, 9, 25, 10, 26, 11, 27, 12, 28, 13, 29, 14, 30, 15, 31];

/// The lower halves, two bytes in turn.
const LOW_2: [usize; 16] = [0, 1, 16, 17, 2, 3, 18, 19, 4, 5, 20, 21, 6, 7, 22, 23];

/// Their upper halves.
const HIGH_2: [usize; 16] = [8, 9, 24, 25, 10, 11, 26, 27, 12, 13, 28, 29, 14, 15, 30, 31];

/// The lower halves, four bytes in turn.
const LOW_4: [usize; 16] = [0, 1, 2, 3, 16, 17, 18, 19, 4, 5, 6, 7, 20, 21, 22, 23];

/// Their upper halves.
const HIGH_4: [usize; 16] = [8, 9, 10, 11, 24, 25, 26, 27, 12, 13, 14, 15, 28, 29, 30, 31];

/// Byte j of sixteen words from word i on.
#[inline(always)]
fn plane(bytes: &[u8], count: usize, j: usize, i: usize) -> u8x16
    requires { j * count + i + 16 ≤ length bytes.now }
    ensures { result ≡ list_of 16 (λ k. slice_index bytes.now (j * count + (i + k))) }
{
    u8x16::from_slice(&bytes[j * count + i..])
}

/// Reads sixteen words of four bytes, where those before them are read.
#[inline(always)]
fn take_sixteen_32(bytes: &[u8], i: usize, out: &mut [u32])
    requires length { length bytes.now ≡ 4 * length out.old }
    requires within { i + 16 ≤ length out.old }
    requires before { (p : ℕ) → p < i
        → slice_index out.old p ≡ split_value 4 (length out.old) bytes.now p }
    ensures { (p : ℕ) → p < i + 16
        → slice_index out.new p ≡ split_value 4 (length out.old) bytes.now p }
{
    let count = out.len();
    let a = plane(bytes, count, 0, i);
    let b = plane(bytes, count, 1, i);
    let c = plane(bytes, count, 2, i);
    let d = plane(bytes, count, 3, i);
    let ab_low = a.shuffle(b, LOW_1);
    let cd_low = c.shuffle(d, LOW_1);
    let ab_high = a.shuffle(b, HIGH_1);
    let cd_high = c.shuffle(d, HIGH_1);
    u32x4::from_le_bytes(ab_low.shuffle(cd_low, LOW_2)).copy_to_slice(&mut out[i..]);
    u32x4::from_le_bytes(ab_low.shuffle(cd_low, HIGH_2)).copy_to_slice(&mut out[i + 4..]);
    u32x4::from_le_bytes(ab_high.shuffle(cd_high, LOW_2)).copy_to_slice(&mut out[i + 8..]);
    u32x4::from_le_bytes(ab_high.shuffle(cd_high, HIGH_2)).copy_to_slice(&mut out[i + 12..]);
}

/// Reads the words of a page of four bytes each.
#[inline(always)]
pub fn take_fours(bytes: &[u8], out: &mut [u32])
    requires { length bytes.now ≡ 4 * length out.old }
    ensures { out.new ≡ split_values 4 (length out.new) bytes.now }
{
    let count = out.len();
    let mut i = 0;
    while count - i >= LANES {
        take_sixteen_32(bytes, i, out);
        i += LANES;
    }
    for k in i..count {
        out[k] = number_at(bytes, k, count, Width::FOUR) as u32;
    }
}

/// Reads sixteen words of eight bytes, where those before them are read.
#[inline(always)]
fn take_sixteen_64(bytes: &[u8], i: usize, out: &mut [u64])
    requires length { length bytes.now ≡ 8 * length out.old }
    requires within { i + 16 ≤ length out.old }
    requires before { (p : ℕ) → p < i
        → slice_index out.old p ≡ split_value 8 (length out.old) bytes.now p }
    ensures { (p : ℕ) → p < i + 16
        → slice_index out.new p ≡ split_value 8 (length out.old) bytes.now p }
{
    let count = out.len();
    let a = plane(bytes, count, 0, i);
    let b = plane(bytes, count, 1, i);
    let c = plane(bytes, count, 2, i);
    let d = plane(bytes, count, 3, i);
    let e = plane(bytes, count, 4, i);
    let f = plane(bytes, count, 5, i);
    let g = plane(bytes, count, 6, i);
    let h = plane(bytes, count, 7, i);
    let ab = a.shuffle(b, LOW_1);
    let cd = c.shuffle(d, LOW_1);
    let ef = e.shuffle(f, LOW_1);
    let gh = g.shuffle(h, LOW_1);
    let ad = ab.shuffle(cd, LOW_2);
    let eh = ef.shuffle(gh, LOW_2);
    u64x2::from_le_bytes(ad.shuffle(eh, LOW_4)).copy_to_slice(&mut out[i..]);
    u64x2::from_le_bytes(ad.shuffle(eh, HIGH_4)).copy_to_slice(&mut out[i + 2..]);
    let ad = ab.shuffle(cd, HIGH_2);
    let eh = ef.shuffle(gh, HIGH_2);
    u64x2::from_le_bytes(ad.shuffle(eh, LOW_4)).copy_to_slice(&mut out[i + 4..]);
    u64x2::from_le_bytes(ad.shuffle(eh, HIGH_4)).copy_to_slice(&mut out[i + 6..]);
    let ab = a.shuffle(b, HIGH_1);
    let cd = c.shuffle(d, HIGH_1);
    let ef = e.shuffle(f, HIGH_1);
    let gh = g.shuffle(h, HIGH_1);
    let ad = ab.shuffle(cd, LOW_2);
    let eh = ef.shuffle(gh, LOW_2);
    u64x2::from_le_bytes(ad.shuffle(eh, LOW_4)).copy_to_slice(&mut out[i + 8..]);
    u64x2::from_le_bytes(ad.shuffle(eh, HIGH_4)).copy_to_slice(&mut out[i + 10..]);
    let ad = ab.shuffle(cd, HIGH_2);
    let eh = ef.shuffle(gh, HIGH_2);
    u64x2::from_le_bytes(ad.shuffle(eh, LOW_4)).copy_to_slice(&mut out[i + 12..]);
    u64x2::from_le_bytes(ad.shuffle(eh, HIGH_4)).copy_to_slice(&mut out[i + 14..]);
}

/// Reads the words of a page of eight bytes each.
#[inline(always)]
pub fn take_eights(bytes: &[u8], out: &mut [u64])
    requires { length bytes.now ≡ 8 * length out.old }
    ensures { out.new ≡ split_values 8 (length out.new) bytes.now }
{
    let count = out.len();
    let mut i = 0;
    while count - i >= LANES {
        take_sixteen_64(bytes, i, out);
        i += LANES;
    }
    for k in i..count {
        out[k] = number_at(bytes, k, count, Width::EIGHT);
    }
}
