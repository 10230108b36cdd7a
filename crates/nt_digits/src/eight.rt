//! Up to eight digits at once, by eight bytes in one word.

ghost use Rattle.std.specs.Prelude.{◌≡◌, ◌≤◌, ◌+◌, ◌*◌, ◌%◌, ◌^◌, ℕ, length, take, drop};
ghost use Rattle.std.specs.List.{slice_range};
ghost use Rattle.std.specs.Str.Parse.{AllDigits, digits_value};
ghost use Rattle.nt_digits.specs.Digits.{low_first, AreDigits, number_behind};

use std::simd::prelude::*;

/// The digit zero in each byte.
const ZEROS: u64 = 0x3030_3030_3030_3030;

/// What brings a byte above nine to its highest bit.
const ABOVE_NINE: u64 = 0x7676_7676_7676_7676;

/// The lower byte of each two.
const LOWER: u64 = 0x00ff_00ff_00ff_00ff;

/// The lower two bytes of each four.
const LOWER_TWO: u64 = 0x0000_ffff_0000_ffff;

/// The highest bit of each byte.
const HIGHEST: u64 = 0x8080_8080_8080_8080;

/// The eight bytes from a place, the first as the lowest.
#[inline(always)]
fn word_at(text: &[u8], at: usize) -> u64
    requires { at + 8 ≤ length text.now }
    ensures { result ≡ low_first (take 8 (drop at text.now)) }
{
    u64::from_le_bytes(u8x8::from_slice(&text[at..]).to_array())
}

/// A bit for bytes that aren't below ten. The lowest one marks the first of them.
#[inline(always)]
fn marks(word: u64) -> u64
    ensures { (k : ℕ) → k ≤ 8 → result % 2 ^ (8 * k) ≡ 0 → AreDigits k word }
{
    (word | word.wrapping_add(ABOVE_NINE)) & HIGHEST
}

/// The number that eight digits spell.
#[inline(always)]
fn number_of(digits: u64) -> u64
    requires { AreDigits 8 digits }
    ensures { result ≡ number_behind 8 0 digits }
{
    let pairs = (digits * 10 + (digits >> 8)) & LOWER;
    let fours = (pairs * 100 + (pairs >> 16)) & LOWER_TWO;
    fours % (1 << 32) * 10_000 + (fours >> 32)
}

/// Digits from a place on, up to eight: their number, and how many they are.
#[inline(always)]
pub fn up_to_eight(text: &[u8], at: usize) -> (u64, usize)
    requires { at + 8 ≤ length text.now }
    ensures value { result.0 ≡ digits_value 10 (slice_range text.now at (at + result.1)) }
    ensures digits { AllDigits 10 (slice_range text.now at (at + result.1)) }
    ensures few { result.1 ≤ 8 }
{
    let bytes = word_at(text, at);
    let word = bytes.wrapping_sub(ZEROS);
    let few = marks(word).trailing_zeros() / 8;
    if few == 0 {
        return (0, 0);
    }
    (number_of(word << (64 - 8 * few)), few as usize)
}
