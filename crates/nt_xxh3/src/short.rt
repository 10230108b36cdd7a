//! The checksum of at most 16 bytes.

ghost use Rattle.std.specs.Prelude.{◌≡◌, ◌≤◌, length};
ghost use Rattle.nt_xxh3.specs.Short.{of_none, of_1_to_3, of_4_to_8, of_9_to_16};

use crate::constants::{PRIME_MX2, SECRET};
use crate::mix::{avalanche, avalanche_64, fold, half_word_at, word_at};

#[tactic(auto, unfolding(crate::specs::Short::of_none))]
pub fn sum_of_none() -> u64
    ensures { result ≡ of_none }
{
    avalanche_64(word_at(&SECRET, 56) ^ word_at(&SECRET, 64))
}

#[tactic(auto, unfolding(crate::specs::Short::of_1_to_3))]
pub fn sum_of_1_to_3(bytes: &[u8]) -> u64
    requires least { 1 ≤ length bytes.now }
    requires most { length bytes.now ≤ 3 }
    ensures { result ≡ of_1_to_3 bytes.now }
{
    let len = bytes.len();
    let first = u32::from(bytes[0]);
    let middle = u32::from(bytes[len / 2]);
    let last = u32::from(bytes[len - 1]);
    let joined = (first << 16) | (middle << 24) | last | ((len as u32) << 8);
    avalanche_64((joined ^ (half_word_at(&SECRET, 0) ^ half_word_at(&SECRET, 4))) as u64)
}

#[tactic(auto, unfolding(crate::specs::Short::of_4_to_8))]
pub fn sum_of_4_to_8(bytes: &[u8]) -> u64
    requires least { 4 ≤ length bytes.now }
    requires most { length bytes.now ≤ 8 }
    ensures { result ≡ of_4_to_8 bytes.now }
{
    let len = bytes.len();
    let first = u64::from(half_word_at(bytes, 0));
    let last = u64::from(half_word_at(bytes, len - 4));
    let joined = (last + (first << 32)) ^ (word_at(&SECRET, 8) ^ word_at(&SECRET, 16));
    let turned = joined ^ joined.rotate_left(49) ^ joined.rotate_left(24);
    let turned = turned.wrapping_mul(PRIME_MX2);
    let spread = turned ^ ((turned >> 35) + len as u64);
    let spread = spread.wrapping_mul(PRIME_MX2);
    spread ^ (spread >> 28)
}

#[tactic(auto, unfolding(crate::specs::Short::of_9_to_16))]
pub fn sum_of_9_to_16(bytes: &[u8]) -> u64
    requires least { 9 ≤ length bytes.now }
    requires most { length bytes.now ≤ 16 }
    ensures { result ≡ of_9_to_16 bytes.now }
{
    let len = bytes.len();
    let low = word_at(bytes, 0) ^ (word_at(&SECRET, 24) ^ word_at(&SECRET, 32));
    let high = word_at(bytes, len - 8) ^ (word_at(&SECRET, 40) ^ word_at(&SECRET, 48));
    avalanche(
        (len as u64)
            .wrapping_add(low.swap_bytes())
            .wrapping_add(high)
            .wrapping_add(fold(low, high)),
    )
}
