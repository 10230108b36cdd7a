//! The checksum of bytes that lie in one piece.

ghost use Rattle.std.specs.Prelude.{◌≡◌, ◌≤◌, length};
ghost use Rattle.nt_xxh3.specs.Sum.{xxh3};

use crate::long::sum_above_240;
use crate::middle::{sum_of_17_to_128, sum_of_129_to_240};
use crate::short::{sum_of_1_to_3, sum_of_4_to_8, sum_of_9_to_16, sum_of_none};

/// The XXH3-64 of the bytes, with seed 0.
#[tactic(auto, unfolding(crate::specs::Sum::xxh3))]
pub fn sum(bytes: &[u8]) -> u64
    ensures { result ≡ xxh3 bytes.now }
{
    match bytes.len() {
        0 => sum_of_none(),
        1..=3 => sum_of_1_to_3(bytes),
        4..=8 => sum_of_4_to_8(bytes),
        9..=16 => sum_of_9_to_16(bytes),
        17..=128 => sum_of_17_to_128(bytes),
        129..=240 => sum_of_129_to_240(bytes),
        _ => sum_above_240(bytes),
    }
}
