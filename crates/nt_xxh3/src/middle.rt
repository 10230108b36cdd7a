//! The checksum of 17 to 240 bytes.

ghost use Rattle.std.specs.Prelude.{◌≡◌, ◌≤◌, length};
ghost use Rattle.nt_xxh3.specs.Middle.{of_17_to_128, of_129_to_240};

use crate::constants::PRIME64_1;
use crate::mix::{avalanche, mix};

#[tactic(auto, unfolding(crate::specs::Middle::of_17_to_128))]
pub fn sum_of_17_to_128(bytes: &[u8]) -> u64
    requires least { 17 ≤ length bytes.now }
    requires most { length bytes.now ≤ 128 }
    ensures { result ≡ of_17_to_128 bytes.now }
{
    let pairs = (bytes.len() + 31) / 32;
    let mut total = (bytes.len() as u64).wrapping_mul(PRIME64_1);
    for i in 0..pairs {
        total = total.wrapping_add(mix(bytes, 16 * i, 32 * i));
        let back = bytes.len() - 16 * (i + 1);
        total = total.wrapping_add(mix(bytes, back, 32 * i + 16));
    }
    avalanche(total)
}

#[tactic(auto, unfolding(crate::specs::Middle::of_129_to_240))]
pub fn sum_of_129_to_240(bytes: &[u8]) -> u64
    requires least { 129 ≤ length bytes.now }
    requires most { length bytes.now ≤ 240 }
    ensures { result ≡ of_129_to_240 bytes.now }
{
    let mut first = (bytes.len() as u64).wrapping_mul(PRIME64_1);
    for i in 0..8 {
        first = first.wrapping_add(mix(bytes, 16 * i, 16 * i));
    }
    let mut total = avalanche(first);
    for i in 8..bytes.len() / 16 {
        total = total.wrapping_add(mix(bytes, 16 * i, 16 * (i - 8) + 3));
    }
    let last = mix(bytes, bytes.len() - 16, 119);
    avalanche(total.wrapping_add(last))
}
