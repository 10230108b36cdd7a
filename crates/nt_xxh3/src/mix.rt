//! The steps that several lengths share.

ghost use Rattle.std.specs.Prelude.{◌≡◌, ◌+◌, ◌≤◌, length};
ghost use Rattle.nt_lists.specs.Places.{half_word_at, word_at};
ghost use Rattle.nt_xxh3.specs.Steps.{fold, mix, avalanche, avalanche_64};

use crate::constants::{PRIME_MX1, PRIME64_2, PRIME64_3, SECRET};

/// The four bytes from a place, the lowest first.
pub fn half_word_at(bytes: &[u8], at: usize) -> u32
    requires { at + 4 ≤ length bytes.now }
    ensures { result ≡ half_word_at bytes.now at }
{
    u32::from_le_bytes([bytes[at], bytes[at + 1], bytes[at + 2], bytes[at + 3]])
}

/// The eight bytes from a place, the lowest first.
pub fn word_at(bytes: &[u8], at: usize) -> u64
    requires { at + 8 ≤ length bytes.now }
    ensures { result ≡ word_at bytes.now at }
{
    u64::from_le_bytes([
        bytes[at],
        bytes[at + 1],
        bytes[at + 2],
        bytes[at + 3],
        bytes[at + 4],
        bytes[at + 5],
        bytes[at + 6],
        bytes[at + 7],
    ])
}

/// The two halves of the product, combined.
#[tactic(auto, unfolding(crate::specs::Steps::fold))]
pub fn fold(a: u64, b: u64) -> u64
    ensures { result ≡ fold a b }
{
    let product = a as u128 * b as u128;
    (product % (1 << 64)) as u64 ^ (product >> 64) as u64
}

/// Sixteen bytes of the input with sixteen bytes of the secret.
#[tactic(auto, unfolding(crate::specs::Steps::mix))]
pub fn mix(bytes: &[u8], at: usize, secret: usize) -> u64
    requires input { at + 16 ≤ length bytes.now }
    requires secret { secret + 16 ≤ 192 }
    ensures { result ≡ mix bytes.now at secret }
{
    fold(
        word_at(bytes, at) ^ word_at(&SECRET, secret),
        word_at(bytes, at + 8) ^ word_at(&SECRET, secret + 8),
    )
}

/// The avalanche of XXH3.
#[tactic(auto, unfolding(crate::specs::Steps::avalanche))]
pub fn avalanche(hash: u64) -> u64
    ensures { result ≡ avalanche hash }
{
    let hash = (hash ^ (hash >> 37)).wrapping_mul(PRIME_MX1);
    hash ^ (hash >> 32)
}

/// The avalanche of XXH64.
#[tactic(auto, unfolding(crate::specs::Steps::avalanche_64))]
pub fn avalanche_64(hash: u64) -> u64
    ensures { result ≡ avalanche_64 hash }
{
    let hash = (hash ^ (hash >> 33)).wrapping_mul(PRIME64_2);
    let hash = (hash ^ (hash >> 29)).wrapping_mul(PRIME64_3);
    hash ^ (hash >> 32)
}
