//! The eight accumulators of an input above 240 bytes.

ghost use Rattle.std.specs.Prelude.{◌≡◌, ◌+◌, ◌*◌, ◌/◌, ◌<◌, ◌≤◌, ◌^◌, length};
ghost use Rattle.nt_lists.specs.Places.{word_at};
ghost use Rattle.nt_xxh3.specs.Long.{initial_lanes, eight, after_stripe, scrambled, after, merged, above_240, TakesStripes};

use crate::constants::{
    PRIME32_1, PRIME32_2, PRIME32_3, PRIME64_1, PRIME64_2, PRIME64_3, PRIME64_4, PRIME64_5, SECRET,
};
use crate::mix::{avalanche, fold, word_at};
use std::simd::prelude::*;

/// The bytes of a stripe.
pub const STRIPE: usize = 64;

/// Eight words from a place.
#[inline(always)]
fn words_at(bytes: &[u8], at: usize) -> u64x8
    requires { at + 64 ≤ length bytes.now }
    ensures { result ≡ eight (λ i. word_at bytes.now (at + 8 * i)) }
{
    u64x8::from_array([
        word_at(bytes, at),
        word_at(bytes, at + 8),
        word_at(bytes, at + 16),
        word_at(bytes, at + 24),
        word_at(bytes, at + 32),
        word_at(bytes, at + 40),
        word_at(bytes, at + 48),
        word_at(bytes, at + 56),
    ])
}

/// The accumulators after a stripe.
#[inline(always)]
fn after_stripe(words: u64x8, stripe: &[u8], secret: usize) -> u64x8
    requires stripe { length stripe.now ≡ 64 }
    requires secret { secret + 64 ≤ 192 }
    ensures { result ≡ after_stripe words stripe.now secret }
{
    let input = words_at(stripe, 0);
    let keys = input ^ words_at(&SECRET, secret);
    let products = (keys & u64x8::splat(0xffff_ffff)) * (keys >> u64x8::splat(32));
    words + products + input.swizzle([1, 0, 3, 2, 5, 4, 7, 6])
}

/// The accumulators, scrambled.
#[inline(always)]
fn scrambled(words: u64x8) -> u64x8
    ensures { result ≡ scrambled words }
{
    let shifted = words ^ (words >> u64x8::splat(47));
    (shifted ^ words_at(&SECRET, 128)) * u64x8::splat(PRIME32_1)
}

/// The accumulators after stripe k of the input.
#[inline(always)]
#[tactic(auto, unfolding(crate::specs::Long::after))]
fn after(words: u64x8, k: usize, stripe: &[u8]) -> u64x8
    requires { length stripe.now ≡ 64 }
    ensures { result ≡ after words k stripe.now }
{
    let taken = after_stripe(words, stripe, 8 * (k % 16));
    if k % 16 == 15 {
        scrambled(taken)
    } else {
        taken
    }
}

/// The accumulators, and how many stripes of the input they took.
#[derive(Clone, Copy)]
pub struct Lanes {
    pub words: [u64; 8],
    pub taken: usize,
}

impl Lanes {
    /// The accumulators before the first stripe.
    pub fn new() -> Lanes
        ensures words { result.words ≡ initial_lanes }
        ensures taken { result.taken ≡ 0 }
    {
        Lanes {
            words: [
                PRIME32_3, PRIME64_1, PRIME64_2, PRIME64_3, PRIME64_4, PRIME32_2, PRIME64_5,
                PRIME32_1,
            ],
            taken: 0,
        }
    }

    /// Takes the whole stripes of the bytes that follow on what was taken.
    pub fn take_stripes(&mut self, bytes: &[u8])
        requires { self.old.taken + length bytes.now < 2 ^ 64 }
        ensures taken { self.new.taken ≡ self.old.taken + length bytes.now / 64 }
        ensures words { TakesStripes self.old.words self.old.taken bytes.now self.new.words self.new.taken }
    {
        let before = self.taken;
        let count = bytes.len() / STRIPE;
        let mut words = u64x8::from_array(self.words);
        for k in 0..count {
            let at = STRIPE * k;
            words = after(words, before + k, &bytes[at..at + STRIPE]);
        }
        self.words = words.to_array();
        self.taken = before + count;
    }

    /// The checksum of an input of so many bytes, from its last 64 bytes.
    #[tactic(auto, unfolding(crate::specs::Long::merged))]
    pub fn finish(self, last: &[u8], len: u64) -> u64
        requires { length last.now ≡ 64 }
        ensures { result ≡ merged len (after_stripe self.words last.now 121) }
    {
        let words = after_stripe(u64x8::from_array(self.words), last, 121).to_array();
        let mut total = len.wrapping_mul(PRIME64_1);
        for i in 0..4 {
            total = total.wrapping_add(fold(
                words[2 * i] ^ word_at(&SECRET, 11 + 16 * i),
                words[2 * i + 1] ^ word_at(&SECRET, 19 + 16 * i),
            ));
        }
        avalanche(total)
    }
}

/// The checksum of more than 240 bytes.
pub fn sum_above_240(bytes: &[u8]) -> u64
    requires { 240 < length bytes.now }
    ensures { result ≡ above_240 bytes.now }
{
    let len = bytes.len();
    let mut lanes = Lanes::new();
    lanes.take_stripes(&bytes[..len - 1]);
    lanes.finish(&bytes[len - STRIPE..], len as u64)
}
