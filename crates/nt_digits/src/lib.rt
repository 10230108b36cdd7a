//! Decimal digits of a text, eight at a time.
//!
//! Start at [`up_to_eight`], for the digits from a place on that has eight bytes behind it. [`digits_behind`] goes on behind digits
//! that are known, byte by byte, up to 19 in all; [`digits_behind_eight`] does so behind the first eight, by eight again. Any 19 digits
//! fit in 64 bits. [`has_no_zeros`] tells digits that have no zero before others.
//!
//! Its words: digits *stand* from one place to another (`DigitsStand`, specs/Digits.antt) if all bytes between are digits, and no more
//! than 19; a *word* is a number of eight bytes, the first as the lowest.
//!
//! Proved: the bytes from the place to the end that is given are all digits, and the number is theirs. Nothing is promised of the byte at
//! that end: with eight digits, or 19, it may be another digit. Nothing is only tested.
//!
//! Choices that bind nobody else: eight bytes are looked at in one word. Where zeros are taken off each byte, the first byte that isn't
//! below ten is the first that is no digit; the number comes by three steps, of two digits, of four and of eight. [`up_to_eight`] is
//! inlined whole, so that a loop over many short numbers makes no calls.
#![tactic(auto)]

mod eight;
mod nineteen;
mod zeros;

pub use eight::up_to_eight;
pub use nineteen::{digits_behind, digits_behind_eight};
pub use zeros::has_no_zeros;
