//! XXH3-64 with seed 0: the checksum of pages, envelopes and anchors.
//!
//! The definition repeats the published description, a file of `specs/` for each class of lengths;
//! touch none of its numbers without it. `long.rt` is on the hot path of every page.
//!
//! Where to start: `specs/Sum` (the checksum by length) and `whole.rt`; `pieces.rt` for bytes that
//! come one piece after another.
//!
//! Words: a *word* has 64 bits; a *stripe* is 64 bytes; *lanes* are the eight accumulators; a
//! *block* is 16 stripes; the *window* keeps the last bytes of a sum in pieces.
//!
//! Proved: `sum` is the checksum of its bytes for every length; `Sum` gives that of all pieces
//! joined (`new`, `update`: `holds`, `total`; `finish`); the secret is that of the published words
//! (`secret_is_published`). No call takes memory.
//!
//! Only tested: that the definition is XXH3, by sums of the reference implementation.
//!
//! A choice that binds nobody else: the sum in pieces keeps the last 64 bytes in a window that begins with a stripe of zeros before
//! the input, so that one equation says at every moment what it keeps.
#![tactic(auto)]

mod constants;
mod long;
mod middle;
mod mix;
mod pieces;
mod short;
mod whole;
mod window;

pub use pieces::Sum;
pub use whole::sum;

#[cfg(test)]
mod tests;
