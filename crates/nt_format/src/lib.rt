//! What the bytes of an RNTuple file mean: numbers, strings, frames, envelopes and locators, each
//! with its reading and its spelling, and the laws that join the two (RNTuple Binary Format
//! Specification 1.0.0.0). Definitions, plain structs and laws: nothing here runs.
//!
//! Start at `Reading` in specs: a *reading* answers a value and the place behind it, or the first
//! fault; a *spelling* is the bytes of a value. `Spells` joins both, `ReadsAs` says that a text is
//! read as a value whatever follows, `Yields` that whatever is read is such. The lemmas by which
//! readings are chained, for any fault, are `Chains`, `Placed` (numbers and strings) and `Frames`
//! in proofs, to be cited by the crates above.
//!
//! Proved: the contract of each function of `laws`, whose bodies are empty. That the definitions
//! are the standard's is tested by the crates above, on bytes from outside.
//!
//! Choices that bind nobody else: the errors have the messages that `thiserror` derives, and no clause and no line of the program
//! rests on them; an envelope that is too short is a wrong size, as no size fits it.
#![tactic(auto)]

mod fault;
mod laws;
mod locator;
mod parts;

pub use fault::{EnvelopeFault, LocatorFault};
pub use laws::{
    envelopes_are_spelled, frames_are_of_one_kind, links_are_spelled, lists_are_spelled,
    locators_are_spelled, numbers_are_spelled, records_are_spelled, strings_are_spelled,
};
pub use locator::{Link, Locator};
pub use parts::{insides_are_found, parts_are_found};
