//! A lock round a value with a history, which threads take in turn, and of which each knows what it did.
//!
//! Begin at `Turn` and `Pass`; the value is `Logged`. `Turn::new` makes a turn and its first pass, `split`
//! a pass for each thread. A pass takes the value out and gives it back with new entries of its own number
//! behind its history. In the end the first pass is joined with the others, and closes the turn.
//!
//! What a pass has *seen* is the beginning of the history that it knows, its *own* entries are those of its
//! number, and the first pass *keeps* the entries of each pass that was joined.
//!
//! Proved: `take` hands out a value whose history begins with all that the pass had seen, and which has just
//! the pass's own entries of its number (`Took`). `give` lets the pass see it whole (`after_giving`). `join`
//! keeps the other's entries, and the first pass has then seen what either had (`after_joining`, `seen`).
//! `close` gives the one history of all: of each number it has just the entries of that pass, and of no
//! other number any (`Closes`). The birth of the value never changes. A turn and its passes may cross threads.
//! Only `take` may wait, and no call but `new` takes memory.
//!
//! Neither proved nor promised: that a pass ever gets the turn, or which comes first. Tested: that threads
//! take turns, as many as there are seats.
#![tactic(auto)]

mod logged;
mod pass;
mod rule;
mod shared;
mod turn;
mod view;
mod wait;

pub use logged::Logged;
pub use pass::Pass;
pub use shared::turns_cross_threads;
pub use turn::{MOST_SEATS, Turn};

#[cfg(test)]
mod tests;
