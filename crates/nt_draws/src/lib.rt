//! Events that are made of drawn numbers, the same ones at each run.
//!
//! Start at [`EventSource`], the event text of one context, which makes its lines as it is read; [`Making`] is how much is made.
//!
//! Words: a *draw* makes a number of the last one (`specs/Draws.antt`); the *event behind* a number is made of its draws, a run, ids
//! and a tag (`specs/Events.antt`); the number of a context is that from which its draws go on.
//!
//! Proved: the source gives just the lines of its events and never fails (its `Source`); each line is one line, and is read as just its
//! event (`made_lines_are_read`). Only tested: that draws and events are those worked out outside.
#![tactic(auto)]

mod drawing;
mod laws;
mod lines;
mod making;
mod source;
#[cfg(test)]
mod tests;

pub use laws::made_lines_are_read;
pub use making::Making;
pub use source::EventSource;
