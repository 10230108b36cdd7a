//! What a crash leaves of a file that contexts write, wherever it cuts the steps off: laws alone,
//! nothing here runs.
//!
//! Start with `src/laws.rt`; its words are those of nt_cuts (what is left of a log) and
//! `specs/Fillings.antt` (how far a file is written).
//!
//! Words: a file is *filling* while the ranges of a history of contexts stand behind its header, with
//! page lists between them or without, and *filled* once each range is settled with its bytes. Page
//! lists stand beside their clusters, or behind all ranges where clusters are staged: the laws hold of
//! both. Nothing is said of a crash before the first sync.
//!
//! Proved, each as the contract of a function, of a crash behind the first sync:
//! - while a file is begun, and while contexts fill it, it is left unfinished, whatever the contexts
//!   did and whichever step failed (`filling_leaves_unfinished`);
//! - while it is closed, whichever step failed, it is left unfinished, or its first byte was written
//!   over before, and then it may be the finished file; once it is closed it is left so; and what
//!   `close` of nt_close says of crashes holds of each file that is filled
//!   (`closing_leaves_unfinished_or_finished`);
//! - so what is left is unfinished, or means its schema and the entries of all its clusters
//!   (`crashes_leave_all_entries_or_none`).
//!
//! And where nothing crashes: what `close` promises after Ok makes a file that held the blobs of
//! entries the one that is laid out for them, which means them (`closed_files_mean_their_entries`).
//!
//! Nothing is only tested. What a real disk leaves is not said: it is a premise that it keeps to
//! nt_outside's definition.
//!
//! Choices that bind nobody else: the laws speak of the steps of nt_close and of a history, and not
//! of the calls that take them, so that whoever knows what a disk's log is can cite them.
#![tactic(auto)]

mod closed;
mod laws;

pub use closed::closed_files_mean_their_entries;
pub use laws::{
    closing_leaves_unfinished_or_finished, crashes_leave_all_entries_or_none,
    filling_leaves_unfinished,
};
