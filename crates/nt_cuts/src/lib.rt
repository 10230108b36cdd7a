//! What a crash leaves of a log, wherever it cuts the steps off: definitions and laws alone, nothing
//! here runs.
//!
//! Start with `specs/Cuts.antt`: what a crash leaves at each step of a file whose first byte says that
//! it is finished. The calls that write files have clauses in these words: `begin` and `close` of
//! nt_close, `finish` of nt_commit's committer, and the calls of nt_seq's writer. `specs/Shut.antt` says
//! when a file is shut.
//!
//! Words: what a crash *leaves* is nt_outside's, over the log of a disk: a byte stays once it is
//! synced, until a later step covers it; it is *unfinished* where a reader's first fault is that the
//! writing was not finished; a file is *shut* while its first byte is 0 and no step was over it.
//! Nothing is said of a crash before the first sync.
//!
//! Proved, each as the contract of a function, of a crash behind the first sync:
//! - a file that is shut is left unfinished, and stays shut by each step that spares its first byte
//!   (`shut_logs_leave_unfinished`), and so by all that contexts do behind its end
//!   (`histories_leave_logs_shut`);
//! - where only the order of the steps is known, a file is left unfinished, or its first byte was
//!   written over before; and right behind that write all else is left as it was
//!   (`ordered_steps_leave_unfinished`).
//!
//! Nothing is only tested. What a real disk leaves is not said: it is a premise that it keeps to
//! nt_outside's definition.
#![tactic(auto)]

mod laws;

pub use laws::{
    histories_leave_logs_shut, ordered_steps_leave_unfinished, shut_logs_leave_unfinished,
};
