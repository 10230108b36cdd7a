//! Which steps of a disk make a history of contexts (nt_machine's histories), and what the log of the disk (nt_outside's) then says.
//! Definitions and laws alone; no code runs.
//!
//! Start at `specs/Steps.antt`: which steps a history is (`steps_of_history`), and how a history has the bytes that a disk tells
//! in its log (`told_history`). `specs/Logs.antt` says which log a writer leaves that appends page lists between the steps of its
//! history (`IsLogOf`): it is told by itself, without a second list of what was done.
//!
//! Proved of the steps of a legal history: none covers a place before its beginning, and none a range that was handed back
//! before (`steps_stand`); each settled range has its step (`settled_ranges_are_logged`); faults of any context show as a count
//! that rose (`faults_are_counted`). Proved of such a log: it grows by each thing that a writer does under its turn
//! (`logs_grow`, `staged_logs_grow` for staged clusters, `logs_gain_lists`); no later step covers the front, an appended list or a
//! settled range, and each is read as it was written (`fronts_stand`, `what_is_appended_stands`, `what_is_settled_is_read`,
//! `all_that_is_written_is_read`); and where all that was written leaves no gap, each byte of the file is known
//! (`written_parts_are_known`).
#![tactic(auto)]

mod laws;

pub use laws::{
    all_that_is_written_is_read, faults_are_counted, fronts_stand, logs_gain_lists, logs_grow,
    settled_ranges_are_known, settled_ranges_are_logged, staged_logs_grow, steps_stand,
    what_is_appended_stands, what_is_settled_is_read, written_parts_are_known,
};
