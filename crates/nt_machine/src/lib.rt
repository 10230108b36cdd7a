//! Many contexts write the clusters of one file: the machine of their steps, in whatever order
//! they come, and the history of a writer, which is what a running writer leaves of such a run.
//! Definitions and laws alone; no code runs.
//!
//! Start at `specs/Machine.antt`, which says which steps there are and when each is allowed, and
//! at `specs/History.antt`, which says what the entries of a history leave. A *chunk* is the
//! entries that a context writes as one cluster; *dealt* chunks stand in the order of the commits;
//! a *range* is the place of a cluster in the file. *Staged* ranges become clusters when their context
//! publishes them, all at once, once all are filled; others become clusters as they are reserved.
//!
//! Proved of every run, by `runs_are_sound`: ranges lie apart, and a settled one holds its chunk's
//! bytes; by `closed_runs_use_all`: a run that closed has used all chunks, in an order. Proved of
//! every history, by `chunks_are_dealt`: where each context's own entries are those of its chunks,
//! the clusters are these chunks, dealt out in the order of the commits. By `entries_are_steps` each
//! entry that a history may gain stands for steps that the machine may take.
#![tactic(auto)]

mod entry;
mod laws;

pub use entry::{Entry, EntryKind};
pub use laws::{
    Blobs, bytes_are_told_in_turn, bytes_change_no_range, bytes_change_no_staging,
    chunks_are_dealt, closed_runs_use_all, clusters_are_ranges, contexts_write_on,
    entries_are_steps, faults_show, histories_grow, legal_ranges_are_apart, ranges_are_handed_back,
    runs_are_sound, runs_keep_order, staged_clusters_stay, staged_examples_hold,
    what_is_settled_stands, worked_examples_hold,
};
