//! Which limit a file passes whose clusters are those of other files, in order, as they are stored:
//! definitions and laws alone, over what is kept of each cluster. Nothing here runs.
//!
//! Start at `specs/Limits.antt`: the blobs of such a file, the limits that it passes (`MergeOver`), and
//! when it passes none (`MergeFits`). The lengths are those of nt_dealing.
//!
//! Words: a *front* of a file is what was written of its first clusters, with the page lists of the
//! full groups among them; a book lies *beside* where its page lists stand beside its clusters.
//!
//! Proved, each as the contract of a function with an empty body: a limit that is passed where the file
//! is begun, where a cluster is appended behind a front, with the page list that is due, or where it is
//! closed, is one that the whole file passes, with the number that was reached (`merges_pass_what_their_fronts_pass`); a
//! file that fits passes none (`merges_that_fit_pass_none`), and one that was closed within the limits fits
//! (`merges_within_limits_fit`).
#![tactic(auto)]

mod laws;

pub use laws::{
    merges_pass_what_their_fronts_pass, merges_that_fit_pass_none, merges_within_limits_fit,
};
