//! Rows for `nt_commit`: contexts that commit, settle and spoil clusters in each order, limits, each
//! call of the disk failing in turn, and as many threads as there are seats.
//!
//! There is nothing here but tests, so that the crates below are proved once. `contexts.rt` has what
//! a context does, with its contract, and `pairs.rt` what two of them do; the tests look at the file
//! and the book that are left.
#![tactic(auto)]

#[cfg(test)]
mod contexts;
#[cfg(test)]
mod pairs;
#[cfg(test)]
mod tests;
