//! Runs of `write` with several inputs over memory whose contexts look at each other.
//!
//! There is nothing here but tests, so that the crates below are proved once. Begin with `tests.rt`, which runs a command over a
//! host in memory; `gates.rt` has the gates at which contexts wait for each other. No contract says that two contexts ran beside
//! each other, so only these tests see one that took them one after the other, or that held the turn while it filled a range. Other
//! runs of several inputs are cases of test_trials.
#![tactic(auto)]

#[cfg(test)]
mod gates;
#[cfg(test)]
mod tests;
