//! Rows for `nt_book`: clusters that are appended, settled and spoiled, what the book tells of them,
//! a column that is added behind one, and the limit of their number; and ranges that two contexts
//! reserve and publish.
//!
//! There is nothing here but tests, so that the crates below are proved once.
#![tactic(auto)]

#[cfg(test)]
mod tests;
