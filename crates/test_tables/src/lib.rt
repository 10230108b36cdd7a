//! Worked tables of the libraries: published codes, schema texts, pages of each column type, images of clusters, frames,
//! envelopes and descriptions, against bytes that were made outside.
//!
//! There is nothing here but tests, so that the crates below are proved once. Begin with `tests.rt`, which has a module for each
//! crate that is tested; what two of them share stands in `tests/values.rt` (columns filled with values) and `tests/rows.rt`
//! (schemas of given rows). Nothing is proved here of what a call answers: that is said by the contracts of those crates. Tested
//! is that the definitions which the contracts cite mean what the standard and other programs mean.
#![tactic(auto)]

#[cfg(test)]
mod tests;
