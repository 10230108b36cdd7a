//! Worked rows of trees and columns: what is wrong with columns first, columns of a foreign order,
//! and trees that are read back.
//!
//! There is nothing here but tests, so that the crates below are proved once. Begin with `tests.rt`.
//! Nothing is proved here of what a call answers: that is said by the contracts of those crates.
//! Tested is that the definitions which the contracts cite mean what the standard means.
#![tactic(auto)]

#[cfg(test)]
mod tests;
