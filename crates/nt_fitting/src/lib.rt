//! What is read of sound columns fits the shapes of their fields: a law, and nothing that runs.
//!
//! Start at `src/laws.rt`. `specs/Fitting` says which columns give trees that fit: their numbers are
//! of their width, and their tags count alternatives.
//!
//! Words: those of nt_trees.
//!
//! Proved: where the elements of columns are of the types of their rows, and the columns are sound,
//! each entry that they give fits its plans (`entries_fit_their_plans`).
#![tactic(auto)]

mod laws;

pub use laws::entries_fit_their_plans;
