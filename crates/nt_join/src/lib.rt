//! Columns of a cluster to the trees of its entries.
//!
//! Start at `check_values`, which tells what is wrong with columns first, and then `entry`, which
//! gives the trees of an entry of columns in which nothing is. Both work over any `Columns` by the
//! plans of a schema's open fields (`check_by`, `entry_by`); nothing here reads rows.
//!
//! Words: those of nt_trees; a *sweep* goes over the elements of a column once.
//!
//! Proved: `check_by` gives exactly the first fault by column and element, as `fault_in_any` of
//! nt_trees defines it (`fault`); without one the columns are sound (`sound`), and each entry can be
//! read (`readable`); the trees of an entry are those of the definition `each_at` (`entry_by`); those at
//! some of its places, and the number at one, are the same trees (`chosen_by`, `number_by`).
//!
//! Not proved: how many sweeps there are, and that nothing but trees takes memory.
//!
//! Choices that bind nobody else:
//! - Faults are found in the order of the plans, and of two the one in the lower column is kept. No
//!   list of columns in the order of their ids is needed.
//! - A sweep over a Switch counts 128 tags, in an array on the stack: an alternative's count is what
//!   its columns must have.
//! - Both go as deep as the plans do, which is at most 64 levels.
#![tactic(auto)]

mod check;
mod chosen;
mod counting;
mod ends;
mod fault;
mod join;
pub mod number;
mod open;
pub mod reading;
mod steps;

pub use check::check_by;
pub use chosen::{chosen_by, number_by};
pub use fault::ValueFault;
pub use join::entry_by;
pub use open::{check_values, entry};
