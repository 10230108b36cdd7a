//! Plans: the shapes of open fields with the ids of the columns that their values stand in, as
//! definitions, laws and one plain type; nothing here runs.
//!
//! A plan is made of the rows of a schema (`Place`: of one field, and of all open fields at the top
//! level). `Needs` says how many elements each of its columns has in a cluster, and `Types` of which
//! types they are. Start at `Plan`, then `Place`.
//!
//! Words: a *plan* is a shape with its columns; *ends* is an index column, *tags* a Switch; what a
//! column *needs* is the count of its elements in a cluster, as entries, by an end or by a tag; a
//! *principal* column needs one element an entry.
//!
//! Proved, each as the contract of a function with an empty body, of every table of rows: no column
//! stands twice in its plans (`columns_differ`); their columns are among the rows, with the types of
//! the values (`columns_have_types`); a column has a need and a field at the top level exactly where
//! it is in a plan (`columns_have_needs`). Of a table with one field more: its plans are those before
//! it and that of the field (`late_fields_are_planned`), and columns need what they did
//! (`late_fields_have_needs`). Nothing is only tested; that the definitions are the
//! standard's rests on reading them.
//!
//! Choices that bind nobody else:
//! - The laws need no condition on the rows. A field that is open is found from the top level, so its steps up to there are as
//!   many on every way, and no two fields of one level have a column in common.
#![tactic(auto)]

mod late_laws;
mod laws;
mod plan;

pub use late_laws::{late_fields_are_planned, late_fields_have_needs};
pub use laws::{columns_differ, columns_have_needs, columns_have_types};
pub use plan::{Plan, Plans};
