//! Shapes that were read, as a schema text has them: with which shape a field of a foreign file is
//! written, and whether a schema text can have it.
//!
//! Start with `as_written` and `specs/Written`: a record whose members are named by their places is
//! read back of a tuple, so it is written as one. `is_field` tests the rules of schema texts
//! (`specs/Fields`).
//!
//! Words: those of nt_types.
//!
//! Proved: `as_written` gives the shape of the definition, which takes just the trees of the other
//! (`written_shapes_take_the_same`); `is_field` is true exactly of what keeps the rules of a field
//! (`fields_are_tested`).
#![tactic(auto)]

mod field;
mod laws;
mod names;
mod shape;

pub use field::is_field;
pub use laws::{fields_are_tested, written_shapes_take_the_same};
pub use shape::as_written;
