//! Which fields of a schema are open, and what is kept of them, so that whoever reads or writes
//! values walks over no rows (RNTuple Binary Format Specification 1.0.0.0, sections Field
//! Description, Column Description and Mapping of C++ Types to Fields and Columns).
//!
//! `judge` makes it all of the rows: their lists by field (`grouped`), the shapes of open fields
//! (`shapes`, `fields`, `columns`), their plans (`placing`), and of each column the field at the top
//! level and whether it is principal (`uses`). Start at `opened.rt`. For who describes a shape,
//! `int_type` says which column integers have, `role_of` and `type_name` what the row of a field
//! says of it. Contracts speak of the definitions of `nt_grammar` and `nt_plans`, whose words hold
//! here too.
//!
//! Proved, of `judge`: each of these is that of the definitions (`IsOpened`); of the others that they
//! answer as the definitions of their names do. `proofs/UseLaws` leads from what is kept of a column
//! to its plans. Nothing is only tested.
//!
//! Choices that bind nobody else:
//! - Judging visits each field once, with the list of those inside it and of its columns, at most 64 levels deep: a hostile
//!   description costs no more than its size.
//! - A plan is made of a shape that is there, so it has no case for rows that don't fit; an id that isn't there would be 0.
//! - What is noted of a column first stays. No column stands twice in the plans of a schema, so nothing is lost by it.
#![tactic(auto)]

mod columns;
mod fields;
mod grouped;
mod integers;
mod opened;
mod placing;
mod shapes;
mod type_names;
mod uses;

pub use integers::int_type;
pub use opened::{OpenFields, judge};
pub use type_names::{role_of, type_name};
pub use uses::ColumnUse;
