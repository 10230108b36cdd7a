//! Schemas: the rows that describe the fields of events, made of a parsed schema text, written as
//! the descriptions of a header and its extension, and read back from them (RNTuple Binary Format
//! Specification 1.0.0.0, section Schema Description).
//!
//! `describe` makes a `Schema` of fields, and `Schema::extend` adds a field behind entries that were
//! written without it (folder `describing`); `write_description` and `read_description` carry one
//! part of a schema to bytes and back (`writing`, `reading`), where a description holds its rows
//! whole (`whole`); `Schema::bare` takes the flags of fields away (`bare`);
//! `Schema::shape` says as what values of a field can be read, `Schema::plans` where they stand,
//! `Schema::find` finds a field by name (`by_name`). What is asked for each entry, as plans, the
//! field of a column or the fields inside one, is kept: no call walks over rows or takes memory.
//! Start at `schema.rt`. Contracts speak of the definitions of `nt_grammar` and `nt_plans`, whose
//! words hold here too; a *schema* is a table of rows together with what it keeps of them.
//!
//! Proved: `describe` gives the one table of its fields, and `extend` the one with a field more, or
//! says exactly what stands against that; `bare` gives the same rows without the flags of fields,
//! all in the header; `write_description` appends exactly the spelling of the part, and is called of rows alone whose flags ask for no word that it leaves out (`AreWhole`), as
//! those of described and added fields are; `read_description` answers exactly the reading of the bytes, its first
//! fault included, reads back what was written whatever follows, and adds only rows in range;
//! `find` and `shape` are the first field of a name and the shape of an open field; `plans` are those
//! of all open fields; `is_open_column`, `is_principal`, `top_field`, `children` and `columns_of` are
//! what rows and plans say of a column or a field. Only tested: vectors of bytes from outside, and
//! that each allocation may fail.
//!
//! Choices that bind nobody else:
//! - A schema is judged when it is put together, always from all its rows (`Schema::of_rows`), so that what it keeps belongs
//!   to its rows at every moment; a reader that fails leaves a schema of no rows.
//! - Names are found in a hash map (`indexmap`), of equal names the first is kept. The key of its hasher is a digest of all
//!   names (`sha2`), so that nobody can choose names that collide: they would have to collide under a key that depends on them.
//!   A schema of no rows has no map, since a hasher's key comes from a source that may fail.
//! - Nothing is reserved for a list that says how many items it has: a count that the bytes don't keep costs nothing.
//! - A description of more than 2^32 - 1 rows is want of memory: ids have 32 bits, and so many rows don't fit a machine that reads
//!   them.
//! - Laws stand in the code that rests on them, as calls of empty functions at the head of `read_description`: its clauses speak
//!   of spellings, whose laws are contracts of other functions.
#![tactic(auto)]

mod bare;
mod by_name;
mod describing;
mod description_error;
mod extend_error;
mod reading;
mod schema;
mod whole;
mod writing;

pub use describing::describe;
pub use description_error::DescriptionError;
pub use extend_error::ExtendError;
pub use nt_grammar::{
    ColumnRow, FieldRow, Part, described_fields_are_open, descriptions_are_one,
    descriptions_are_read_back, rows_read_are_described, schemas_are_described,
};
pub use reading::read_description;
pub use schema::{Schema, schemas_can_be_shared};
pub use whole::described_rows_are_whole;
pub use writing::write_description;
