//! Column types, the shapes of fields, and the schema text that names them.
//!
//! Other crates cite the definitions of `specs/`; touch `ColumnTable`, `ShapeData`, `Spelling` and
//! `Rules` only with the standard or the rules of schema texts at hand. `Reading`, `Lines` and
//! `Schema` are the reader step by step, and stand under private functions.
//!
//! Where to start: `specs/TextSpelling` (what a text spells, and its first fault) and
//! `schema.rt`; `specs/ColumnTable` and `column_type.rt`.
//!
//! Words: a *shape* is what the values of a field look like, with the twin `ShapeData` in
//! contracts; a *member* is a shape under a name (`MemberData`); a *leaf* has no parts; a *construct* is one that is open while it is
//! read; a *fault* is what is wrong with a text, and never want of memory; a shape *takes nothing* where nothing is a value of it:
//! an optional and a choice.
//!
//! Proved: code and bits of each type (`ColumnType::code`, `bits`), the type of a code (`of_code`:
//! `found`, `each`); the fields of a text or its first fault, and no other (`parse_schema`: `told`,
//! `only`, `each`), fields by their rules (`rules`); the same of one line (`parse_member`). The
//! reading of lines is that (`texts_are_read`).
//!
//! Only tested: that the table is the standard's, by values typed from it.
//!
//! Choices that bind nobody else:
//! - A nested type is read with a stack of what is begun, so that no text makes the reader recurse.
//! - The fields of a schema are counted up to 4097, where the count stands still: one more than the limit is all that is asked.
//! - Too deep is only a type that is well formed, so the rest of a type below the limit is read without keeping its parts, but for
//!   whether they take nothing.
#![tactic(auto)]

mod column_type;
mod construct;
mod count;
mod fault;
mod fit;
mod laws;
mod line;
mod member;
mod name;
mod names;
mod progress;
mod reading;
mod schema;
mod shape;
mod tree;
mod type_text;
mod word;

pub use column_type::ColumnType;
pub use count::{MAX_FIELDS, count_fields};
pub use fault::{SchemaError, SchemaFault, SchemaKind};
pub use fit::fits;
pub use laws::{texts_are_read, texts_have_fields};
pub use member::parse_member;
pub use name::Name;
pub use nt_lists::Bytes;
pub use schema::parse_schema;
pub use shape::{Fields, Member, Members, Shape, Shapes};
pub use tree::{Tree, Trees};
