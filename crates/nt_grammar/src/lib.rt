//! What the bytes of a schema description mean, in definitions, laws and plain structs: nothing
//! here runs.
//!
//! A table of rows (`Table`) describes fields (`Rows`: breadth first, the columns by field), and can
//! get one more field behind entries that were written without it (`Added`). A description spells
//! the rows of one part of a table, the header or its extension (`Writing`), and is read back behind
//! any rows before it (`Reading`, `ReadingBack`). `Open` says which fields can be read, and as which
//! shape; a tuple is read as a record (`AsRead`). `Codes` has the numbers of roles and flags. Start
//! at `Table`, then `Rows` and `Reading`.
//!
//! Words: a *row* is what a description says of a field or a column; a *part* is the header or the
//! extension; a field is *open* where its values can be read; *listed* are the fields of a schema
//! in the order of their ids; *marked* are listed fields of which it is said whether they are
//! principal; a fault is nt_num's `ReadError`.
//!
//! Proved, each as the contract of a function with an empty body: fields have one table at most
//! (`descriptions_are_one`), and so has a table with one more field (`additions_are_one`); described
//! fields are open with the shape that they had (`described_fields_are_open`), and so is one that is
//! added, while those before it keep their shapes (`late_fields_are_open`); what is written of rows
//! is read as these rows, whatever follows (`descriptions_are_read_back`); rows that are read are in
//! range (`rows_read_are_described`), and so are those of fields that keep their rules
//! (`schemas_are_described`, `late_fields_are_described`). Nothing is only tested; that the
//! definitions are the standard's rests on reading them.
#![tactic(auto)]

mod late_laws;
mod laws;
mod part;
mod reading_laws;
mod rows;

pub use late_laws::{late_fields_are_described, late_fields_are_open};
pub use laws::{additions_are_one, described_fields_are_open, descriptions_are_one};
pub use part::Part;
pub use reading_laws::{
    descriptions_are_read_back, rows_read_are_described, schemas_are_described,
};
pub use rows::{ColumnRow, FieldRow};
