//! Schemas whose rows a description holds whole.

ghost use Rattle.std.specs.Prelude.{◌≡◌, ◌↔◌, ℕ, Bool, List, IsTrue};
ghost use Rattle.std.specs.List.{list_all};
ghost use Rattle.nt_types.specs.ShapeData.{MemberData};
ghost use Rattle.nt_grammar.specs.Table.{Table};
ghost use Rattle.nt_grammar.specs.Rows.{Rows};
ghost use Rattle.nt_grammar.specs.Added.{Added};
ghost use Rattle.nt_schema.specs.Whole.{is_whole_field, is_whole_column, AreWhole};

use crate::schema::Schema;
use crate::writing::DEFERRED;
use nt_grammar::{ColumnRow, FieldRow};

fn are_whole_fields(rows: &[FieldRow]) -> bool
    ensures { result ≡ list_all is_whole_field rows.now }
{
    rows.iter().all(|row| row.flags == 0)
}

fn are_whole_columns(rows: &[ColumnRow]) -> bool
    ensures { result ≡ list_all is_whole_column rows.now }
{
    rows.iter().all(|row| row.flags <= DEFERRED)
}

impl Schema {
    /// Whether a description holds all rows whole: fields have no flags, and columns none but that
    /// of a first element. So it is of rows that were described; those of a file may have others.
    pub fn is_whole(&self) -> bool
        ensures { IsTrue result ↔ AreWhole self.now }
    {
        are_whole_fields(&self.fields) && are_whole_columns(&self.columns)
    }
}

/// A description holds the rows of described fields whole, and those of a field that is added.
pub fn described_rows_are_whole()
    ensures described { (fields : List MemberData) (plain : Bool) (table : Table)
        → Rows fields plain table → AreWhole table }
    ensures added { (t : Table) (field : MemberData) (plain : Bool) (entries : ℕ) (new : Table)
        → Added t field plain entries new → AreWhole t → AreWhole new }
{}
