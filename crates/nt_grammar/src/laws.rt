//! The laws of descriptions.

ghost use Rattle.std.specs.Prelude.{◌≡◌, ℕ, Bool, List, Some, slice_get};
ghost use Rattle.nt_types.specs.ShapeData.{MemberData};
ghost use Rattle.nt_grammar.specs.Table.{Table};
ghost use Rattle.nt_types.specs.Rules.{AreFields};
ghost use Rattle.nt_grammar.specs.Rows.{Rows};
ghost use Rattle.nt_grammar.specs.Added.{Added};
ghost use Rattle.nt_grammar.specs.Open.{open_shape};
ghost use Rattle.nt_grammar.specs.AsRead.{as_read};

/// Fields are described by one table of rows at most.
pub fn descriptions_are_one()
    ensures { (fields : List MemberData) (plain : Bool) (one other : Table) → Rows fields plain one
        → Rows fields plain other → one ≡ other }
{}

/// A field is added to a table in one way at most.
pub fn additions_are_one()
    ensures { (t : Table) (field : MemberData) (plain : Bool) (entries : ℕ) (one other : Table)
        → Added t field plain entries one → Added t field plain entries other → one ≡ other }
{}

/// Described fields are open, and have the shapes that they were described from, with tuples read
/// as records.
pub fn described_fields_are_open()
    ensures { (fields : List MemberData) (plain : Bool) (table : Table) → AreFields fields
        → Rows fields plain table → (id : ℕ) (field : MemberData) → slice_get fields id ≡ Some field
        → open_shape table id ≡ Some (as_read field.of) }
{}
