//! The laws of fields that are added behind entries.

ghost use Rattle.std.specs.Prelude.{◌≡◌, ◌<◌, ◌^◌, ℕ, Bool, Some, length};
ghost use Rattle.nt_types.specs.ShapeData.{MemberData};
ghost use Rattle.nt_types.specs.Rules.{IsField};
ghost use Rattle.nt_grammar.specs.Table.{Table, IsFew};
ghost use Rattle.nt_grammar.specs.Added.{Added};
ghost use Rattle.nt_grammar.specs.AsRead.{as_read};
ghost use Rattle.nt_grammar.specs.Open.{open_shape};
ghost use Rattle.nt_grammar.specs.ReadingBack.{IsDescribed};

/// Rows in range stay so where a field that keeps its rules is added.
pub fn late_fields_are_described()
    ensures { (t : Table) (field : MemberData) (plain : Bool) (entries : ℕ) (new : Table)
        → IsDescribed t → IsField field → IsFew new → entries < 2 ^ 64
        → Added t field plain entries new → IsDescribed new }
{}

/// A field that is added is open, and has the shape that it was described from, with tuples read as
/// records; the fields before it keep theirs. From 2^63 on the index of a first element stands for a
/// suppressed column, which isn't open.
pub fn late_fields_are_open()
    ensures new { (t : Table) (field : MemberData) (plain : Bool) (entries : ℕ) (new : Table)
        → IsDescribed t → IsField field → IsFew new → entries < 2 ^ 63
        → Added t field plain entries new
        → open_shape new (length t.fields) ≡ Some (as_read field.of) }
    ensures old { (t : Table) (field : MemberData) (plain : Bool) (entries : ℕ) (new : Table)
        → Added t field plain entries new → (id : ℕ) → id < length t.fields
        → open_shape new id ≡ open_shape t id }
{}
