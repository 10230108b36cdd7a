//! The laws of schema texts: the reading of lines, and what a text spells.

ghost use Rattle.std.specs.Prelude.{◌≡◌, ◌↔◌, ℕ, List, Ok, Err};
ghost use Rattle.nt_types.specs.ShapeData.{MemberData};
ghost use Rattle.nt_types.specs.Schema.{schema_text, at_line};
ghost use Rattle.nt_types.specs.Rules.{AreFields};
ghost use Rattle.nt_types.specs.TextSpelling.{IsSchema, IsRefused};
ghost use Rattle.nt_types.specs.declared.fault.SchemaKind.{SchemaKind};

/// The fields of a schema text keep the rules of fields.
pub fn texts_have_fields()
    ensures { (text : List ℕ) (fields : List MemberData) → schema_text text ≡ Ok fields
        → AreFields fields }
{}

/// The fields that a text spells are read, and no others; so is its first fault.
pub fn texts_are_read()
    ensures fields { (text : List ℕ) (fields : List MemberData)
        → schema_text text ≡ Ok fields ↔ IsSchema text fields }
    ensures fault { (text : List ℕ) (line : ℕ) (kind : SchemaKind)
        → schema_text text ≡ Err (at_line line kind) ↔ IsRefused text line kind }
{}
