//! The laws of tables to which fields were added.

ghost use Rattle.std.specs.Prelude.{◌≡◌, ℕ, List, length};
ghost use Rattle.nt_types.specs.ShapeData.{ShapeData, MemberData, parts_of};
ghost use Rattle.nt_grammar.specs.declared.rows.ColumnRow.{ColumnRow};
ghost use Rattle.nt_grammar.specs.declared.rows.FieldRow.{FieldRow};
ghost use Rattle.nt_grammar.specs.AsRead.{as_read};
ghost use Rattle.nt_grammar.specs.ReadingBack.{IsDescribed};
ghost use Rattle.nt_grammar.specs.Table.{Table, IsFew};
ghost use Rattle.nt_plans.specs.Place.{place};
ghost use Rattle.nt_finished.specs.AddedFields.{AddsField, AddsFields};
ghost use Rattle.nt_finished.specs.LeftOut.{IsLeftOut, LacksFields};
ghost use Rattle.nt_finished.specs.Zeros.{zero_tree, zero_parts, zero_of};

use crate::missing::plans_have_the_zeros_of_their_shapes;
use nt_plans::late_fields_are_planned;

/// A field that is added is one that the entries before it leave out, and the zero of its plan is
/// that of its shape.
pub fn added_fields_are_left_out()
    ensures plan { (before : ℕ) (t : Table) (field : MemberData) (new : Table)
        → IsDescribed t → IsFew new → AddsField before t field new → IsLeftOut before t new
        (place new.fields new.columns (as_read field.of) (length t.fields)) }
    ensures zero { (fields : List FieldRow) (columns : List ColumnRow) (shape : ShapeData) (id : ℕ)
        → zero_of (place fields columns (as_read shape) id) ≡ zero_tree shape }
{
    late_fields_are_planned();
    plans_have_the_zeros_of_their_shapes();
}

/// A table to which fields were added one after the other lacks, before them, the zeros of their
/// shapes in order.
pub fn added_fields_are_lacked()
    ensures { (before : ℕ) (t new : Table) (fields : List MemberData) → IsDescribed t → IsFew t
        → IsFew new → AddsFields before new t fields
        → LacksFields before new t (zero_parts (parts_of fields)) }
{
    added_fields_are_left_out();
}
