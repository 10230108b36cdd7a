//! The laws of descriptions that are read.

ghost use Rattle.std.specs.Prelude.{◌≡◌, ℕ, Bool, ◌+◌, ◌<◌, ◌^◌, List, ◌++◌, length, Ok};
ghost use Rattle.std.specs.List.{AllByRecursion};
ghost use Rattle.nt_format.specs.Reading.{standing, IsBytes};
ghost use Rattle.nt_num.specs.Place.{At};
ghost use Rattle.nt_types.specs.ShapeData.{MemberData};
ghost use Rattle.nt_types.specs.Rules.{AreFields};
ghost use Rattle.nt_grammar.specs.Rows.{Rows};
ghost use Rattle.nt_grammar.specs.declared.rows.FieldRow.{FieldRow};
ghost use Rattle.nt_grammar.specs.declared.rows.ColumnRow.{ColumnRow};
ghost use Rattle.nt_grammar.specs.declared.part.Part.{Part};
ghost use Rattle.nt_grammar.specs.Table.{Table};
ghost use Rattle.nt_grammar.specs.Writing.{description, part_fields, part_columns};
ghost use Rattle.nt_grammar.specs.Reading.{extended, description_at};
ghost use Rattle.nt_grammar.specs.ReadingBack.{AreFieldRows, IsColumnRow, IsDescribed, AddsRows, before, up_to};

/// What is written of rows is read as these rows, behind any others, whatever follows.
pub fn descriptions_are_read_back()
    ensures rows { (part : Part) (t : Table) (fields : List FieldRow) (columns : List ColumnRow)
        (place : ℕ) (rest : List ℕ)
        → AreFieldRows (length t.fields) fields
        → AllByRecursion (IsColumnRow (length (t.fields ++ fields))) columns
        → length fields < 2 ^ 32 → length columns < 2 ^ 32
        → length (description fields columns) < 2 ^ 63
        → description_at part t (standing place (description fields columns ++ rest))
        ≡ Ok (
          extended part t (t.fields ++ fields) (t.columns ++ columns),
          standing
              (place + length (description fields columns)) rest,
        ) }
    ensures parts { (part : Part) (t : Table) (place : ℕ) (rest : List ℕ)
        → IsDescribed t → length t.fields < 2 ^ 32 → length t.columns < 2 ^ 32
        → length (description (part_fields part t) (part_columns part t)) < 2 ^ 63
        → description_at part (before part t)
        (standing place (description (part_fields part t) (part_columns part t) ++ rest))
        ≡ Ok (
          up_to part t,
          standing (place + length
              (description (part_fields part t) (part_columns part t))) rest,
        ) }
{}

/// What is read are rows in range, behind those that were there.
pub fn rows_read_are_described()
    ensures adds { (part : Part) (t read : Table) (here after : At)
        → IsBytes here.left → description_at part t here ≡ Ok (read, after) → AddsRows part t read }
    ensures described { (part : Part) (t read : Table) → AddsRows part t read → IsDescribed t
        → IsDescribed read }
{}

/// Fields that keep their rules are described by rows in range, so what is written of them is read
/// back.
pub fn schemas_are_described()
    ensures { (fields : List MemberData) (plain : Bool) (t : Table) → AreFields fields
        → Rows fields plain t → IsDescribed t }
{}
