//! The laws of fields that are written again.

ghost use Rattle.std.specs.Prelude.{◌≡◌, ◌↔◌, true};
ghost use Rattle.nt_types.specs.ShapeData.{ShapeData, MemberData};
ghost use Rattle.nt_types.specs.TreeData.{TreeData};
ghost use Rattle.nt_types.specs.Fits.{fits};
ghost use Rattle.nt_types.specs.Rules.{IsField};
ghost use Rattle.nt_writable.specs.Written.{as_written};
ghost use Rattle.nt_writable.specs.Fields.{is_field};

/// A shape and the one that it is written with take the same trees.
pub fn written_shapes_take_the_same()
    ensures { (k : ShapeData) (t : TreeData) → fits (as_written k) t ≡ fits k t }
{}

/// The test of a field is its rules.
pub fn fields_are_tested()
    ensures { (p : MemberData) → is_field p ≡ true ↔ IsField p }
{}
