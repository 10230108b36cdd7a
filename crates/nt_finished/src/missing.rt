//! The laws of fields whose columns are missing.

ghost use Rattle.std.specs.Prelude.{◌≡◌, ℕ, List, None};
ghost use Rattle.nt_types.specs.ShapeData.{ShapeData};
ghost use Rattle.nt_grammar.specs.declared.rows.ColumnRow.{ColumnRow};
ghost use Rattle.nt_grammar.specs.declared.rows.FieldRow.{FieldRow};
ghost use Rattle.nt_plans.specs.Plan.{PlanData, Differ};
ghost use Rattle.nt_plans.specs.Place.{place};
ghost use Rattle.nt_trees.specs.Columns.{Cols};
ghost use Rattle.nt_trees.specs.Faults.{fault_in};
ghost use Rattle.nt_trees.specs.TreeAt.{tree_at};
ghost use Rattle.nt_finished.specs.Missing.{AreMissing};
ghost use Rattle.nt_finished.specs.Zeros.{zero_tree, zero_of};

/// Where the columns of a field are missing, nothing is wrong with them, and each of its trees is
/// the zero of its plan.
pub fn missing_fields_are_zero()
    ensures fault { (p : PlanData) (cols : Cols) (n : ℕ) → Differ p → AreMissing p cols n
        → fault_in p cols n ≡ None }
    ensures tree { (p : PlanData) (cols : Cols) (n i : ℕ) → Differ p → AreMissing p cols n
        → tree_at p cols i ≡ zero_of p }
{}

/// The zero of a plan is that of the shape that it was made of.
pub fn plans_have_the_zeros_of_their_shapes()
    ensures { (fields : List FieldRow) (columns : List ColumnRow) (shape : ShapeData) (id : ℕ)
        → zero_of (place fields columns shape id) ≡ zero_tree shape }
{}
