//! The laws of plans.

ghost use Rattle.std.specs.Prelude.{◌≡◌, ℕ};
ghost use Rattle.std.specs.Option.{is_some};
ghost use Rattle.nt_grammar.specs.Table.{Table};
ghost use Rattle.nt_plans.specs.Plan.{has_any, AllDiffer};
ghost use Rattle.nt_plans.specs.Place.{open_plans};
ghost use Rattle.nt_plans.specs.Needs.{need_of, top_of};
ghost use Rattle.nt_plans.specs.Types.{AllHaveTypes};

/// No column stands twice in the plans of a schema.
pub fn columns_differ()
    ensures { (t : Table) → AllDiffer (open_plans t) }
{}

/// The columns of the plans of a schema are among its rows, with the types of their values.
pub fn columns_have_types()
    ensures { (t : Table) → AllHaveTypes t.columns (open_plans t) }
{}

/// A column has a need, and a field at the top level that it is of, exactly where it is in a plan.
pub fn columns_have_needs()
    ensures need { (t : Table) (k : ℕ) → is_some (need_of t k) ≡ has_any (open_plans t) k }
    ensures top { (t : Table) (k : ℕ) → is_some (top_of t k) ≡ has_any (open_plans t) k }
{}
