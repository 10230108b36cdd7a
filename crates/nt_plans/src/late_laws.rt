//! The laws of the plans of a table with one field more.

ghost use Rattle.std.specs.Prelude.{◌≡◌, ◌<◌, ◌≤◌, ◌^◌, ℕ, Bool, Some, length};
ghost use Rattle.nt_types.specs.ShapeData.{MemberData};
ghost use Rattle.nt_types.specs.Rules.{IsField};
ghost use Rattle.nt_grammar.specs.Table.{Table, IsFew};
ghost use Rattle.nt_grammar.specs.Added.{Added};
ghost use Rattle.nt_grammar.specs.AsRead.{as_read};
ghost use Rattle.nt_grammar.specs.ReadingBack.{IsDescribed};
ghost use Rattle.nt_plans.specs.Plan.{PlanData};
ghost use Rattle.nt_plans.specs.Place.{place};
ghost use Rattle.nt_plans.specs.Needs.{entries, need_in, need_of, top_of};
ghost use Rattle.nt_plans.specs.Late.{GrowsBy};

/// The plans of a table with one field more are those before it, and behind them the plan of the
/// field, which has only columns behind all others.
pub fn late_fields_are_planned()
    ensures { (t : Table) (field : MemberData) (plain : Bool) (written : ℕ) (new : Table)
        → IsDescribed t → IsField field → IsFew new → written < 2 ^ 63
        → Added t field plain written new
        → GrowsBy t new (place new.fields new.columns (as_read field.of) (length t.fields)) }
{}

/// A column needs what it needed before a plan was added, and the columns of that plan need what
/// they need in it alone.
pub fn late_fields_have_needs()
    ensures before { (t new : Table) (p : PlanData) → GrowsBy t new p → (k : ℕ)
        → k < length t.columns → need_of new k ≡ need_of t k }
    ensures behind { (t new : Table) (p : PlanData) → GrowsBy t new p → (k : ℕ)
        → length t.columns ≤ k → need_of new k ≡ need_in entries p k }
{}
