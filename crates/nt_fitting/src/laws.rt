//! The law of entries that are read.

ghost use Rattle.std.specs.Prelude.{◌≡◌, ℕ, true, List};
ghost use Rattle.nt_grammar.specs.declared.rows.ColumnRow.{ColumnRow};
ghost use Rattle.nt_plans.specs.Plan.{PlansData};
ghost use Rattle.nt_plans.specs.Types.{AllHaveTypes};
ghost use Rattle.nt_trees.specs.Columns.{Cols};
ghost use Rattle.nt_trees.specs.Sound.{AllSound};
ghost use Rattle.nt_trees.specs.TreeAt.{each_at};
ghost use Rattle.nt_trees.specs.Fits.{fit_plans};
ghost use Rattle.nt_fitting.specs.Fitting.{AreOfRows};

/// Each entry of sound columns fits the plans, whatever its number.
pub fn entries_fit_their_plans()
    ensures { (cs : List ColumnRow) (ps : PlansData) (cols : Cols) (n i : ℕ) → AllHaveTypes cs ps
        → AreOfRows cs cols → AllSound ps cols n → fit_plans ps (each_at ps cols i) ≡ true }
{}
