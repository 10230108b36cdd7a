//! The laws of tables that have just some fields, and of the limits that a whole file passes.

ghost use Rattle.std.specs.Prelude.{ℕ, Bool, List};
ghost use Rattle.nt_types.specs.ShapeData.{MemberData};
ghost use Rattle.nt_types.specs.Rules.{AreFields};
ghost use Rattle.nt_grammar.specs.Rows.{Rows};
ghost use Rattle.nt_grammar.specs.Table.{Table};
ghost use Rattle.nt_book.specs.declared.params.Params.{Params};
ghost use Rattle.nt_script.specs.Script.{Script};
ghost use Rattle.nt_script.specs.Clusters.{GrowsByScript};
ghost use Rattle.nt_script.specs.Taking.{HasJustFields};
ghost use Rattle.nt_script.specs.Passing.{PassesLimit};
ghost use Rattle.nt_script.specs.Fitting.{FitsWhole, MayFit, WholePasses};

/// A table that describes fields has just these.
pub fn tables_have_just_their_fields()
    ensures { (fields : List MemberData) (plain : Bool) (t : Table) → AreFields fields
        → Rows fields plain t → HasJustFields fields t }
{}

/// A limit that a script passes where it is written, its whole file passes too, which is no shorter;
/// where the whole file passes none, the script passes none, and the whole file may be such.
pub fn whole_files_pass_what_scripts_pass()
    ensures passed { (fields : List MemberData) (p : Params) (s : Script) (reached limit : ℕ) (first table : Table)
        → Rows fields p.plain first → GrowsByScript p.plain first 0 s table
        → PassesLimit fields p s reached limit → WholePasses first table p s reached limit }
    ensures fits { (fields : List MemberData) (p : Params) (s : Script) (reached limit : ℕ)
        → FitsWhole fields p s → PassesLimit fields p s reached limit → ⊥ }
    ensures may { (fields : List MemberData) (p : Params) (s : Script) → FitsWhole fields p s → MayFit fields p s }
{}
