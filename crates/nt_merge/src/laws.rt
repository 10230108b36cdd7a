//! The law of schemas that nothing stands against.

ghost use Rattle.std.specs.Prelude.{◌≡◌, List, ◌∷◌, None};
ghost use Rattle.nt_grammar.specs.Table.{Table};
ghost use Rattle.nt_merge.specs.Comparing.{schema_error};
ghost use Rattle.nt_merge.specs.Mergeable.{AreMergeable};

/// Where nothing stands against merging files of some schemas, all fields of each are open, none of its
/// columns is deferred, and it is alike the first one.
pub fn schemas_without_error_are_mergeable()
    ensures { (t : Table) (ts : List Table) → schema_error (t ∷ ts) ≡ None → AreMergeable t (t ∷ ts) }
{}
