//! The laws of lines.

ghost use Rattle.std.specs.Prelude.{◌≡◌, ◌≤◌, ℕ, List, length, true, Ok};
ghost use Rattle.nt_types.specs.ShapeData.{MemberData, parts_of};
ghost use Rattle.nt_types.specs.Rules.{AreFields};
ghost use Rattle.nt_types.specs.TreeData.{TreeData, trees_of};
ghost use Rattle.nt_types.specs.Fits.{fit_parts};
ghost use Rattle.nt_types.specs.TreeBytes.{AllHaveBytes};
ghost use Rattle.nt_event.specs.Json.{line_of};
ghost use Rattle.nt_event.specs.Entry.{entry_of};
ghost use Rattle.nt_event.specs.Limits.{max_line};
ghost use Rattle.nt_event.specs.Standing.{SpellsTrees};

/// The line of an entry, its LF taken off, is that entry: for the fields of a schema text, and a line that is not too long.
pub fn lines_are_read_back()
    ensures { (ps : List MemberData) (ts : List TreeData) → AreFields ps
        → fit_parts (parts_of ps) (trees_of ts) ≡ true → AllHaveBytes (trees_of ts)
        → length (line_of (trees_of ts)) ≤ max_line
        → entry_of (parts_of ps) (line_of (trees_of ts)) ≡ Ok (trees_of ts) }
{}

/// A line that spells trees which fit the fields is read as their entry.
pub fn spelled_trees_are_read()
    ensures { (ps : List MemberData) (ts : List TreeData) (line : List ℕ) → AreFields ps
        → SpellsTrees ts line → fit_parts (parts_of ps) (trees_of ts) ≡ true
        → entry_of (parts_of ps) line ≡ Ok (trees_of ts) }
{}
