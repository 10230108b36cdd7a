//! The lines of an event text.

ghost use Rattle.std.specs.Prelude.{◌≡◌, ◌<◌, ℕ, Bool, true, List, [], ◌∷◌, ◌++◌, length, Ok};
ghost use Rattle.nt_types.specs.ShapeData.{MembersData, MemberData, parts_of};
ghost use Rattle.nt_types.specs.TreeData.{TreesData};
ghost use Rattle.nt_types.specs.Fits.{fit_parts};
ghost use Rattle.nt_types.specs.Rules.{AreFields};
ghost use Rattle.nt_grammar.specs.Table.{Table};
ghost use Rattle.nt_grammar.specs.Rows.{Rows};
ghost use Rattle.nt_trees.specs.Fits.{fits_entry};
ghost use Rattle.nt_event.specs.Entry.{entry_of};
ghost use Rattle.nt_event.specs.Lines.{HasNoLf};
ghost use Rattle.nt_dealing.specs.EventText.{text_lines};

use nt_grammar::described_fields_are_open;

/// An LF ends a line, and behind the last LF nothing is no line.
pub fn lines_come_in_order()
    ensures none { text_lines [] ≡ [] }
    ensures next { (line rest : List ℕ) → HasNoLf line
        → text_lines (line ++ 10 ∷ rest) ≡ line ∷ text_lines rest }
    ensures last { (line : List ℕ) → HasNoLf line → 0 < length line
        → text_lines line ≡ line ∷ [] }
{}

/// The entry of a line has one tree for each field, which fits it, and the rows that describe the
/// fields.
pub fn entries_fit()
    ensures fields { (F : MembersData) (line : List ℕ) (entry : TreesData)
        → entry_of F line ≡ Ok entry → fit_parts F entry ≡ true }
    ensures rows { (fields : List MemberData) (plain : Bool) (t : Table) (line : List ℕ)
        (entry : TreesData) → AreFields fields → Rows fields plain t
        → entry_of (parts_of fields) line ≡ Ok entry → fits_entry t entry ≡ true }
{
    described_fields_are_open();
}
