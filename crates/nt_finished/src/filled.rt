//! The law of files that contexts fill.

ghost use Rattle.std.specs.Prelude.{◌≡◌, ◌++◌, ℕ, Bool, List, length};
ghost use Rattle.std.specs.List.{concat};
ghost use Rattle.nt_lists.specs.Parts.{Part, part_bytes};
ghost use Rattle.nt_outside.specs.Log.{Step};
ghost use Rattle.nt_outside.specs.Reads.{IsKnown};
ghost use Rattle.nt_grammar.specs.Table.{Table};
ghost use Rattle.nt_machine.specs.declared.entry.Entry.{Entry};
ghost use Rattle.nt_machine.specs.Legal.{IsLegal};
ghost use Rattle.nt_logged.specs.Logs.{IsLogOf};
ghost use Rattle.nt_book.specs.declared.meta.ClusterMeta.{ClusterMeta};
ghost use Rattle.nt_book.specs.Books.{BookData};
ghost use Rattle.nt_layout.specs.Headers.{clusters_place};
ghost use Rattle.nt_layout.specs.Arranged.{parts_filled};
ghost use Rattle.nt_finished.specs.Filled.{FillsBook, IsArrangedBook};

use nt_book::ClusterMeta;
use nt_logged::written_parts_are_known;

/// A file whose header was known, and that a history filled for a book, is known byte by byte: what
/// stood there, and then the ranges with the page lists that are noted.
pub fn filled_files_are_known()
    ensures { (staged : Bool) (t : Table) (most : ℕ) (book : BookData) (ranges : List (List ℕ))
        (log steps : List Step) (front : List ℕ) (end : ℕ) (history : List (Entry ClusterMeta)) (lists : List Part) (torn : List ℕ)
        → IsArrangedBook staged t most book ranges → IsKnown log front → length front ≡ clusters_place t
        → IsLegal (length front) history → IsLogOf (length front) end history lists torn steps
        → FillsBook staged t most book ranges history end lists
        → IsKnown (log ++ steps) (front ++ concat (part_bytes (parts_filled staged t book most ranges))) }
{
    written_parts_are_known::<ClusterMeta>();
}
