//! The laws of what a sequential writer has written.

ghost use Rattle.std.specs.Prelude.{◌≡◌, ℕ, List, length};
ghost use Rattle.nt_types.specs.TreeData.{TreesData};
ghost use Rattle.nt_outside.specs.Held.{Held};
ghost use Rattle.nt_outside.specs.Disk.{DiskState};
ghost use Rattle.nt_outside.specs.Order.{FirstByteLast};
ghost use Rattle.nt_grammar.specs.Table.{Table};
ghost use Rattle.nt_book.specs.declared.params.Params.{Params};
ghost use Rattle.nt_book.specs.Books.{BookData, book_clusters, entry_count};
ghost use Rattle.nt_close.specs.Laws.{IsShut};
ghost use Rattle.nt_seq.specs.Written.{HasClusters, IsUnclosedOf, entries_of_clusters};

/// A book has as many clusters and entries as were written.
pub fn written_clusters_are_counted()
    ensures { (given disk : DiskState) (t : Table) (p : Params) (book : BookData) (clusters : List (List TreesData))
        → HasClusters given disk t p book clusters
        → (length (book_clusters book) ≡ length clusters)
        × (entry_count (book_clusters book) ≡ entries_of_clusters clusters) }
{}

/// A file that isn't closed begins with 0, and nothing is written over that byte, wherever its last
/// append failed.
pub fn unclosed_files_are_shut()
    ensures shut { (t : Table) (h : Held) → IsUnclosedOf t h → IsShut h.image }
    ensures order { (t : Table) (h : Held) → IsUnclosedOf t h → FirstByteLast h.log }
{}
