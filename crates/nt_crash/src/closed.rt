//! What a file that was closed means.

ghost use Rattle.std.specs.Prelude.{◌≡◌, ◌≤◌, List, ℕ, map, length, Option, Some};
ghost use Rattle.nt_types.specs.TreeData.{TreesData};
ghost use Rattle.nt_outside.specs.Held.{Held};
ghost use Rattle.nt_grammar.specs.Table.{Table};
ghost use Rattle.nt_grammar.specs.ReadingBack.{IsDescribed};
ghost use Rattle.nt_machine.specs.History.{Cluster, ranges_of};
ghost use Rattle.nt_book.specs.declared.meta.ClusterMeta.{ClusterMeta};
ghost use Rattle.nt_book.specs.declared.params.Params.{Params};
ghost use Rattle.nt_book.specs.Books.{BookData, book_ranges, book_clusters};
ghost use Rattle.nt_file_meaning.specs.Files.{Means};
ghost use Rattle.nt_pagelists.specs.Blobs.{blob_len};
ghost use Rattle.nt_layout.specs.Headers.{header_object};
ghost use Rattle.nt_layout.specs.Arranged.{HasLists};
ghost use Rattle.nt_layout.specs.Laid.{AreBlobsOf, IsBookOf, IsLaid, range_of};
ghost use Rattle.nt_close.specs.Passing.{measures_of};
ghost use Rattle.nt_close.specs.Filled.{filled_file};
ghost use Rattle.nt_close.specs.Closing.{EndsFinished};

use nt_finished::{arranged_files_are_laid, finished_files_mean_their_entries};

/// Where a file was filled with ranges that are the blobs of entries, one for each cluster of a book
/// of its schema with page lists where the parameters say, what `close` promises of it after Ok (its
/// clause `finished`) makes it the file that is laid out for these entries, which means them.
pub fn closed_files_mean_their_entries()
    ensures { (t : Table) (p : Params) (book : BookData) (clusters : List (List TreesData))
        (ranges : List (List ℕ)) (old new : Option Held) (h : Held)
        → IsDescribed t → IsBookOf t book → HasLists p.staged t p.group book
        → blob_len (length (header_object t)) ≤ p.limits.range
        → length (book_clusters book) ≡ length (book_ranges book)
        → map length ranges ≡ map (λ (c : Cluster ClusterMeta). c.len) (ranges_of book.history)
        → AreBlobsOf t p.page clusters (map (range_of ranges) (book_clusters book)) (book_clusters book)
        → old ≡ Some h → h.image ≡ filled_file p.staged t book p.group ranges
        → EndsFinished t p book old new
        → (left : Held) × (new ≡ Some left) × IsLaid left.image t clusters (measures_of p)
        × Means left.image t clusters }
{
    arranged_files_are_laid();
    finished_files_mean_their_entries();
}
