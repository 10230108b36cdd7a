//! The laws of finished files whose page lists stand where their book has them.

ghost use Rattle.std.specs.Prelude.{◌≡◌, ℕ, Bool, List, ◌++◌, map, length};
ghost use Rattle.std.specs.List.{concat};
ghost use Rattle.nt_lists.specs.Parts.{part_bytes};
ghost use Rattle.nt_types.specs.TreeData.{TreesData};
ghost use Rattle.nt_grammar.specs.declared.rows.ColumnRow.{ColumnRow};
ghost use Rattle.nt_grammar.specs.Table.{Table};
ghost use Rattle.nt_machine.specs.History.{Cluster, ranges_of};
ghost use Rattle.nt_book.specs.declared.meta.ClusterMeta.{ClusterMeta};
ghost use Rattle.nt_book.specs.Books.{BookData, book_ranges, book_clusters};
ghost use Rattle.nt_layout.specs.Finished.{list_blobs, middle, finished};
ghost use Rattle.nt_layout.specs.Arranged.{HasLists, lists_after, parts_filled};
ghost use Rattle.nt_layout.specs.Laid.{AreBlobsOf, Measures, IsWithin, IsBookOf, IsLaid, range_of};
ghost use Rattle.nt_finished.specs.Filled.{IsArrangedBook};
ghost use Rattle.nt_finished.specs.Ranged.{IsRangedBook};

use crate::laws::{files_are_laid_behind, files_are_laid_beside};

/// A finished file of a kept book with its page lists behind all ranges, where its clusters are
/// staged, or else beside its clusters, is laid out. The ranges go by their numbers. What stands
/// between header and ending is what stood there before the file was closed, the ranges with the
/// lists that were noted, and then the lists that were left.
pub fn arranged_files_are_laid()
    ensures ranged { (staged : Bool) (t : Table) (most : ℕ) (book : BookData) (ranges : List (List ℕ))
        → IsArrangedBook staged t most book ranges → map (λ (c : ColumnRow). c.first) t.columns ≡ book.firsts
        → IsRangedBook staged t most book ranges }
    ensures laid { (file : List ℕ) (t : Table) (clusters : List (List TreesData)) (m : Measures)
        (ranges : List (List ℕ)) (book : BookData)
        → IsBookOf t book → HasLists m.staged t m.group book → IsWithin t m book
        → length (book_clusters book) ≡ length (book_ranges book)
        → map length ranges ≡ map (λ (c : Cluster ClusterMeta). c.len) (ranges_of book.history)
        → AreBlobsOf t m.page clusters (map (range_of ranges) (book_clusters book)) (book_clusters book)
        → file ≡ finished m.staged t book m.group ranges → IsLaid file t clusters m }
    ensures parts { (staged : Bool) (t : Table) (most : ℕ) (book : BookData) (ranges : List (List ℕ))
        → IsArrangedBook staged t most book ranges
        → concat (part_bytes (middle staged t book most ranges))
        ≡ concat (part_bytes (parts_filled staged t book most ranges))
        ++ concat (list_blobs t book (lists_after staged t book most)) }
{
    files_are_laid_behind();
    files_are_laid_beside();
}
