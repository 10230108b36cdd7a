//! The laws of clusters that were written before fields were added.

ghost use Rattle.std.specs.Prelude.{◌≡◌, ℕ, ◌+◌, ◌≤◌, true, false, List, map, length, Ok};
ghost use Rattle.nt_types.specs.TreeData.{TreesData, no_trees, tree};
ghost use Rattle.nt_grammar.specs.declared.rows.ColumnRow.{ColumnRow};
ghost use Rattle.nt_grammar.specs.Table.{Table};
ghost use Rattle.nt_plans.specs.Plan.{PlanData};
ghost use Rattle.nt_machine.specs.History.{Cluster, ranges_of};
ghost use Rattle.nt_book.specs.declared.meta.ClusterMeta.{ClusterMeta};
ghost use Rattle.nt_book.specs.Books.{BookData, IsUngrouped, book_ranges, book_clusters};
ghost use Rattle.nt_book.specs.Kept.{IsBookKept};
ghost use Rattle.nt_pagelists.specs.declared.cluster.ClusterList.{ClusterList};
ghost use Rattle.nt_file_meaning.specs.Outlines.{Outline, outline_of};
ghost use Rattle.nt_file_meaning.specs.Files.{Means};
ghost use Rattle.nt_file_meaning.specs.Holds.{HoldsCluster};
ghost use Rattle.nt_grammar.specs.ReadingBack.{IsDescribed};
ghost use Rattle.nt_layout.specs.Headers.{clusters_place};
ghost use Rattle.nt_layout.specs.Finished.{finished};
ghost use Rattle.nt_layout.specs.Beside.{HasListsBeside};
ghost use Rattle.nt_layout.specs.Laid.{Measures, AreMeasures, IsWithin, range_of};
ghost use Rattle.nt_finished.specs.LateFiles.{AreLateBlobs, IsLaidLate};
ghost use Rattle.nt_finished.specs.LeftOut.{IsLeftOut, LacksFields, AreFilled, filled};
ghost use Rattle.nt_finished.specs.Zeros.{zero_of};

use nt_plans::{columns_differ, columns_have_needs, late_fields_have_needs};
use nt_trees::columns_without_fault_are_sound;

/// A cluster that leaves a field out holds its entries with the zero of that field behind each; and
/// so it is with several, one after the other.
pub fn earlier_clusters_are_filled()
    ensures one { (file : List ℕ) (t new : Table) (p : PlanData) (k : ClusterList) (es : List TreesData)
        → HoldsCluster file t k es → length k.columns ≤ length t.columns
        → IsLeftOut (k.first + k.entries) t new p
        → HoldsCluster file new k (filled (tree (zero_of p) no_trees) es) }
    ensures all { (file : List ℕ) (t new : Table) (zeros : TreesData) (k : ClusterList) (es : List TreesData)
        → HoldsCluster file t k es → length k.columns ≤ length t.columns
        → LacksFields (k.first + k.entries) new t zeros → HoldsCluster file new k (filled zeros es) }
{
    columns_differ();
    late_fields_have_needs();
    columns_without_fault_are_sound();
}

/// A file that is laid out for a schema to which fields were added between clusters means its
/// entries, the earlier ones filled up with the zeros of the fields that they lack.
pub fn late_files_mean_their_entries()
    ensures { (file : List ℕ) (t : Table) (clusters : List (List TreesData)) (m : Measures)
        → IsDescribed t → AreMeasures m → IsLaidLate file t clusters m → Means file t clusters }
{
    late_fields_have_needs();
    columns_have_needs();
    files_mean_filled_entries();
}

/// The finished file of a kept book to whose schema fields were added, without page lists between its
/// ranges and with all of them behind, is laid out: its parts lie in order, each range and each list where the book has it.
pub fn late_files_are_laid_behind()
    ensures { (file : List ℕ) (t : Table) (clusters : List (List TreesData)) (m : Measures)
        (ranges : List (List ℕ)) (book : BookData) → m.staged ≡ true → IsBookKept book
        → IsUngrouped book → length (book_clusters book) ≡ length (book_ranges book)
        → book.begin ≡ clusters_place t → map (λ (c : ColumnRow). c.first) t.columns ≡ book.firsts
        → IsWithin t m book → map length ranges ≡ map (λ (c : Cluster ClusterMeta). c.len) (ranges_of book.history)
        → AreLateBlobs t m.page 0 clusters (map (range_of ranges) (book_clusters book)) (book_clusters book)
        → file ≡ finished m.staged t book m.group ranges → IsLaidLate file t clusters m }
{}

/// And so is that of a kept book with page lists beside its clusters.
pub fn late_files_are_laid_beside()
    ensures { (file : List ℕ) (t : Table) (clusters : List (List TreesData)) (m : Measures)
        (ranges : List (List ℕ)) (book : BookData) → m.staged ≡ false → IsBookKept book
        → HasListsBeside t m.group book → book.begin ≡ clusters_place t
        → map (λ (c : ColumnRow). c.first) t.columns ≡ book.firsts
        → IsWithin t m book → AreLateBlobs t m.page 0 clusters ranges (book_clusters book)
        → file ≡ finished m.staged t book m.group ranges → IsLaidLate file t clusters m }
{}

/// A file whose clusters were written before fields were added means their entries, filled up with
/// the zeros of these fields.
pub fn files_mean_filled_entries()
    ensures { (file : List ℕ) (o : Outline) (clusters : List (List TreesData)) → outline_of file ≡ Ok o
        → AreFilled file o.table o.clusters clusters → Means file o.table clusters }
{
    earlier_clusters_are_filled();
}
