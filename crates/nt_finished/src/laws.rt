//! The laws of finished files.

ghost use Rattle.std.specs.Prelude.{◌≡◌, ◌+◌, ◌≤◌, ℕ, Bool, true, false, List, ◌∷◌, ◌++◌, map, length, replicate, Ok};
ghost use Rattle.std.specs.List.{concat};
ghost use Rattle.nt_lists.specs.Parts.{part_bytes};
ghost use Rattle.nt_types.specs.ShapeData.{MemberData};
ghost use Rattle.nt_types.specs.Rules.{AreFields};
ghost use Rattle.nt_types.specs.TreeData.{TreesData};
ghost use Rattle.nt_grammar.specs.declared.rows.ColumnRow.{ColumnRow};
ghost use Rattle.nt_grammar.specs.Rows.{Rows};
ghost use Rattle.nt_grammar.specs.Table.{Table};
ghost use Rattle.nt_grammar.specs.ReadingBack.{IsDescribed};
ghost use Rattle.nt_machine.specs.History.{Cluster, ranges_of};
ghost use Rattle.nt_book.specs.declared.meta.ClusterMeta.{ClusterMeta};
ghost use Rattle.nt_book.specs.Books.{BookData, IsUngrouped, book_ranges, book_clusters};
ghost use Rattle.nt_book.specs.Kept.{IsBookKept};
ghost use Rattle.nt_pagelists.specs.declared.cluster.ClusterList.{ClusterList};
ghost use Rattle.nt_pagelists.specs.SoundBooks.{HasSoundClusters};
ghost use Rattle.nt_file_meaning.specs.Outlines.{known_columns, outline_of};
ghost use Rattle.nt_file_meaning.specs.Files.{Means};
ghost use Rattle.nt_layout.specs.Headers.{header_blob, clusters_place};
ghost use Rattle.nt_layout.specs.Finished.{list_places, lists_behind, list_blobs, middle, finished, file_len, ending, tail, front};
ghost use Rattle.nt_layout.specs.Beside.{HasListsBeside, lists_left, parts_so_far};
ghost use Rattle.nt_layout.specs.Laid.{AreBlobsOf, Measures, AreMeasures, IsWithin, IsBookOf, IsLaid, range_of};
ghost use Rattle.nt_finished.specs.Listed.{AreListsOf};
ghost use Rattle.nt_finished.specs.Ranged.{IsRangedBook};

use nt_grammar::schemas_are_described;
use nt_plans::columns_have_needs;

/// Blobs of entries are as long as their clusters, and whatever the ranges of the clusters are, if
/// they are that long, the finished file has as many bytes as the book says.
pub fn finished_files_are_as_long()
    ensures ranges { (t : Table) (page : ℕ) (clusters : List (List TreesData))
        (ranges : List (List ℕ)) (book : BookData) → IsBookKept book
        → AreBlobsOf t page clusters ranges (book_clusters book)
        → map length ranges ≡ map (λ (c : Cluster ClusterMeta). c.len) (book_clusters book) }
    ensures file { (staged : Bool) (t : Table) (most : ℕ) (ranges : List (List ℕ))
        (book : BookData) → book.begin ≡ clusters_place t
        → map length ranges ≡ map (λ (c : Cluster ClusterMeta). c.len) (ranges_of book.history)
        → length (finished staged t book most ranges)
        ≡ file_len t book (list_places staged t book most) }
{}

/// Such a file is its first byte, the rest of its front, the header's blob, the ranges with the page
/// lists, and what stands behind them; where all page lists stand behind the ranges, these begin the
/// tail.
pub fn finished_files_are_parts()
    ensures parts { (staged : Bool) (t : Table) (most : ℕ) (ranges : List (List ℕ))
        (book : BookData) → book.begin ≡ clusters_place t
        → map length ranges ≡ map (λ (c : Cluster ClusterMeta). c.len) (ranges_of book.history)
        → finished staged t book most ranges
        ≡ 0x72 ∷ (front t book (list_places staged t book most) ++ (header_blob t
        ++ (concat (part_bytes (middle staged t book most ranges))
        ++ ending t book (list_places staged t book most)))) }
    ensures behind { (t : Table) (most : ℕ) (ranges : List (List ℕ)) (book : BookData)
        → book.begin ≡ clusters_place t
        → map length ranges ≡ map (λ (c : Cluster ClusterMeta). c.len) (ranges_of book.history)
        → finished true t book most ranges
        ≡ 0x72 ∷ (front t book (lists_behind t book most)
        ++ (header_blob t ++ (concat ranges ++ tail t book (lists_behind t book most)))) }
{}

/// A finished file of a kept book without page lists between its ranges, all behind them, is laid out: its parts lie
/// in order, each range and each list where the book has it. Each range is a cluster; they go by their numbers,
/// since clusters may stand in another order.
pub fn files_are_laid_behind()
    ensures ranged { (t : Table) (most : ℕ) (book : BookData) (ranges : List (List ℕ))
        → IsBookKept book → IsUngrouped book → book.begin ≡ clusters_place t
        → map (λ (c : ColumnRow). c.first) t.columns ≡ book.firsts
        → map length ranges ≡ map (λ (c : Cluster ClusterMeta). c.len) (ranges_of book.history)
        → IsRangedBook true t most book ranges }
    ensures laid { (file : List ℕ) (t : Table) (clusters : List (List TreesData)) (m : Measures)
        (ranges : List (List ℕ)) (book : BookData)
        → m.staged ≡ true → IsBookOf t book → IsUngrouped book → IsWithin t m book
        → length (book_clusters book) ≡ length (book_ranges book)
        → map length ranges ≡ map (λ (c : Cluster ClusterMeta). c.len) (ranges_of book.history)
        → AreBlobsOf t m.page clusters (map (range_of ranges) (book_clusters book)) (book_clusters book)
        → file ≡ finished m.staged t book m.group ranges → IsLaid file t clusters m }
{}

/// A finished file of a kept book with page lists beside its clusters is laid out; and what stands
/// between header and ending is what stood there before the file was closed, the ranges with the
/// lists that were noted, and then the lists that were left.
pub fn files_are_laid_beside()
    ensures ranged { (t : Table) (most : ℕ) (book : BookData) (ranges : List (List ℕ))
        → IsBookKept book → HasListsBeside t most book → book.begin ≡ clusters_place t
        → map (λ (c : ColumnRow). c.first) t.columns ≡ book.firsts
        → map length ranges ≡ map (λ (c : Cluster ClusterMeta). c.len) (ranges_of book.history)
        → IsRangedBook false t most book ranges }
    ensures laid { (file : List ℕ) (t : Table) (clusters : List (List TreesData)) (m : Measures)
        (ranges : List (List ℕ)) (book : BookData)
        → m.staged ≡ false → IsBookOf t book → HasListsBeside t m.group book → IsWithin t m book
        → AreBlobsOf t m.page clusters ranges (book_clusters book)
        → file ≡ finished m.staged t book m.group ranges → IsLaid file t clusters m }
    ensures parts { (t : Table) (most : ℕ) (book : BookData) (ranges : List (List ℕ))
        → IsBookKept book → HasListsBeside t most book
        → map length ranges ≡ map (λ (c : Cluster ClusterMeta). c.len) (ranges_of book.history)
        → concat (part_bytes (middle false t book most ranges))
        ≡ concat (part_bytes (parts_so_far t book most ranges))
        ++ concat (list_blobs t book (lists_left t book most)) }
{}

/// A file that is laid out is read as the outline of its schema, with the clusters of its book.
pub fn finished_files_are_outlined()
    ensures { (file : List ℕ) (t : Table) (clusters : List (List TreesData)) (m : Measures)
        → IsDescribed t → AreMeasures m → (laid : IsLaid file t clusters m)
        → (lists : List ClusterList)
        × (outline_of file ≡ Ok (record { table = t; clusters = lists }))
        × AreListsOf laid.book 0 (length (book_clusters laid.book)) lists }
{}

/// Whatever stands in the ranges of a finished file, if they are as long as its book says and stand
/// where it says, and a reader takes the clusters, it is read as the outline of its schema, with the
/// clusters of its book: page lists beside their clusters or behind all of them.
pub fn ranged_files_are_outlined()
    ensures { (t : Table) (m : Measures) (ranges : List (List ℕ)) (book : BookData)
        → IsDescribed t → AreMeasures m → IsRangedBook m.staged t m.group book ranges
        → IsWithin t m book
        → ((from count : ℕ) → from + count ≤ length (book_clusters book)
        → HasSoundClusters (known_columns t) book from count)
        → (lists : List ClusterList)
        × (outline_of (finished m.staged t book m.group ranges)
        ≡ Ok (record { table = t; clusters = lists }))
        × AreListsOf book 0 (length (book_clusters book)) lists }
{}

/// A file that is laid out for a schema and the entries of its clusters means these.
pub fn finished_files_mean_their_entries()
    ensures { (file : List ℕ) (t : Table) (clusters : List (List TreesData)) (m : Measures)
        → IsDescribed t → AreMeasures m → IsLaid file t clusters m → Means file t clusters }
{
    columns_have_needs();
}

/// Described fields have no deferred column, so a book whose ranges begin behind their header, and
/// whose columns all begin with the first entry, is one of their schema.
pub fn books_of_fields_are_of_their_schema()
    ensures { (fields : List MemberData) (plain : Bool) (t : Table) (book : BookData)
        → Rows fields plain t → IsBookKept book → book.begin ≡ clusters_place t
        → book.firsts ≡ replicate (length t.columns) 0 → IsBookOf t book }
{}

/// Fields that keep their rules have rows that a file can hold, so a file that is laid out for these
/// rows and the entries of its clusters means them.
pub fn files_of_fields_mean_their_entries()
    ensures { (fields : List MemberData) (plain : Bool) (file : List ℕ) (t : Table)
        (clusters : List (List TreesData)) (m : Measures)
        → AreFields fields → Rows fields plain t → AreMeasures m → IsLaid file t clusters m
        → Means file t clusters }
{
    finished_files_mean_their_entries();
    schemas_are_described();
}
