//! The laws of copied clusters.

ghost use Rattle.std.specs.Prelude.{◌≡◌, List, ℕ, true, false, map, length, Ok};
ghost use Rattle.std.specs.List.{AllByRecursion};
ghost use Rattle.nt_types.specs.TreeData.{TreesData};
ghost use Rattle.nt_grammar.specs.Table.{Table};
ghost use Rattle.nt_grammar.specs.ReadingBack.{IsDescribed};
ghost use Rattle.nt_format.specs.Reading.{IsBytes};
ghost use Rattle.nt_schema.specs.Whole.{AreWhole};
ghost use Rattle.nt_file_meaning.specs.Outlines.{Outline, outline_of};
ghost use Rattle.nt_file_meaning.specs.Files.{Means};
ghost use Rattle.nt_layout.specs.Laid.{Measures, AreMeasures, IsWithin, IsBookOf, range_of};
ghost use Rattle.nt_layout.specs.Beside.{HasListsBeside};
ghost use Rattle.nt_layout.specs.Finished.{finished};
ghost use Rattle.nt_machine.specs.History.{Cluster, ranges_of};
ghost use Rattle.nt_book.specs.declared.meta.ClusterMeta.{ClusterMeta};
ghost use Rattle.nt_book.specs.Books.{BookData, IsUngrouped, book_ranges, book_clusters};
ghost use Rattle.nt_plans.specs.Types.{are_some, AllHaveTypes};
ghost use Rattle.nt_plans.specs.Place.{open_plans};
ghost use Rattle.nt_book.specs.Pages.{IsPaged};
ghost use Rattle.nt_file_meaning.specs.Holds.{HoldsCluster};
ghost use Rattle.nt_copied.specs.Stored.{stored_meta};
ghost use Rattle.nt_copied.specs.Copies.{Source, AreCopies, IsCopied, HasStoredPages, ReadAlike, NoneDeferred, HasFewElements, stored_columns};
ghost use Rattle.nt_copied.specs.Alike.{Alike, AllOpen, bare};

/// A file whose clusters are copies of clusters of other files means the entries of these.
pub fn copied_files_mean_their_sources()
    ensures { (file : List ℕ) (t : Table) (sources : List Source) (clusters : List (List TreesData)) (m : Measures)
        → IsDescribed t → AreMeasures m → IsCopied file t sources clusters m → Means file t clusters }
{}

/// A finished file of a kept book whose ranges are copies of sources, in the order of its clusters,
/// is made of these copies: with page lists beside its clusters, or behind all of them; then ranges
/// go by their numbers, and each is a cluster.
pub fn finished_files_are_made_of_copies()
    ensures beside { (file : List ℕ) (t : Table) (sources : List Source) (clusters : List (List TreesData)) (m : Measures)
        (ranges : List (List ℕ)) (book : BookData)
        → m.staged ≡ false → IsBookOf t book → HasListsBeside t m.group book → IsWithin t m book
        → AreCopies t sources clusters ranges (book_clusters book)
        → file ≡ finished m.staged t book m.group ranges → IsCopied file t sources clusters m }
    ensures behind { (file : List ℕ) (t : Table) (sources : List Source) (clusters : List (List TreesData)) (m : Measures)
        (ranges : List (List ℕ)) (book : BookData)
        → m.staged ≡ true → IsBookOf t book → IsUngrouped book → IsWithin t m book
        → length (book_clusters book) ≡ length (book_ranges book)
        → map length ranges ≡ map (λ (c : Cluster ClusterMeta). c.len) (ranges_of book.history)
        → AreCopies t sources clusters (map (range_of ranges) (book_clusters book)) (book_clusters book)
        → file ≡ finished m.staged t book m.group ranges → IsCopied file t sources clusters m }
{}

/// A file whose clusters are copies of clusters of other files has, by cluster, column and page,
/// byte for byte the pages that are stored there.
pub fn copied_files_have_the_stored_pages()
    ensures { (file : List ℕ) (t : Table) (sources : List Source) (clusters : List (List TreesData)) (m : Measures)
        → IsDescribed t → AreMeasures m → IsCopied file t sources clusters m → HasStoredPages file t sources }
{}

/// Where each field at the top level is open, schemas whose rows differ in flags alone are read alike.
pub fn alike_schemas_are_read_alike()
    ensures { (s t : Table) → AllOpen s → AllOpen t → Alike s t → ReadAlike (bare s) t }
{}

/// What is kept of a copy is what a book asks of a cluster, where some field of the source is open.
pub fn copies_are_paged()
    ensures { (s : Source) (entries : List TreesData) → HoldsCluster s.file s.table s.list entries
        → NoneDeferred s.table.columns → HasFewElements s.list → AllHaveTypes s.table.columns (open_plans s.table)
        → are_some (open_plans s.table) ≡ true → (context : ℕ) → IsPaged (stored_meta context s.list.entries (stored_columns s)) }
{}

/// The pages that the outline of a file lists have counts that are signed in 32 bits, as a page list
/// tells them.
pub fn listed_pages_have_few_elements()
    ensures { (file : List ℕ) (o : Outline) → outline_of file ≡ Ok o → AllByRecursion HasFewElements o.clusters }
{}

/// The schema of a file that was read is one that a description can hold, and so is the bare one;
/// where each field at the top level is open, a description holds its rows whole.
pub fn bare_schemas_are_described()
    ensures read { (file : List ℕ) (o : Outline) → IsBytes file → outline_of file ≡ Ok o → IsDescribed o.table }
    ensures bare { (t : Table) → IsDescribed t → IsDescribed (bare t) }
    ensures whole { (t : Table) → IsDescribed t → AllOpen t → AreWhole (bare t) }
{}
