//! The laws that join the readings and the spellings of page lists and footers.

ghost use Rattle.std.specs.Prelude.{◌≡◌, ℕ, ◌+◌, ◌<◌, ◌≤◌, ◌^◌, List, ◌++◌, length, Ok};
ghost use Rattle.nt_format.specs.Reading.{standing};
ghost use Rattle.nt_grammar.specs.Table.{Table};
ghost use Rattle.nt_grammar.specs.ReadingBack.{IsDescribed, before, up_to};
ghost use Rattle.nt_grammar.specs.declared.part.Part.TheVariants.{Extension};
ghost use Rattle.nt_pagelists.specs.declared.column.KnownColumn.{KnownColumn};
ghost use Rattle.nt_pagelists.specs.declared.group.Group.{Group};
ghost use Rattle.nt_pagelists.specs.PageLists.{ProgressCounts, with_group, page_list_at};
ghost use Rattle.nt_pagelists.specs.Footers.{footer_at};
ghost use Rattle.nt_pagelists.specs.Writing.{ListedCluster, page_list_text};
ghost use Rattle.nt_book.specs.Books.{BookData, book_clusters, first_entry};
ghost use Rattle.nt_book.specs.Kept.{IsBookKept};
ghost use Rattle.nt_pagelists.specs.Objects.{ClusterSpan, list_object};
ghost use Rattle.nt_pagelists.specs.Staying.{StaysBelow};
ghost use Rattle.nt_pagelists.specs.Books.{listed_clusters, progress_before};
ghost use Rattle.nt_pagelists.specs.SoundBooks.{HasSoundClusters};
ghost use Rattle.nt_pagelists.specs.FooterWriting.{footer_text};
ghost use Rattle.nt_pagelists.specs.ReadingBack.{cluster_lists_from, first_cluster_place, with_all_listed, listed_entries, AreListedClusters, AreGroups};

/// What is written of clusters is read back, whatever follows.
pub fn page_lists_are_read_back()
    ensures { (sum : ℕ) (g : Group) (columns : List KnownColumn) (p : ProgressCounts) (ws : List ListedCluster) (place : ℕ) (rest : List ℕ)
        → sum < 2 ^ 64 → length columns < 2 ^ 32 → length ws < 2 ^ 32 → g.clusters ≡ length ws → g.span ≡ listed_entries ws
        → AreListedClusters columns p.clusters p.entries p.elements ws → length (page_list_text sum ws) < 2 ^ 63
        → page_list_at sum g columns p (standing place (page_list_text sum ws ++ rest))
        ≡ Ok (cluster_lists_from (first_cluster_place place ws) ws, with_group p g (with_all_listed p.elements ws)) }
{}

/// What is written of a book's clusters is read back as these clusters, whatever follows, and as the
/// progress from the first to behind the last.
pub fn books_are_read_back()
    ensures { (columns : List KnownColumn) (book : BookData) (from count : ℕ)
        → HasSoundClusters columns book from count → (sum : ℕ) (g : Group) (place : ℕ) (rest : List ℕ)
        → sum < 2 ^ 64 → g.clusters ≡ count → first_entry book from + g.span ≡ first_entry book (from + count)
        → length (page_list_text sum (listed_clusters book from count)) < 2 ^ 63
        → page_list_at sum g columns (progress_before book from)
        (standing place (page_list_text sum (listed_clusters book from count) ++ rest))
        ≡ Ok (
          cluster_lists_from (first_cluster_place place (listed_clusters book from count))
              (listed_clusters book from count),
          progress_before book (from + count),
        ) }
{}

/// The page list of clusters stays what it is when clusters are added behind them, when their ranges
/// are handed back, and when columns are added that they don't list.
pub fn lists_stay()
    ensures { (sum : ℕ) (old new : BookData) (s : ClusterSpan) → IsBookKept old
        → s.from + s.count ≤ length (book_clusters old) → StaysBelow (s.from + s.count) old new
        → list_object sum new s ≡ list_object sum old s }
{}

/// What is written of a schema's extension and of groups is read back behind the header's rows,
/// whatever follows.
pub fn footers_are_read_back()
    ensures { (sum : ℕ) (t : Table) (gs : List Group) (place : ℕ) (rest : List ℕ)
        → sum < 2 ^ 64 → AreGroups 0 0 gs → length gs < 2 ^ 32 → length (footer_text sum t gs) < 2 ^ 63
        → IsDescribed t → length t.fields < 2 ^ 32 → length t.columns < 2 ^ 32
        → footer_at sum (before Extension t) (standing place (footer_text sum t gs ++ rest)) ≡ Ok (up_to Extension t, gs) }
{}
