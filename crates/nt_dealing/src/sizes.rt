//! How long the parts of a finished file are.

ghost use Rattle.std.specs.Prelude.{◌≡◌, ◌+◌, ◌<◌, ◌≤◌, ℕ, Bool, length, map, take, drop};
ghost use Rattle.nt_grammar.specs.Table.{Table};
ghost use Rattle.nt_machine.specs.History.{Cluster};
ghost use Rattle.nt_book.specs.declared.meta.ClusterMeta.{ClusterMeta};
ghost use Rattle.nt_book.specs.Books.{BookData, book_ranges, book_clusters};
ghost use Rattle.nt_pagelists.specs.Blobs.{blob_len};
ghost use Rattle.nt_pagelists.specs.Objects.{ClusterSpan, list_len};
ghost use Rattle.nt_layout.specs.Finished.{list_places, footer_object, file_len};
ghost use Rattle.nt_layout.specs.Laid.{IsBookOf};
ghost use Rattle.nt_dealing.specs.Lengths.{page_list_len, group_count, footer_len, whole_len};

/// What is written of a file beside its ranges is as long as what is kept of its clusters says,
/// wherever the page lists stand. The whole file is so where each of its ranges is a cluster, in
/// whatever order.
pub fn files_are_as_long_as_their_clusters_say()
    ensures lists { (sum : ℕ) (book : BookData) (s : ClusterSpan)
        → s.from + s.count ≤ length (book_clusters book)
        → list_len sum book s ≡ page_list_len (map (λ (c : Cluster ClusterMeta). c.meta)
        (take s.count (drop s.from (book_clusters book)))) }
    ensures footer { (staged : Bool) (t : Table) (book : BookData) (most : ℕ)
        → blob_len (length (footer_object t book (list_places staged t book most)))
        ≡ footer_len t (group_count most (length (book_clusters book))) }
    ensures file { (staged : Bool) (t : Table) (book : BookData) (most : ℕ)
        → length (book_clusters book) ≡ length (book_ranges book) → IsBookOf t book → 0 < most
        → file_len t book (list_places staged t book most)
        ≡ whole_len t most (map (λ (c : Cluster ClusterMeta). c.meta) (book_clusters book)) }
{}
