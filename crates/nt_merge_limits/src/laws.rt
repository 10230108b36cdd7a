//! The laws of the limits that a file of given clusters passes.

ghost use Rattle.std.specs.Prelude.{◌≡◌, ◌<◌, ◌≤◌, ℕ, Bool, List, [], ◌∷◌, ◌++◌, map, length, Some, Contains};
ghost use Rattle.std.specs.List.{AllByRecursion};
ghost use Rattle.nt_grammar.specs.Table.{Table};
ghost use Rattle.nt_book.specs.declared.limits.LimitError.{LimitError};
ghost use Rattle.nt_book.specs.declared.meta.ClusterMeta.{ClusterMeta};
ghost use Rattle.nt_book.specs.declared.params.Params.{Params};
ghost use Rattle.nt_book.specs.Books.{BookData, book_ranges, book_clusters, book_end};
ghost use Rattle.nt_book.specs.Limiting.{limit_error_with};
ghost use Rattle.nt_commit.specs.Appending.{due_bytes};
ghost use Rattle.nt_close.specs.Passing.{first_passed, measures_of, passed_by_begin};
ghost use Rattle.nt_layout.specs.Headers.{header_sum};
ghost use Rattle.nt_layout.specs.Finished.{spans, list_places, footer_object, file_len};
ghost use Rattle.nt_layout.specs.Laid.{IsWithin};
ghost use Rattle.nt_pagelists.specs.Blobs.{blob_len};
ghost use Rattle.nt_pagelists.specs.Objects.{ClusterSpan, list_len};
ghost use Rattle.nt_merge_limits.specs.Limits.{kept_metas, MergeOver, MergeFits, MergeOverBy, IsBookBeside};

use nt_dealing::whole_files_are_longest;

/// What a file passes where it is begun, where a cluster is put behind others, with the page list that
/// is due, and where it is closed, with the page lists of some groups, the whole file of its clusters
/// passes.
pub fn merges_pass_what_their_fronts_pass()
    ensures begun { (t : Table) (p : Params) (metas : List ClusterMeta) (error : LimitError) → 0 < p.group
        → passed_by_begin p.limits t ≡ Some error → MergeOverBy t p metas error }
    ensures appended { (t : Table) (p : Params) (book : BookData) → IsBookBeside t p book
        → (meta : ClusterMeta) (more : List ClusterMeta) (error : LimitError)
        → limit_error_with book.limits (book_end book) (length (book_ranges book)) meta.len (length (due_bytes book)) ≡ Some error
        → MergeOverBy t p (kept_metas book ++ meta ∷ more) error }
    ensures closed { (t : Table) (p : Params) (book : BookData) → IsBookBeside t p book
        → (staged : Bool) (ss : List ClusterSpan) (error : LimitError)
        → ((s : ClusterSpan) → Contains ss s → Contains (spans book p.group) s)
        → first_passed p.limits (map (list_len (header_sum t) book) ss
        ++ blob_len (length (footer_object t book (list_places staged t book p.group))) ∷ [])
        (file_len t book (list_places staged t book p.group)) ≡ Some error
        → MergeOverBy t p (kept_metas book) error }
{
    whole_files_are_longest();
}

/// A file that is within the limits, with page lists beside its clusters, fits, where its clusters are
/// no longer than a range may get and not too many.
pub fn merges_within_limits_fit()
    ensures { (t : Table) (p : Params) (book : BookData) → IsBookBeside t p book → IsWithin t (measures_of p) book
        → AllByRecursion (λ (m : ClusterMeta). m.len ≤ p.limits.range) (kept_metas book)
        → length (book_clusters book) ≤ p.limits.clusters → MergeFits t p (kept_metas book) }
{}

/// A file that fits passes no limit.
pub fn merges_that_fit_pass_none()
    ensures { (t : Table) (p : Params) (metas : List ClusterMeta) (reached limit : ℕ) → MergeFits t p metas
        → MergeOver t p metas reached limit → ⊥ }
{}
