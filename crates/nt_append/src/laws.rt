//! The laws of the parts that stand behind each other while clusters are put behind a book.

ghost use Rattle.std.specs.Prelude.{◌≡◌, ℕ, ◌++◌, ◌∷◌, [], List, length};
ghost use Rattle.nt_grammar.specs.Table.{Table};
ghost use Rattle.nt_book.specs.declared.meta.ClusterMeta.{ClusterMeta};
ghost use Rattle.nt_book.specs.Books.{BookData, book_ranges};
ghost use Rattle.nt_book.specs.Kept.{IsBookKept};
ghost use Rattle.nt_lists.specs.Parts.{part_bytes};
ghost use Rattle.nt_layout.specs.Headers.{header_sum};
ghost use Rattle.nt_layout.specs.Beside.{HasListsBeside, parts_so_far};
ghost use Rattle.nt_append.specs.Appending.{AreSizesNoted, GainsCluster, due_blobs, with_due_list};

/// With one cluster more, and the page list that was due, the page lists of a book stand beside its
/// clusters, each noted with its size, and the parts of its file go on by just what is appended.
pub fn appended_parts_go_on()
    ensures beside { (t : Table) (most : ℕ) (meta : ClusterMeta) (old new : BookData) → IsBookKept old
        → HasListsBeside t most old → GainsCluster meta (with_due_list old) new → HasListsBeside t most new }
    ensures sizes { (t : Table) (most : ℕ) (meta : ClusterMeta) (old new : BookData) → IsBookKept old
        → HasListsBeside t most old → GainsCluster meta (with_due_list old) new
        → AreSizesNoted t most old → AreSizesNoted t most new }
    ensures parts { (t : Table) (most : ℕ) (meta : ClusterMeta) (old new : BookData)
        (ranges : List (List ℕ)) (range : List ℕ) → IsBookKept old → IsBookKept new
        → HasListsBeside t most old → GainsCluster meta (with_due_list old) new
        → length ranges ≡ length (book_ranges old)
        → part_bytes (parts_so_far t new most (ranges ++ range ∷ []))
        ≡ part_bytes (parts_so_far t old most ranges) ++ (due_blobs old ++ range ∷ []) }
{}

/// Columns that are added to a book change none of its page lists, nor the size of any, and no part of
/// its file, if the header stays.
pub fn added_columns_change_no_part()
    ensures beside { (t u : Table) (most : ℕ) (old new : BookData) (more : List ℕ) → IsBookKept old
        → IsBookKept new → HasListsBeside t most old → header_sum u ≡ header_sum t
        → new ≡ record old { firsts = old.firsts ++ more } → HasListsBeside u most new }
    ensures sizes { (t u : Table) (most : ℕ) (old new : BookData) (more : List ℕ) → IsBookKept old
        → IsBookKept new → HasListsBeside t most old → header_sum u ≡ header_sum t
        → new ≡ record old { firsts = old.firsts ++ more } → AreSizesNoted t most old → AreSizesNoted u most new }
    ensures parts { (t u : Table) (most : ℕ) (old new : BookData) (more : List ℕ)
        (ranges : List (List ℕ)) → IsBookKept old → IsBookKept new → HasListsBeside t most old
        → header_sum u ≡ header_sum t → new ≡ record old { firsts = old.firsts ++ more }
        → parts_so_far u new most ranges ≡ parts_so_far t old most ranges }
{}
