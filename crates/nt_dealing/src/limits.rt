//! Which limit the file of all chunks passes, and what it has of them.

ghost use Rattle.std.specs.Prelude.{◌≡◌, ◌<◌, ◌≤◌, ℕ, Bool, List, [], ◌++◌, Some, map, slice_get, slice_index_or, IsPermutation};
ghost use mathlib.Core.List.{IsPrefix};
ghost use Rattle.nt_types.specs.ShapeData.{MemberData};
ghost use Rattle.nt_types.specs.TreeData.{TreesData};
ghost use Rattle.nt_types.specs.Rules.{AreFields};
ghost use Rattle.nt_grammar.specs.Table.{Table};
ghost use Rattle.nt_grammar.specs.Rows.{Rows};
ghost use Rattle.nt_machine.specs.declared.entry.Entry.{Entry};
ghost use Rattle.nt_machine.specs.History.{Cluster};
ghost use Rattle.nt_turn.specs.Pass.{PassState, Closes};
ghost use Rattle.nt_book.specs.declared.meta.ClusterMeta.{ClusterMeta};
ghost use Rattle.nt_book.specs.declared.params.Params.{Params};
ghost use Rattle.nt_book.specs.declared.limits.LimitError.{LimitError};
ghost use Rattle.nt_book.specs.Books.{BookData, book_clusters};
ghost use Rattle.nt_book.specs.Kept.{IsBookKept};
ghost use Rattle.nt_commit.specs.declared.locked.Birth.{Birth};
ghost use Rattle.nt_commit.specs.Locked.{IsInStep, birth_of, book_of_birth, context_of, history_of_locked, locked_by};
ghost use Rattle.nt_dealing.specs.Begun.{IsBornFor};
ghost use Rattle.nt_dealing.specs.Lengths.{whole_len};
ghost use Rattle.nt_dealing.specs.Texts.{joined_chunks, chunks_of, all_chunks};
ghost use Rattle.nt_dealing.specs.Written.{HaveCommitted};
ghost use Rattle.nt_dealing.specs.Dealt.{AreChunksDealt};
ghost use Rattle.nt_dealing.specs.Limits.{AreKeptOf, AreCountedOf, IsOver, WholeFits, IsOverBy, NextPasses};
ghost use Rattle.nt_dealing.specs.Failing.{CommitsFit, ChunkPassesBy, committed_chunks};

use nt_outside::Disk;

/// Chunks that were dealt out are all chunks of the contexts, in another order, and what is kept of
/// each makes the file as long as in any order.
pub fn dealt_chunks_are_all_chunks()
    ensures { (staged : Bool) (t : Table) (page most : ℕ) (chunks : List (List (List TreesData)))
        (book : BookData) (ranges : List (List ℕ))
        (is : AreChunksDealt staged t page chunks book ranges) → IsBookKept book
        → IsPermutation is.dealt (joined_chunks chunks)
        × AreKeptOf t page is.dealt (map (λ (c : Cluster ClusterMeta). c.meta) (book_clusters book))
        × ((metas : List ClusterMeta) × AreKeptOf t page (joined_chunks chunks) metas
        × (whole_len t most metas
        ≡ whole_len t most (map (λ (c : Cluster ClusterMeta). c.meta) (book_clusters book)))) }
{}

/// The file of some chunks is no longer than that of all, whichever stand behind them; and a file of more clusters is no shorter.
pub fn whole_files_are_longest()
    ensures chunks { (fields : List MemberData) (plain : Bool) (t : Table) (page most : ℕ)
        (chunks some others : List (List TreesData)) (metas : List ClusterMeta)
        → Rows fields plain t → 0 < most → IsPermutation (some ++ others) chunks
        → AreKeptOf t page some metas → (all : List ClusterMeta) × AreCountedOf t page chunks all
        × (whole_len t most metas ≤ whole_len t most all) }
    ensures clusters { (t : Table) (most : ℕ) (metas more : List ClusterMeta) → 0 < most
        → whole_len t most metas ≤ whole_len t most (metas ++ more) }
{}

/// Chunks that fit pass no limit.
pub fn whole_files_pass_no_limit()
    ensures { (t : Table) (p : Params) (chunks : List (List TreesData)) (reached limit : ℕ)
        → WholeFits t p chunks → IsOver t p chunks reached limit → ⊥ }
{}

/// Where the next chunk of a context passes a limit behind what others have committed, or the page
/// list does that comes before it, the file of all chunks passes it, in whatever order they are
/// committed, and that chunk passes it.
pub fn next_chunks_pass_limits_of_all<D: Disk>()
    ensures { (birth : Birth D) (disk : D) (book : BookData)
        (first : PassState (Entry ClusterMeta) (Birth D)) (fields : List MemberData) (t : Table)
        (p : Params) (texts : List (List ℕ)) (i : ℕ) (own seen : List (Entry ClusterMeta))
        (error : LimitError) → AreFields fields → Rows fields p.plain t
        → Closes (history_of_locked D.state) birth_of context_of first (locked_by birth disk book)
        → IsInStep D.state (locked_by birth disk book) → IsBornFor D.state birth t p
        → HaveCommitted t p.page (chunks_of p.cluster fields texts) first.number first.own first.kept
        → slice_get first.kept i ≡ Some (i, own) → IsPrefix seen first.seen
        → (next : NextPasses (book_of_birth D.state birth []) t p.page
        (slice_index_or (chunks_of p.cluster fields texts) i []) own seen error)
        → IsOverBy t p (all_chunks p.cluster fields texts) error
        × ChunkPassesBy t p next.chunk error }
{}

/// The chunks that contexts committed pass no limit of a commit, in whatever order they are committed.
pub fn committed_chunks_fit<D: Disk>()
    ensures fit { (birth : Birth D) (disk : D) (book : BookData)
        (first : PassState (Entry ClusterMeta) (Birth D)) (t : Table) (p : Params)
        (chunks : List (List (List TreesData)))
        → Closes (history_of_locked D.state) birth_of context_of first (locked_by birth disk book)
        → IsInStep D.state (locked_by birth disk book) → IsBornFor D.state birth t p
        → HaveCommitted t p.page chunks first.number first.own first.kept
        → CommitsFit t p (committed_chunks chunks first.kept) }
    ensures front { (t : Table) (p : Params) (some others : List (List TreesData))
        → CommitsFit t p (some ++ others) → CommitsFit t p some }
{}
