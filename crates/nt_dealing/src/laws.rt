//! What a committer hands back is the steps of one history, and its contexts' chunks, dealt out.

ghost use Rattle.std.specs.Prelude.{List};
ghost use Rattle.nt_types.specs.TreeData.{TreesData};
ghost use Rattle.nt_grammar.specs.Table.{Table};
ghost use Rattle.nt_machine.specs.declared.entry.Entry.{Entry};
ghost use Rattle.nt_turn.specs.Pass.{PassState, Closes};
ghost use Rattle.nt_book.specs.declared.meta.ClusterMeta.{ClusterMeta};
ghost use Rattle.nt_book.specs.declared.params.Params.{Params};
ghost use Rattle.nt_book.specs.Books.{BookData};
ghost use Rattle.nt_book.specs.Kept.{IsBookKept};
ghost use Rattle.nt_commit.specs.declared.locked.Birth.{Birth};
ghost use Rattle.nt_commit.specs.Locked.{IsInStep, birth_of, context_of, history_of_locked, locked_by};
ghost use Rattle.nt_dealing.specs.Begun.{IsBornFor};
ghost use Rattle.nt_dealing.specs.Written.{HaveWritten};
ghost use Rattle.nt_dealing.specs.Dealt.{FillsBehind, IsDealtOut};
ghost use Rattle.nt_outside.specs.Held.{BecomesSome};

use nt_finished::filled_files_are_known;
use nt_logged::fronts_stand;
use nt_outside::Disk;

/// However contexts interleave: where each wrote its chunks, the clusters of the book that their
/// committer hands back are these chunks, dealt out in the commit order, those of each context
/// together where clusters are staged; no page list failed, and the disk holds their blobs behind what
/// it held before, with the page lists that the book notes.
pub fn commits_are_dealt<D: Disk>()
    ensures { (birth : Birth D) (disk : D) (book : BookData)
        (first : PassState (Entry ClusterMeta) (Birth D)) (t : Table) (p : Params)
        (chunks : List (List (List TreesData)))
        → Closes (history_of_locked D.state) birth_of context_of first (locked_by birth disk book)
        → IsInStep D.state (locked_by birth disk book) → IsBookKept book → IsBornFor D.state birth t p
        → HaveWritten (D.state birth.begun).held t p.page p.staged chunks first.number first.own first.kept
        → IsDealtOut t p chunks book (D.state birth.begun).held (D.state disk).held }
{
    fronts_stand();
    filled_files_are_known();
}

/// Whatever contexts did, the disk has the steps of one legal history behind those that it had when
/// it was begun, with page lists between them, and what stood there then stays where it was told.
pub fn histories_fill<D: Disk>()
    ensures { (birth : Birth D) (disk : D) (book : BookData)
        → IsInStep D.state (locked_by birth disk book)
        → BecomesSome (D.state birth.begun).held (D.state disk).held
        (FillsBehind (D.state birth.begun).end) }
{
    fronts_stand();
}
