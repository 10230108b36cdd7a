//! What a crash leaves of a file, wherever it cuts the steps off.

ghost use Rattle.std.specs.Prelude.{◌≡◌, ℕ, Bool, List};
ghost use Rattle.nt_types.specs.TreeData.{TreesData};
ghost use Rattle.nt_outside.specs.Log.{Step};
ghost use Rattle.nt_outside.specs.Reads.{IsKnown};
ghost use Rattle.nt_outside.specs.Held.{Held, nothing_held};
ghost use Rattle.nt_container.specs.Spelling.{begun};
ghost use Rattle.nt_grammar.specs.Table.{Table};
ghost use Rattle.nt_grammar.specs.ReadingBack.{IsDescribed};
ghost use Rattle.nt_book.specs.Books.{BookData};
ghost use Rattle.nt_file_meaning.specs.Files.{Means};
ghost use Rattle.nt_layout.specs.Headers.{header_blob};
ghost use Rattle.nt_layout.specs.Finished.{finished};
ghost use Rattle.nt_layout.specs.Laid.{Measures, AreMeasures};
ghost use Rattle.nt_finished.specs.Filled.{IsArrangedBook};
ghost use Rattle.nt_close.specs.Steps.{IsBegunSoFar, closed_on, IsClosedSoFar};
ghost use Rattle.nt_close.specs.Filled.{filled_file, closing_tail, closing_front};
ghost use Rattle.nt_cuts.specs.Cuts.{LeavesUnfinished, LeavesUnfinishedOr, LeavesOnly};
ghost use Rattle.nt_cuts.specs.Shut.{StaysShut};
ghost use Rattle.nt_crash.specs.Fillings.{IsFilling, IsFilled, IsFilledWith, IsWrittenSoFar};

use nt_book::ClusterMeta;
use nt_finished::{
    arranged_files_are_laid, filled_files_are_known, finished_files_mean_their_entries,
};
use nt_logged::steps_stand;

/// While a file is begun, and while contexts fill it, whatever they do, a crash leaves what isn't
/// finished.
pub fn filling_leaves_unfinished()
    ensures beginning { (t : Table) (left : Held)
        → IsBegunSoFar (begun 0 0 0) (header_blob t) nothing_held left → LeavesUnfinished left.log }
    ensures filling { (t : Table) (log : List Step) → IsFilling t log → LeavesUnfinished log }
{
    steps_stand::<ClusterMeta>();
}

/// A file whose ranges are all settled is shut, and its log tells each byte of them and of the page
/// lists between them: so what `close` of nt_close says of crashes holds of it. While it is closed, a
/// crash leaves what isn't finished, or its first byte was written over before, whole or not, and it
/// may leave the finished file. Once it is closed, a crash leaves just that.
pub fn closing_leaves_unfinished_or_finished()
    ensures filled { (staged : Bool) (t : Table) (most : ℕ) (book : BookData) (ranges : List (List ℕ))
        (log : List Step) → IsArrangedBook staged t most book ranges → IsFilled staged t most book ranges log
        → StaysShut log × IsKnown log (filled_file staged t book most ranges) }
    ensures closing { (staged : Bool) (t : Table) (book : BookData) (most : ℕ) (ranges : List (List ℕ))
        (h left : Held) → IsArrangedBook staged t most book ranges → IsFilled staged t most book ranges h.log
        → IsClosedSoFar (closing_tail staged t book most) (closing_front staged t book most) h left
        → LeavesUnfinishedOr (λ bytes. bytes ≡ finished staged t book most ranges) left.log }
    ensures closed { (staged : Bool) (t : Table) (book : BookData) (most : ℕ) (ranges : List (List ℕ)) (h : Held)
        → IsArrangedBook staged t most book ranges → IsFilled staged t most book ranges h.log
        → LeavesOnly (λ bytes. bytes ≡ finished staged t book most ranges)
        (closed_on (closing_tail staged t book most) (closing_front staged t book most) h).log }
{
    steps_stand::<ClusterMeta>();
    filled_files_are_known();
}

/// So a crash never leaves a file that is read and lacks entries, however far it is written: it
/// isn't finished, or it means its schema and the entries of all its clusters.
pub fn crashes_leave_all_entries_or_none()
    ensures written { (t : Table) (clusters : List (List TreesData)) (m : Measures)
        (book : BookData) (left : Held)
        → IsDescribed t → AreMeasures m → IsWrittenSoFar t clusters m book left
        → LeavesUnfinishedOr (λ bytes. Means bytes t clusters) left.log }
    ensures closed { (t : Table) (clusters : List (List TreesData)) (m : Measures)
        (book : BookData) (h : Held)
        → IsDescribed t → AreMeasures m → IsFilledWith t clusters m book h.log
        → LeavesOnly (λ bytes. Means bytes t clusters)
        (closed_on (closing_tail m.staged t book m.group) (closing_front m.staged t book m.group) h).log }
{
    steps_stand::<ClusterMeta>();
    filled_files_are_known();
    arranged_files_are_laid();
    finished_files_mean_their_entries();
}
