//! What a crash leaves of a log, wherever it cuts the steps off.

ghost use Rattle.std.specs.Prelude.{◌≡◌, ◌⊎◌, ℕ, List, [], ◌∷◌, ◌++◌, length, get_or};
ghost use Rattle.nt_lists.specs.Parts.{Part};
ghost use Rattle.nt_num.specs.Codes.{unfinished};
ghost use Rattle.nt_num.specs.Faults.{fault};
ghost use Rattle.nt_outside.specs.Log.{Step, Write, FailedWrite, Append, Sync};
ghost use Rattle.nt_outside.specs.Reads.{Reads};
ghost use Rattle.nt_outside.specs.Crash.{crash_of, MayLeave};
ghost use Rattle.nt_outside.specs.Order.{FirstByteLast};
ghost use Rattle.nt_machine.specs.declared.entry.Entry.{Entry};
ghost use Rattle.nt_machine.specs.Legal.{IsLegal};
ghost use Rattle.nt_logged.specs.Logs.{IsLogOf};
ghost use Rattle.nt_file_meaning.specs.Files.{HasDefect};
ghost use Rattle.nt_cuts.specs.Cuts.{ReadsButFirst, LeavesUnfinished, LeavesUnfinishedOr};
ghost use Rattle.nt_cuts.specs.Shut.{AllSpare, StaysShut};

use nt_logged::steps_stand;

/// A file whose first byte is 0, or that has none, isn't finished. So a crash leaves what isn't
/// finished of a file that is shut, and it stays shut by each step that spares its first byte.
pub fn shut_logs_leave_unfinished()
    ensures file { (bytes : List ℕ) → get_or bytes 0 0 ≡ 0 → HasDefect bytes (fault unfinished 0) }
    ensures leaves { (log : List Step) → StaysShut log → LeavesUnfinished log }
    ensures more { (log steps : List Step) → StaysShut log → AllSpare steps → StaysShut (log ++ steps) }
{}

/// A file that is shut stays so while contexts reserve ranges behind its end, whatever they do with
/// them, and while page lists are appended between these steps.
pub fn histories_leave_logs_shut<M>()
    ensures { (place end : ℕ) (history : List (Entry M)) (lists : List Part) (torn : List ℕ)
        (log steps : List Step) (image : List ℕ) → StaysShut log → Reads log image → place ≡ length image
        → IsLegal place history → IsLogOf place end history lists torn steps → StaysShut (log ++ steps) }
{
    steps_stand::<M>();
}

/// Of a file that began with an append, and whose first byte is written over only right behind a
/// sync, a crash leaves what isn't finished, or that byte was written over before, whole or not;
/// right behind that write it leaves what stood there, but maybe for that byte.
pub fn ordered_steps_leave_unfinished()
    ensures order { (byte : ℕ) (bytes : List ℕ) (log : List Step)
        → FirstByteLast (Append (byte ∷ bytes) ∷ log)
        → LeavesUnfinishedOr (λ (left : List ℕ). Unit {0}) (Append (byte ∷ bytes) ∷ log) }
    ensures written { (log : List Step) (byte : ℕ) (left : List ℕ)
        → MayLeave (crash_of ((log ++ Sync ∷ []) ++ Write 0 (byte ∷ []) ∷ [])) left
        → Reads log left ⊎ ReadsButFirst log byte left }
    ensures torn { (log : List Step) (byte : ℕ) (left : List ℕ)
        → MayLeave (crash_of ((log ++ Sync ∷ []) ++ FailedWrite 0 (byte ∷ []) ∷ [])) left
        → Reads log left ⊎ ReadsButFirst log byte left }
{}
