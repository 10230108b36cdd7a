//! Laws of logs: what one reads as, and what a crash leaves of it.

ghost use Rattle.std.specs.Prelude.{◌≡◌, ◌↔◌, ◌++◌, ◌∷◌, [], ℕ, List, length};
ghost use Rattle.nt_outside.specs.Log.{Step, Sync};
ghost use Rattle.nt_outside.specs.Reads.{Reads, IsKnown, known_of};
ghost use Rattle.nt_outside.specs.Crash.{crash_of, MayLeave};
ghost use Rattle.nt_outside.specs.Order.{FirstByteLast, MayFollow};
ghost use Rattle.nt_outside.specs.Laws.{Overwrites, Settling, Lengthens};

/// Where every byte of a log is known, exactly one list of bytes reads it.
pub fn known_logs_read_once()
    ensures reads { (log : List Step) (bytes : List ℕ) → IsKnown log bytes → Reads log bytes }
    ensures once { (log : List Step) (bytes : List ℕ) (other : List ℕ) → IsKnown log bytes → Reads log other → other ≡ bytes }
{}

/// Exactly what a crash may leave after one more step, by the kind of the step. After a sync it leaves just what the log reads as.
pub fn crashes_follow_steps()
    ensures syncs { (log : List Step) (bytes : List ℕ) → MayLeave (crash_of (log ++ Sync ∷ [])) bytes ↔ Reads log bytes }
    ensures appends { (log : List Step) → Lengthens log }
    ensures writes { (log : List Step) → Overwrites log }
    ensures settles { (log : List Step) → Settling log }
{}

/// A log in order stays so by each step that may follow it.
pub fn steps_keep_order()
    ensures { (log : List Step) (step : Step) → FirstByteLast log → MayFollow log step → FirstByteLast (log ++ step ∷ []) }
{}
