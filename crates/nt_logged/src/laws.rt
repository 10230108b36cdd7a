//! What the steps of a history do to a disk, and what is read where page lists were appended between
//! them.

ghost use Rattle.std.specs.Prelude.{◌≡◌, ◌+◌, ℕ, List, [], ◌∷◌, ◌++◌, length, take, Option, Some, None, slice_get};
ghost use Rattle.std.specs.List.{AllByRecursion, AllZip, concat, flat_map};
ghost use Rattle.nt_lists.specs.Parts.{Part, StandAt, AreBehind, joined_len, part_bytes};
ghost use Rattle.nt_outside.specs.Faults.{Rose};
ghost use Rattle.nt_outside.specs.Log.{Step, Append, FailedAppend, Reserve, Settle};
ghost use Rattle.nt_outside.specs.Reads.{Reads, IsKnown, known_of};
ghost use Rattle.nt_machine.specs.declared.entry.Entry.{Entry};
ghost use Rattle.nt_machine.specs.declared.entry.EntryKind.TheVariants as entry;
ghost use Rattle.nt_machine.specs.Faults.{HasFaults, FaultsRise};
ghost use Rattle.nt_machine.specs.History.{Settled, mine_of, ranges_of};
ghost use Rattle.nt_machine.specs.Legal.{IsLegal, IsOut, AreAsLong, end_after};
ghost use Rattle.nt_logged.specs.Stands.{IsBehind, StandOnceSettled};
ghost use Rattle.nt_logged.specs.Settled.{IsLogged};
ghost use Rattle.nt_logged.specs.Steps.{steps_of_history};
ghost use Rattle.nt_logged.specs.Tails.{IsTail, range_steps, end_after_steps};
ghost use Rattle.nt_logged.specs.Spares.{SparesPlace};
ghost use Rattle.nt_logged.specs.Logs.{IsLogOf, WasWritten, settles_in};

/// No step covers a place before the beginning, and none a range that was handed back before.
pub fn steps_stand<M>()
    ensures behind { (place : ℕ) (history : List (Entry M)) → IsLegal place history
        → AllByRecursion (IsBehind place) (steps_of_history history) }
    ensures settled { (place : ℕ) (history : List (Entry M)) → IsLegal place history
        → StandOnceSettled (steps_of_history history) }
{}

/// Each entry by which a range was settled has its step, with the bytes that the entry tells.
pub fn settled_ranges_are_logged<M>()
    ensures { (place : ℕ) (history : List (Entry M)) → IsLegal place history
        → (k i n : ℕ) (bytes : Option (List ℕ))
        → slice_get history k ≡ Some (record { context = i; kind = entry.Settled n bytes })
        → IsLogged history n bytes }
{}

/// Where an entry of any context has faults, the count at the end rose above that at the beginning.
pub fn faults_are_counted<M>()
    ensures { (least : ℕ) (history : List (Entry M)) (count : ℕ) → FaultsRise least history count
        → (i k : ℕ) (e : Entry M) → slice_get (mine_of history i) k ≡ Some e
        → HasFaults e.kind → Rose least count }
{}

/// What was known before the first step stays, and no step covers it.
pub fn fronts_stand()
    ensures read { (log steps : List Step) (front image : List ℕ) → IsKnown log front
        → IsTail (length front) [] steps → Reads (log ++ steps) image
        → take (length front) image ≡ front }
    ensures spared { (place : ℕ) (steps : List Step) → IsTail place [] steps
        → AllByRecursion (SparesPlace 0 place) steps }
{}

/// Bytes that were appended stand where the file ended then, and no later step covers them.
pub fn what_is_appended_stands()
    ensures read { (log before after : List Step) (bytes image : List ℕ)
        → IsTail (length (known_of log)) [] (before ++ Append bytes ∷ after)
        → Reads (log ++ (before ++ Append bytes ∷ after)) image
        → StandAt image (end_after_steps (length (known_of log)) before) bytes }
    ensures spared { (place : ℕ) (before after : List Step) (bytes : List ℕ)
        → IsTail place [] (before ++ Append bytes ∷ after)
        → AllByRecursion (SparesPlace (end_after_steps place before) (length bytes)) after }
{}

/// The bytes of a range stand in it once it was handed back with them, and no later step covers
/// them, whatever was appended between the steps of the ranges.
pub fn what_is_settled_is_read()
    ensures read { (log before after : List Step) (start len : ℕ) (bytes image : List ℕ)
        → IsTail (length (known_of log)) [] (before ++ Settle start len (Some bytes) ∷ after)
        → StandOnceSettled (range_steps (before ++ Settle start len (Some bytes) ∷ after))
        → Reads (log ++ (before ++ Settle start len (Some bytes) ∷ after)) image
        → StandAt image start bytes }
    ensures spared { (place : ℕ) (before after : List Step) (start len : ℕ) (bytes : List ℕ)
        → IsTail place [] (before ++ Settle start len (Some bytes) ∷ after)
        → StandOnceSettled (range_steps (before ++ Settle start len (Some bytes) ∷ after))
        → AllByRecursion (SparesPlace start len) after }
{}

/// A log grows by each entry that a history gains under the turn: a range is reserved at the end of
/// the file or handed back; faults alone are no step.
pub fn logs_grow<M>()
    ensures fresh { (place : ℕ) → IsLogOf {M = M} place place [] [] [] [] }
    ensures commit { (place end : ℕ) (history : List (Entry M)) (lists : List Part) (torn : List ℕ)
        (steps : List Step) (i n len : ℕ) (meta : M) → IsLogOf place end history lists torn steps
        → IsLogOf place (end + len)
        (history ++ record { context = i; kind = entry.Committed n end len meta } ∷ []) lists torn
        (steps ++ Reserve end len ∷ []) }
    ensures settle { (place end : ℕ) (history : List (Entry M)) (lists : List Part) (torn : List ℕ)
        (steps : List Step) (i n : ℕ) (bytes : Option (List ℕ)) → IsLogOf place end history lists torn steps
        → (is : IsOut (ranges_of history) i n) → AreAsLong bytes is.cluster.len
        → IsLogOf place end (history ++ record { context = i; kind = entry.Settled n bytes } ∷ []) lists torn
        (steps ++ Settle is.cluster.start is.cluster.len bytes ∷ []) }
    ensures spoil { (place end : ℕ) (history : List (Entry M)) (lists : List Part) (torn : List ℕ)
        (steps : List Step) (i n faults : ℕ) → IsLogOf place end history lists torn steps
        → (is : IsOut (ranges_of history) i n)
        → IsLogOf place end (history ++ record { context = i; kind = entry.Spoiled n faults } ∷ []) lists torn
        (steps ++ Settle is.cluster.start is.cluster.len None ∷ []) }
    ensures fault { (place end : ℕ) (history : List (Entry M)) (lists : List Part) (torn : List ℕ)
        (steps : List Step) (i faults : ℕ) → IsLogOf place end history lists torn steps
        → IsLogOf place end (history ++ record { context = i; kind = entry.Faulted faults } ∷ []) lists torn
        steps }
{}

/// It grows by the entries of staged clusters too: a range is reserved at the end of the file for each,
/// and who publishes its ranges changes the history alone.
pub fn staged_logs_grow<M>()
    ensures reserve { (place end : ℕ) (history : List (Entry M)) (lists : List Part) (torn : List ℕ)
        (steps : List Step) (i n len : ℕ) (meta : M) → IsLogOf place end history lists torn steps
        → IsLogOf place (end + len)
        (history ++ record { context = i; kind = entry.Reserved n end len meta } ∷ []) lists torn
        (steps ++ Reserve end len ∷ []) }
    ensures publish { (place end : ℕ) (history : List (Entry M)) (lists : List Part) (torn : List ℕ)
        (steps : List Step) (i : ℕ) (ns : List ℕ) → IsLogOf place end history lists torn steps
        → IsLogOf place end (history ++ record { context = i; kind = entry.Published ns } ∷ []) lists torn
        steps }
{}

/// A log grows by a page list that is appended, and by the append of one that fails.
pub fn logs_gain_lists<M>()
    ensures list { (place end : ℕ) (history : List (Entry M)) (lists : List Part) (torn : List ℕ)
        (steps : List Step) (bytes : List ℕ) → IsLogOf place end history lists torn steps
        → IsLogOf place (end + length bytes) history
        (lists ++ record { place = end; bytes = bytes } ∷ []) torn (steps ++ Append bytes ∷ []) }
    ensures tear { (place end : ℕ) (history : List (Entry M)) (lists : List Part) (torn : List ℕ)
        (steps : List Step) (len : ℕ) → IsLogOf place end history lists torn steps
        → IsLogOf place (end + len) history lists (torn ++ len ∷ []) (steps ++ FailedAppend len ∷ []) }
{}

/// Of such a log each page list is read at its place, and each range that was handed back with its
/// bytes is read as them.
pub fn all_that_is_written_is_read<M>()
    ensures lists { (log : List Step) (end : ℕ) (history : List (Entry M)) (lists : List Part) (torn : List ℕ)
        (steps : List Step) (image : List ℕ) → IsLogOf (length (known_of log)) end history lists torn steps
        → Reads (log ++ steps) image
        → AllByRecursion (λ (p : Part). StandAt image p.place p.bytes) lists }
    ensures ranges { (log : List Step) (end : ℕ) (history : List (Entry M)) (lists : List Part) (torn : List ℕ)
        (steps : List Step) (image : List ℕ) → IsLogOf (length (known_of log)) end history lists torn steps
        → StandOnceSettled (steps_of_history history) → Reads (log ++ steps) image
        → AllByRecursion (λ (p : Part). StandAt image p.place p.bytes) (settles_in (steps_of_history history)) }
    ensures end { (log : List Step) (end : ℕ) (history : List (Entry M)) (lists : List Part) (torn : List ℕ)
        (steps : List Step) (image : List ℕ) → IsLogOf (length (known_of log)) end history lists torn steps
        → Reads (log ++ steps) image → length image ≡ end }
{}

/// Where nothing was appended between the ranges, and each was handed back with its bytes, the file
/// is known: what was known before, and then their bytes.
pub fn settled_ranges_are_known<M>()
    ensures { (log steps : List Step) (front : List ℕ) (history : List (Entry M)) (parts : List (List ℕ))
        → IsKnown log front → IsLegal (length front) history
        → IsLogOf (length front) (end_after (length front) (ranges_of history)) history [] [] steps
        → AllZip (λ part c. c.state ≡ Settled (Some part)) parts (ranges_of history)
        → IsKnown (log ++ steps) (front ++ flat_map (λ part. part) parts) }
{}

/// Where page lists were appended and ranges handed back with their bytes, and these parts leave no
/// gap, the file is known: what was known before, and then their bytes.
pub fn written_parts_are_known<M>()
    ensures { (log steps : List Step) (front : List ℕ) (end : ℕ) (history : List (Entry M)) (lists : List Part)
        (torn : List ℕ) (parts : List Part)
        → IsKnown log front → IsLegal (length front) history
        → IsLogOf (length front) end history lists torn steps
        → AreBehind (length front) parts → length front + joined_len parts ≡ end
        → AllByRecursion (WasWritten lists (ranges_of history)) parts
        → IsKnown (log ++ steps) (front ++ concat (part_bytes parts)) }
{}
