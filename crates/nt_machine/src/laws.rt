//! What a run of the machine leaves, and what a history leaves.

ghost use Rattle.std.specs.Prelude.{◌≡◌, ℕ, ◌+◌, ◌<◌, ◌≤◌, Bool, true, false, List, [], ◌∷◌, ◌++◌, length, slice_index_or, slice_get, slice_set, map, Option, Some, ◌^◌};
ghost use Rattle.std.specs.List.{AllByRecursion, AllZip, fold, flat_map};
ghost use Rattle.nt_machine.specs.declared.entry.Entry.{Entry};
ghost use Rattle.nt_machine.specs.declared.entry.EntryKind.TheVariants as entry;
ghost use Rattle.nt_machine.specs.Deal.{Uses, IsGrouped, times};
ghost use Rattle.nt_machine.specs.Example.{example_blob, example_chunks, example_steps, example_history, example_ranges};
ghost use Rattle.nt_machine.specs.Example.{staged_steps, staged_history, staged_order};
ghost use Rattle.nt_machine.specs.Entering.{HasRanges, IsNextOf, IsHandedBackAs, IsWriteInto, steps_of_entry};
ghost use Rattle.nt_machine.specs.Faults.{HasRisen, HasFaults, FaultsRise};
ghost use Rattle.nt_machine.specs.History.{Settled, Spoiled, Cluster, WrittenChunk, entries_of_chunk, mine_of, ranges_of, clusters_of, order_of, own_of, numbers_of, publisher, publishers_of};
ghost use Rattle.nt_machine.specs.History.{after_entry, IsIdle, Wrote, WroteAll, AreDealt};
ghost use Rattle.nt_machine.specs.Legal.{IsLegal, IsAllowed, IsOut, IsFilledRange, spans_of, ranges_end, end_after};
ghost use Rattle.nt_machine.specs.Machine.{ContextStep, MachineState, Out, IsRun, IsRunFrom, IsInOrder, IsNamedDeal, AreTrue, state_after, after_context_step, contexts_of, range_spans, chunk_names};
ghost use Rattle.nt_machine.specs.Spans.{IsDisjoint};
ghost use Rattle.nt_machine.specs.Staging.{IsStagedKind, IsStagedNext, KeepsStaging};
ghost use Rattle.nt_machine.specs.Told.{IsFrom, StaysSettled, log_of};
ghost use Rattle.nt_machine.specs.Untold.{untold, settles, settled_count, with_bytes};

/// Which bytes and metadata at a place are the blob of a chunk.
pub trait Blobs<C, M> {
    ghost is_blob: { C → ℕ → Option (List ℕ) → M → Type 0 };
}

/// After each step of each run the ranges lie apart, and what is settled is its chunk's blob.
pub fn runs_are_sound<C>()
    ensures begin { (staged : Bool) (chunks : List (List C)) (blob : ℕ → ℕ → ℕ → List ℕ)
        (place : ℕ) (steps more : List ContextStep)
        → IsRun staged chunks blob place (steps ++ more) → IsRun staged chunks blob place steps }
    ensures apart { (staged : Bool) (chunks : List (List C)) (blob : ℕ → ℕ → ℕ → List ℕ)
        (place : ℕ) (steps : List ContextStep) → IsRun staged chunks blob place steps
        → IsDisjoint place (range_spans (state_after staged blob place steps).ranges)
        (state_after staged blob place steps).end }
    ensures settled { (staged : Bool) (chunks : List (List C)) (blob : ℕ → ℕ → ℕ → List ℕ)
        (place : ℕ) (steps : List ContextStep) → IsRun staged chunks blob place steps
        → AreTrue blob (state_after staged blob place steps).ranges }
{}

/// The ranges and the clusters of a run take each context's chunks one by one. Where clusters are
/// not staged, they stand in the order of their ranges.
pub fn runs_keep_order<C>()
    ensures ranges { (staged : Bool) (chunks : List (List C)) (blob : ℕ → ℕ → ℕ → List ℕ)
        (place : ℕ) (steps : List ContextStep) → IsRun staged chunks blob place steps
        → IsInOrder (chunk_names (state_after staged blob place steps).ranges) }
    ensures clusters { (staged : Bool) (chunks : List (List C)) (blob : ℕ → ℕ → ℕ → List ℕ)
        (place : ℕ) (steps : List ContextStep) → IsRun staged chunks blob place steps
        → IsInOrder (state_after staged blob place steps).order }
    ensures same { (chunks : List (List C)) (blob : ℕ → ℕ → ℕ → List ℕ)
        (place : ℕ) (steps : List ContextStep) → IsRun false chunks blob place steps
        → (state_after false blob place steps).order
        ≡ chunk_names (state_after false blob place steps).ranges }
{}

/// A run that ends in a close has used all chunks, and its clusters are these chunks, dealt out in
/// their order. Where clusters are staged, those of each context stand together.
pub fn closed_runs_use_all<C>()
    ensures uses { (staged : Bool) (chunks : List (List C)) (blob : ℕ → ℕ → ℕ → List ℕ)
        (place : ℕ) (steps : List ContextStep) → IsRun staged chunks blob place steps
        → (state_after staged blob place steps).closed ≡ true
        → Uses (contexts_of (state_after staged blob place steps).order) chunks }
    ensures deals { (staged : Bool) (chunks : List (List C)) (blob : ℕ → ℕ → ℕ → List ℕ)
        (place : ℕ) (steps : List ContextStep) → IsRun staged chunks blob place steps
        → (state_after staged blob place steps).closed ≡ true
        → IsNamedDeal chunks (state_after staged blob place steps).order }
    ensures grouped { (chunks : List (List C)) (blob : ℕ → ℕ → ℕ → List ℕ)
        (place : ℕ) (steps : List ContextStep) → IsRun true chunks blob place steps
        → IsGrouped (contexts_of (state_after true blob place steps).order) }
{}

/// Where each context's own entries are those of its chunks, and no other context wrote, all
/// clusters are these chunks, dealt out in the order of the commits. Where clusters are staged,
/// those of each context stand together.
pub fn chunks_are_dealt<C, M, B: Blobs<C, M>>()
    ensures dealt { (staged : Bool) (chunks : List (List C)) (history : List (Entry M))
        → ((i : ℕ) → i < length chunks
        → WroteAll B.is_blob staged i (slice_index_or chunks i []) (mine_of history i))
        → ((i : ℕ) → length chunks ≤ i → IsIdle (mine_of history i))
        → AreDealt B.is_blob chunks (clusters_of staged history) }
    ensures grouped { (history : List (Entry M)) → KeepsStaging true history
        → IsGrouped (order_of (clusters_of true history)) }
{}

/// A context that writes one chunk more has written all of them.
pub fn contexts_write_on<C, M, B: Blobs<C, M>>()
    ensures { (staged : Bool) (i : ℕ) (chunks : List C) (entries : List (Entry M)) (chunk : C)
        (w : WrittenChunk M) → Wrote B.is_blob staged i chunks entries
        → B.is_blob chunk w.start w.bytes w.meta
        → Wrote B.is_blob staged i (chunks ++ chunk ∷ []) (entries ++ entries_of_chunk staged i w) }
{}

/// Each cluster is the range of its number, and there are no more clusters than ranges.
pub fn clusters_are_ranges<M>()
    ensures named { (staged : Bool) (place : ℕ) (history : List (Entry M)) → IsLegal place history
        → AllByRecursion (λ (c : Cluster M). slice_get (ranges_of history) c.number ≡ Some c)
        (clusters_of staged history) }
    ensures few { (staged : Bool) (history : List (Entry M)) → KeepsStaging staged history
        → length (clusters_of staged history) ≤ length (ranges_of history) }
{}

/// Staged clusters stay as they are: who publishes puts all its ranges behind them, and no other
/// entry changes them. All of them are settled, and a context publishes at most once.
pub fn staged_clusters_stay<M>()
    ensures grow { (place : ℕ) (history : List (Entry M)) (e : Entry M) → IsLegal place history
        → KeepsStaging true history → IsAllowed place (ranges_of history) e
        → IsStagedNext true (publishers_of history) e
        → clusters_of true (history ++ e ∷ []) ≡ clusters_of true history
        ++ flat_map (own_of (ranges_of history)) (publisher e.context e.kind) }
    ensures settled { (place : ℕ) (history : List (Entry M)) → IsLegal place history
        → KeepsStaging true history → AllByRecursion IsFilledRange (clusters_of true history) }
    ensures once { (staged : Bool) (history : List (Entry M)) (i : ℕ) → KeepsStaging staged history
        → times i (publishers_of history) ≤ 1 }
{}

/// The ranges of a legal history lie apart, from its beginning to its end.
pub fn legal_ranges_are_apart<M>()
    ensures { (place : ℕ) (history : List (Entry M)) → IsLegal place history
        → IsDisjoint place (spans_of (ranges_of history)) (ranges_end place (ranges_of history)) }
{}

/// A legal history grows by an entry that is allowed, and goes on as staged ones do or the others.
pub fn histories_grow<M>()
    ensures legal { (place : ℕ) (history : List (Entry M)) (e : Entry M) → IsLegal place history
        → IsAllowed place (ranges_of history) e → IsLegal place (history ++ e ∷ []) }
    ensures ranges { (history : List (Entry M)) (e : Entry M)
        → ranges_of (history ++ e ∷ []) ≡ after_entry (ranges_of history) e }
    ensures staging { (staged : Bool) (history : List (Entry M)) (e : Entry M)
        → KeepsStaging staged history → IsStagedNext staged (publishers_of history) e
        → KeepsStaging staged (history ++ e ∷ []) }
    ensures publishers { (history : List (Entry M)) (e : Entry M)
        → publishers_of (history ++ e ∷ []) ≡ publishers_of history ++ publisher e.context e.kind }
{}

/// What is allowed next in a legal history is what the machine may do next: the entry's steps are
/// allowed one after the other, and leave the ranges that the entry leaves. Who commits or reserves
/// has to have a chunk left, of whose blob the range is; who settles has to have written, who spoils
/// to have failed. A write before it is allowed, and no history tells it, so others may have written
/// and not settled.
pub fn entries_are_steps<C, M>()
    ensures steps { (staged : Bool) (chunks : List (List C)) (blob : ℕ → ℕ → ℕ → List ℕ) (place : ℕ)
        (history : List (Entry M)) (s : MachineState) (e : Entry M)
        → IsLegal place history → HasRanges place s (ranges_of history) → IsStagedKind staged e.kind
        → IsAllowed place (ranges_of history) e → IsNextOf chunks blob s e.context e.kind
        → IsRunFrom staged chunks blob s (steps_of_entry e)
        × HasRanges place (fold (after_context_step staged blob) s (steps_of_entry e))
        (after_entry (ranges_of history) e) }
    ensures written { (staged : Bool) (chunks : List (List C)) (blob : ℕ → ℕ → ℕ → List ℕ) (place : ℕ)
        (history : List (Entry M)) (s : MachineState) (step : ContextStep) (i n : ℕ)
        → IsLegal place history → HasRanges place s (ranges_of history)
        → IsOut (ranges_of history) i n → IsHandedBackAs s n Out → IsWriteInto i n step
        → IsRunFrom staged chunks blob s (step ∷ [])
        × HasRanges place (after_context_step staged blob s step) (ranges_of history) }
{}

/// A range that is settled or spoiled changes in its place, and no other does.
pub fn ranges_are_handed_back<M>()
    ensures settled { (place : ℕ) (history : List (Entry M)) (i n : ℕ) (bytes : Option (List ℕ))
        → IsLegal place history → (is : IsOut (ranges_of history) i n)
        → ranges_of (history ++ record { context = i; kind = entry.Settled n bytes } ∷ [])
        ≡ slice_set (ranges_of history) n (record is.cluster { state = Settled bytes }) }
    ensures spoiled { (place : ℕ) (history : List (Entry M)) (i n faults : ℕ)
        → IsLegal place history → (is : IsOut (ranges_of history) i n)
        → ranges_of (history ++ record { context = i; kind = entry.Spoiled n faults } ∷ [])
        ≡ slice_set (ranges_of history) n (record is.cluster { state = Spoiled faults }) }
{}

/// No step of the disk covers a place below the beginning, and none a range that was handed back.
pub fn what_is_settled_stands<M>()
    ensures from { (place : ℕ) (history : List (Entry M))
        → IsLegal place history → IsFrom place (log_of history) }
    ensures stands { (place : ℕ) (history : List (Entry M))
        → IsLegal place history → StaysSettled (log_of history) }
{}

/// An own entry with faults shows as a count that rose.
pub fn faults_show<M>()
    ensures { (least : ℕ) (history : List (Entry M)) (count : ℕ)
        → FaultsRise least history count → count < 2 ^ 64 → (i k : ℕ) (e : Entry M)
        → slice_get (mine_of history i) k ≡ Some e → HasFaults e.kind → HasRisen least count }
{}

/// A history has the same ranges with bytes as without, apart from the bytes.
pub fn bytes_change_no_range<M>()
    ensures same { (history : List (Entry M)) (told : List (Option (List ℕ)))
        → map untold (ranges_of (with_bytes history told)) ≡ map untold (ranges_of history) }
    ensures order { (staged : Bool) (history : List (Entry M)) (told : List (Option (List ℕ)))
        → order_of (clusters_of staged (with_bytes history told)) ≡ order_of (clusters_of staged history) }
    ensures end { (place : ℕ) (history : List (Entry M)) (told : List (Option (List ℕ)))
        → end_after place (ranges_of (with_bytes history told))
        ≡ end_after place (ranges_of history) }
    ensures out { (history : List (Entry M)) (told : List (Option (List ℕ))) (i n : ℕ)
        → IsOut (ranges_of (with_bytes history told)) i n → IsOut (ranges_of history) i n }
{}

/// Who published is the same with bytes as without, and so is how clusters are staged.
pub fn bytes_change_no_staging<M>()
    ensures publishers { (history : List (Entry M)) (told : List (Option (List ℕ)))
        → publishers_of (with_bytes history told) ≡ publishers_of history }
    ensures staging { (staged : Bool) (history : List (Entry M)) (told : List (Option (List ℕ)))
        → KeepsStaging staged history → KeepsStaging staged (with_bytes history told) }
{}

/// A history with bytes grows as the one without does: a settled range takes the next bytes.
pub fn bytes_are_told_in_turn<M>()
    ensures settled { (history : List (Entry M)) (told : List (Option (List ℕ))) (i n : ℕ)
        (before bytes : Option (List ℕ)) → length told ≡ settled_count history
        → with_bytes (history ++ record { context = i; kind = entry.Settled n before } ∷ [])
        (told ++ bytes ∷ [])
        ≡ with_bytes history told ++ record { context = i; kind = entry.Settled n bytes } ∷ [] }
    ensures other { (history : List (Entry M)) (told : List (Option (List ℕ))) (e : Entry M)
        → settles e.kind ≡ 0
        → with_bytes (history ++ e ∷ []) told ≡ with_bytes history told ++ e ∷ [] }
    ensures count { (history : List (Entry M)) (e : Entry M)
        → settled_count (history ++ e ∷ []) ≡ settled_count history + settles e.kind }
{}

/// There are runs that close and histories that are legal: two contexts commit 0, 1, 1 and close.
pub fn worked_examples_hold()
    ensures run { IsRun false example_chunks example_blob 10 example_steps }
    ensures order { contexts_of (state_after false example_blob 10 example_steps).order
        ≡ 0 ∷ 1 ∷ 1 ∷ [] }
    ensures legal { IsLegal 100 example_history }
    ensures ranges { ranges_of example_history ≡ example_ranges }
{}

/// There are staged ones too: three ranges are reserved by contexts 0, 1 and 1, and context 1
/// publishes first.
pub fn staged_examples_hold()
    ensures run { IsRun true example_chunks example_blob 10 staged_steps }
    ensures order { contexts_of (state_after true example_blob 10 staged_steps).order
        ≡ 1 ∷ 1 ∷ 0 ∷ [] }
    ensures legal { IsLegal 100 staged_history }
    ensures staging { KeepsStaging true staged_history }
    ensures clusters { numbers_of (clusters_of true staged_history) ≡ staged_order }
{}
