//! Which totals the contexts of a file have.

ghost use Rattle.std.specs.Prelude.{◌≡◌, ◌<◌, ◌≤◌, ℕ, List, [], ◌∷◌, ◌++◌, length, map, replicate, slice_get, slice_index_or};
ghost use Rattle.nt_lists.specs.Chunks.{chunks};
ghost use Rattle.nt_types.specs.TreeData.{TreesData};
ghost use Rattle.nt_machine.specs.Deal.{Uses, IsDeal};
ghost use Rattle.nt_draws.specs.Events.{made_events, events_behind};
ghost use Rattle.nt_generate.specs.Totals.{named_clusters, context_total, totals_of};
ghost use Rattle.nt_generate.specs.Adding.{empty_total, with_named};
ghost use Rattle.nt_generate.specs.MadeTotals.{made_total, made_totals, most_events};

/// In whatever order the chunks of contexts are dealt out, those that come back to each are its own, in their order.
pub fn dealt_chunks_come_back<C>()
    ensures { (chunks : List (List C)) (order : List ℕ) (dealt : List C) (i : ℕ) → Uses order chunks → IsDeal chunks order dealt
        → i < length chunks → named_clusters i order dealt ≡ slice_index_or chunks i [] }
{}

/// Totals of nothing, to which clusters are added one after the other, each to the total of the context that the order names for it, are
/// the totals of these clusters.
pub fn clusters_add_up()
    ensures none { (contexts : ℕ) (order : List ℕ) → replicate contexts empty_total ≡ totals_of contexts order [] }
    ensures next { (contexts : ℕ) (order : List ℕ) (before : List (List TreesData)) (cluster : List TreesData)
        → with_named (slice_get order (length before)) cluster (totals_of contexts order before)
        ≡ totals_of contexts order (before ++ cluster ∷ []) }
{}

/// The totals of events that are made, in whatever order the chunks of their contexts are dealt out.
pub fn made_events_have_totals()
    ensures one { (most events number : ℕ) → 0 < most → events ≤ most_events
        → context_total (chunks most (events_behind events number)) ≡ made_total most events number }
    ensures all { (most contexts events seed : ℕ) (order : List ℕ) (dealt : List (List TreesData)) → 0 < most → events ≤ most_events
        → Uses order (map (chunks most) (made_events contexts events seed))
        → IsDeal (map (chunks most) (made_events contexts events seed)) order dealt
        → totals_of contexts order dealt ≡ made_totals most contexts events seed }
{}
