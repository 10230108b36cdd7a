//! What is made.

ghost use Rattle.std.specs.Prelude.{◌≡◌, ◌≤◌, ◌↔◌, IsSome, IfSome};
ghost use Rattle.nt_draws.specs.Making.{max_events, max_seed, AreContexts};

/// What is made: so many events of each of so many contexts, whose numbers go on from a first one.
#[derive(Clone, Copy, Debug, PartialEq, Eq)]
pub struct Making {
    /// From 1 to 64.
    pub contexts: u32,
    /// Of each context, at most 1000000.
    pub events: u32,
    /// The number of the first context, at most 1000000.
    pub seed: u32,
    ghost contexts_range: { AreContexts contexts },
    ghost events_range: { events ≤ max_events },
    ghost seed_range: { seed ≤ max_seed },
}

impl Making {
    /// These numbers, or none where one is out of its range.
    pub fn new(contexts: u32, events: u32, seed: u32) -> Option<Making>
        ensures numbers { IfSome result (λ m. (m.contexts ≡ contexts) × (m.events ≡ events) × (m.seed ≡ seed)) }
        ensures exact { IsSome result ↔ (AreContexts contexts × (events ≤ max_events) × (seed ≤ max_seed)) }
    {
        let fits = (1..=64).contains(&contexts) && events <= 1_000_000 && seed <= 1_000_000;
        if !fits {
            return None;
        }
        Some(Making {
            contexts,
            events,
            seed,
        })
    }
}
