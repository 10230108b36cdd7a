//! A count of calls that several objects share.

ghost use Rattle.std.specs.Prelude.{◌≡◌, Option, Some, None, IsTrue, IsSome, IfOk};
ghost use Rattle.nt_memory.specs.Hits.{Hits, hits_of};

use std::alloc::{AllocError, Global};
use std::marker::Model;
use std::sync::Arc;
use std::sync::atomic::{AtomicU64, Ordering};

/// Which calls are to fail by their number, from 1, over all objects that count in one word. Of the word itself nothing is proved:
/// only which numbers are to fail, and that no call fails by its number where nothing is counted.
#[derive(Drop)]
pub struct Trip {
    word: Option<Arc<AtomicU64, Global>>,
    from: u64,
    to: u64,
}

impl Model for Trip {
    ghost Value = { Option Hits };

    ghost view = { λ t. hits_of t.word t.from t.to };
}

impl Trip {
    /// Nothing is counted.
    pub fn none() -> Self
        ensures { result ≡ None }
    {
        Trip {
            word: None,
            from: 0,
            to: 0,
        }
    }

    /// The calls from one number to another fail.
    pub fn new(alloc: Global, from: u64, to: u64) -> Result<Self, AllocError>
        ensures { IfOk result (λ t. t ≡ Some (record { from = from; to = to })) }
    {
        let word = Arc::new(alloc, AtomicU64::new(0))?;
        Ok(Trip {
            word: Some(word),
            from,
            to,
        })
    }

    /// What counts in the same word.
    pub fn share(&self) -> Result<Self, AllocError>
        ensures { IfOk result (λ t. t ≡ self.now) }
    {
        let word = match &self.word {
            Some(word) => Some(Arc::try_clone(word)?),
            None => None,
        };
        Ok(Trip {
            word,
            from: self.from,
            to: self.to,
        })
    }

    /// Counts a call, and says whether it is to fail.
    pub fn hits(&self) -> bool
        ensures { IsTrue result → IsSome self.now }
    {
        match &self.word {
            Some(word) => {
                let number = word.fetch_add(1, Ordering::SeqCst).wrapping_add(1);
                self.from <= number && number <= self.to
            }
            None => false,
        }
    }

    /// How many calls were counted.
    pub fn count(&self) -> u64 {
        match &self.word {
            Some(word) => word.load(Ordering::SeqCst),
            None => 0,
        }
    }
}
