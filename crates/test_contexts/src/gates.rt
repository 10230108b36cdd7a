//! Gates at which contexts wait for each other, each for a number of looks, so that every test ends.

use nt_outside::{Gate, Point};
use std::sync::atomic::{AtomicU64, Ordering};

/// How often a gate looks where the others must come: for seconds.
const LONG: u64 = 100_000_000;

/// Looks at a count until it is at least this, so often at most, and says whether it was.
fn reaches(count: &AtomicU64, least: u64) -> bool {
    for _ in 0..LONG {
        if count.load(Ordering::SeqCst) >= least {
            return true;
        }
    }
    false
}

/// Holds context 0 at the filling of its range until context 1 has settled one.
#[derive(Drop)]
pub struct HoldsFirst {
    pub settled: AtomicU64,
    /// How often context 0 saw that.
    pub seen: AtomicU64,
}

impl HoldsFirst {
    pub fn new() -> Self {
        HoldsFirst {
            settled: AtomicU64::new(0),
            seen: AtomicU64::new(0),
        }
    }
}

impl Gate for HoldsFirst {
    fn at(&self, context: u32, point: Point) {
        match (context, point) {
            (0, Point::Filling) => {
                if reaches(&self.settled, 1) {
                    self.seen.fetch_add(1, Ordering::SeqCst);
                }
            }
            (1, Point::Settled) => {
                self.settled.fetch_add(1, Ordering::SeqCst);
            }
            _ => {}
        }
    }
}

/// Holds context 0 as the gate above, and counts the contexts between their commit and the settling of their range.
#[derive(Drop)]
pub struct Counting {
    pub holds: HoldsFirst,
    pub most: u64,
    pub between: AtomicU64,
    /// How often more of them were there than the most.
    pub over: AtomicU64,
}

impl Counting {
    pub fn new(most: u64) -> Self {
        Counting {
            holds: HoldsFirst::new(),
            most,
            between: AtomicU64::new(0),
            over: AtomicU64::new(0),
        }
    }
}

impl Gate for Counting {
    fn at(&self, context: u32, point: Point) {
        match point {
            Point::BeforeCommit => {
                if self.between.fetch_add(1, Ordering::SeqCst) >= self.most {
                    self.over.fetch_add(1, Ordering::SeqCst);
                }
            }
            Point::Settled => {
                self.between.fetch_sub(1, Ordering::SeqCst);
            }
            Point::Filling | Point::BeforePublish | Point::Published => {}
        }
        self.holds.at(context, point);
    }
}

/// Holds each context before its commit until all are there, and so again at the filling of its range.
#[derive(Drop)]
pub struct Meeting {
    pub contexts: u64,
    pub before: AtomicU64,
    pub filling: AtomicU64,
    /// How often a context saw all others.
    pub met: AtomicU64,
}

impl Meeting {
    pub fn new(contexts: u64) -> Self {
        Meeting {
            contexts,
            before: AtomicU64::new(0),
            filling: AtomicU64::new(0),
            met: AtomicU64::new(0),
        }
    }

    /// Comes to a place, and waits for the others there.
    fn meet(&self, place: &AtomicU64) {
        place.fetch_add(1, Ordering::SeqCst);
        if reaches(place, self.contexts) {
            self.met.fetch_add(1, Ordering::SeqCst);
        }
    }
}

impl Gate for Meeting {
    fn at(&self, _context: u32, point: Point) {
        match point {
            Point::BeforeCommit => self.meet(&self.before),
            Point::Filling => self.meet(&self.filling),
            Point::Settled | Point::BeforePublish | Point::Published => {}
        }
    }
}
