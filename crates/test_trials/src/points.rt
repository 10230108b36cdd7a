//! The gate of each run: it keeps what it is told, and may let contexts commit in one order, and publish in another.

use nt_outside::{Gate, Point};
use std::sync::atomic::{AtomicU64, Ordering};

/// A gate that lets contexts commit or stage in this order, if it has any: each waits, for a number of looks, until the clusters before its
/// own have been settled. So it lets them publish, each once those before it have published. It keeps a digit for each call: 1 to 5 for the
/// points of context 0, and 9 for those of others.
#[derive(Drop)]
pub struct Points<'a> {
    order: &'a [u32],
    publishing: &'a [u32],
    looks: u64,
    settled: AtomicU64,
    published: AtomicU64,
    told: AtomicU64,
}

impl<'a> Points<'a> {
    /// A gate that lets contexts publish as they come.
    pub fn new(order: &'a [u32], looks: u64) -> Self {
        Points::with_publishing(order, &[], looks)
    }

    pub fn with_publishing(order: &'a [u32], publishing: &'a [u32], looks: u64) -> Self {
        Points {
            order,
            publishing,
            looks,
            settled: AtomicU64::new(0),
            published: AtomicU64::new(0),
            told: AtomicU64::new(0),
        }
    }

    /// The digits so far.
    pub fn told(&self) -> u64 {
        self.told.load(Ordering::SeqCst)
    }

    /// Keeps a digit.
    fn keep(&self, digit: u64) {
        let told = self.told().saturating_mul(10).saturating_add(digit);
        self.told.store(told, Ordering::SeqCst);
    }

    /// Waits until the turn in an order is this context's, of which so many turns are over.
    fn wait_for(&self, order: &[u32], over: &AtomicU64, context: u32) {
        if order.is_empty() {
            return;
        }
        for _ in 0..self.looks {
            let over = over.load(Ordering::SeqCst);
            if order.get(over as usize).copied() == Some(context) {
                return;
            }
        }
    }
}

impl<'a> Gate for Points<'a> {
    fn at(&self, context: u32, point: Point) {
        let digit = match point {
            Point::BeforeCommit => 1,
            Point::Filling => 2,
            Point::Settled => 3,
            Point::BeforePublish => 4,
            Point::Published => 5,
        };
        self.keep(if context == 0 { digit } else { 9 });
        match point {
            Point::BeforeCommit => self.wait_for(self.order, &self.settled, context),
            Point::Settled => {
                self.settled.fetch_add(1, Ordering::SeqCst);
            }
            Point::BeforePublish => self.wait_for(self.publishing, &self.published, context),
            Point::Published => {
                self.published.fetch_add(1, Ordering::SeqCst);
            }
            Point::Filling => {}
        }
    }
}
