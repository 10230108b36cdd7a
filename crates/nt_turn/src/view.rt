//! What a pass knows, as plain data. No value of these types but `Key` is made.

use std::collections::LinkedList;
use std::snapshot::Snapshot;

/// What a pass is doing: nothing, waiting with a ticket, or holding the turn under it.
pub enum Stage {
    Idle,
    Waiting(u64),
    Holding(u64),
}

/// What a pass knows.
pub struct View<E, B> {
    /// False of a pass that was joined.
    pub live: bool,
    pub number: u32,
    pub stage: Stage,
    /// The birth of the value; a pass that was joined has none.
    pub birth: Option<B>,
    /// The history as far as the pass has seen it.
    pub seen: LinkedList<E>,
    /// The history as far as a pass had seen it that was joined to this one.
    pub told: LinkedList<E>,
    /// The entries of this pass.
    pub own: LinkedList<E>,
    /// How many passes were split off this one.
    pub splits: u32,
    /// The number and the entries of each pass that was joined to this one.
    pub kept: LinkedList<(u32, LinkedList<E>)>,
}

/// What the table is told when it is made.
pub struct Key<V> {
    pub first: Snapshot<V>,
    pub seats: u32,
}

impl<V> Drop for Key<V> {
    fn drop(self) {
        let Self { first, seats: _ } = self;
        drop(first);
    }
}
