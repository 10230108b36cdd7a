//! Places of a writing context at which a test can make it wait.

/// A place in the writing of a cluster, and in the publishing of all that a context staged.
#[derive(Clone, Copy, Debug, PartialEq, Eq)]
pub enum Point {
    /// The cluster is built, and has no place in the file yet.
    BeforeCommit,
    /// It has its place, and its bytes aren't written yet.
    Filling,
    /// Its bytes stand in their place.
    Settled,
    /// All staged clusters of the context stand in their places, and none is published yet.
    BeforePublish,
    /// They are published, all together.
    Published,
}

/// What a context calls at each point. It promises nothing.
pub trait Gate {
    fn at(&self, context: u32, point: Point);
}

/// The gate of the program, which does nothing.
#[derive(Clone, Copy, Debug, PartialEq, Eq)]
pub struct NoGate;

impl Gate for NoGate {
    fn at(&self, _context: u32, _point: Point) {}
}
