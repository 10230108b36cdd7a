//! A total.

/// What the clusters of a context come to.
#[derive(Clone, Copy, Debug, PartialEq, Eq)]
pub(crate) struct Total {
    pub clusters: u64,
    pub entries: u64,
    /// Of the numbers in the entries.
    pub sum: u64,
}
