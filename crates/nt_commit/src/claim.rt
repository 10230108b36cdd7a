//! The right to write the range of a cluster.

/// The number of a range, and the sole right to write it. It ends by `settle` or `spoil`.
pub struct Claim<X> {
    pub cluster: u32,
    pub ext: X,
}
