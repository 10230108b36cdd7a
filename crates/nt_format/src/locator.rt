//! Where a block of the file lies.

/// A simple locator: so many bytes of the file, from a place on.
#[derive(Clone, Copy, Debug, PartialEq, Eq)]
pub struct Locator {
    /// The number of bytes as they are stored, below 2^31.
    pub size: u32,
    /// The offset from the beginning of the file, in bytes.
    pub place: u64,
}

/// A link to an envelope.
#[derive(Clone, Copy, Debug, PartialEq, Eq)]
pub struct Link {
    /// The length of the envelope once it is uncompressed, in bytes.
    pub length: u64,
    pub at: Locator,
}
