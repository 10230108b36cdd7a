//! Page lists that stand between the ranges of a book.

/// Where a page list stands in the file: the link to its envelope.
#[derive(Clone, Copy, Debug, PartialEq, Eq)]
pub struct ListPlace {
    /// The bytes of the envelope.
    pub length: u64,
    /// The bytes that are stored of it.
    pub size: u32,
    /// Where it begins in the file, behind the key of its blob.
    pub place: u64,
}

/// The page list of a full group, which was appended behind the group's last range.
#[derive(Clone, Copy, Debug, PartialEq, Eq)]
pub struct NotedList {
    pub at: ListPlace,
    /// The bytes of its blob, the key among them.
    pub len: u64,
}

/// A page list whose append failed.
#[derive(Clone, Copy, Debug, PartialEq, Eq)]
pub struct Tear {
    /// The group that it was to list.
    pub group: u32,
    /// How many faults the disk counted then.
    pub faults: u64,
    /// The bytes that were left of it.
    pub len: u64,
}
