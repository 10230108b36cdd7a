//! What is known of a column before its pages are read.

/// What a schema tells of a column, as far as page lists are judged by it.
#[derive(Clone, Copy, Debug, PartialEq, Eq)]
pub struct KnownColumn {
    /// Its values can be read.
    pub is_open: bool,
    /// It has one element for each entry.
    pub is_principal: bool,
    /// The index of its first element.
    pub first: u64,
}
