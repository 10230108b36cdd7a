//! What is loaded: pages of columns, and columns of zeros.

use nt_types::ColumnType;

/// A page of a column, and where it stands in a file.
#[derive(Clone, Copy)]
pub struct PagePlace {
    /// The column's id.
    pub column: u32,
    pub kind: ColumnType,
    /// The number of its elements.
    pub count: u32,
    /// The place of its first byte in the file.
    pub place: u64,
    /// The bytes of its elements, without those of a checksum.
    pub size: u32,
    /// Whether a checksum of 8 bytes stands behind it.
    pub checked: bool,
}

/// A column that has so many zeros, and no page.
#[derive(Clone, Copy)]
pub struct ZeroColumn {
    /// The column's id.
    pub column: u32,
    pub count: u64,
}
