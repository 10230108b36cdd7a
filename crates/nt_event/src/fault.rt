//! What is wrong with a line.

/// The first thing that is wrong with a line, in this order.
#[derive(Clone, Copy, Debug, PartialEq, Eq)]
pub enum TextKind {
    /// More than 2^24 bytes.
    TooLong,
    /// Not UTF-8, or no JSON value.
    NotJson,
    /// JSON, and no array.
    NotArray,
    /// Not one value for each field.
    Count,
    /// A value does not fit its shape.
    Misfit,
}

/// Why a line gave no entry.
#[derive(Clone, Copy, Debug, PartialEq, Eq)]
pub enum TextError {
    Kind(TextKind),
    Memory,
}
