//! The parts of a schema.

/// A part of a schema that has a description of its own.
#[derive(Clone, Copy, Debug, PartialEq, Eq)]
pub enum Part {
    /// In the header of the file.
    Header,
    /// In its footer.
    Extension,
}
