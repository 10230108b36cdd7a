//! Why an envelope or a locator could not be read.

use thiserror::Error;

/// Why bytes are no envelope of a kind, in the order in which it is looked for.
#[derive(Clone, Copy, Debug, PartialEq, Eq, Error)]
pub enum EnvelopeFault {
    /// The bytes are too few for an envelope, or not as many as its first word says.
    #[error("the size of the envelope is not its length")]
    Size,
    /// The envelope is of another kind.
    #[error("an envelope of kind {kept}")]
    Kind { kept: u16 },
    /// The checksum that is kept is not the one of the bytes before it.
    #[error("the checksum is {kept:x}, and the bytes give {found:x}")]
    Checksum { kept: u64, found: u64 },
}

/// Why no simple locator stands in a place.
#[derive(Clone, Copy, Debug, PartialEq, Eq, Error)]
pub enum LocatorFault {
    /// Too few bytes are left.
    #[error("the locator is cut off")]
    Short,
    /// The first word says that the locator is of another type.
    #[error("a locator with the size word {word:x}")]
    NotSimple { word: u32 },
}
