//! Why a field isn't added to a schema.

use std::alloc::AllocError;

/// Why a field isn't added, in the order in which it is looked for.
#[derive(Clone, Copy, Debug, PartialEq, Eq)]
pub enum ExtendError {
    /// A field at the top level has the name.
    Repeated,
    /// There would be more than 4096 fields, those inside of others included.
    TooMany,
    /// There was no memory.
    Memory,
}

impl From<AllocError> for ExtendError {
    ghost use Rattle.std.specs.Prelude.{◌≡◌};
    ghost use Rattle.nt_schema.specs.declared.extend_error.ExtendError.TheVariants.{Memory};

    ghost from_gives = { λ _ e. e ≡ Memory };

    fn from(_: AllocError) -> Self {
        ExtendError::Memory
    }
}
