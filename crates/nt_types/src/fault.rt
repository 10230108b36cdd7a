//! What a schema text is refused for.

use std::alloc::{AllocError, AllocFailed};

/// Why a schema text has no fields.
#[derive(Clone, Copy, PartialEq, Eq, Debug)]
pub enum SchemaKind {
    /// The text has more than 2^20 bytes.
    TooLong,
    /// The line begins with no name that a blank follows.
    BadName,
    /// An earlier line has the name.
    Repeated,
    /// What follows the name is no type.
    BadType,
    /// The type nests more than 32 deep.
    TooDeep,
    /// With this line there are more than 4096 fields, those inside of others included.
    TooMany,
    /// No line has a field.
    Empty,
}

/// The first fault of a schema text.
#[derive(Clone, Copy, PartialEq, Eq, Debug)]
pub struct SchemaFault {
    /// Counted from 1, or 0 where it isn't the fault of a line.
    pub line: u64,
    pub kind: SchemaKind,
}

/// Why no fields were read.
#[derive(Clone, Copy, PartialEq, Eq, Debug)]
pub enum SchemaError {
    Fault(SchemaFault),
    /// There was no memory.
    Memory,
}

/// Why no type was read.
#[derive(Clone, Copy, PartialEq, Eq, Debug)]
pub(crate) enum TypeError {
    Malformed,
    Memory,
}

impl From<AllocError> for TypeError {
    ghost use Rattle.std.specs.Prelude.{◌≡◌};
    ghost use Rattle.nt_types.specs.declared.fault.TypeError.TheVariants.{Memory};

    ghost from_gives = { λ _ e. e ≡ Memory };

    fn from(_: AllocError) -> Self {
        TypeError::Memory
    }
}

impl<T: Drop> From<AllocFailed<T>> for TypeError {
    ghost use Rattle.std.specs.Prelude.{◌≡◌};
    ghost use Rattle.nt_types.specs.declared.fault.TypeError.TheVariants.{Memory};

    ghost from_gives = { λ _ e. e ≡ Memory };

    fn from(_: AllocFailed<T>) -> Self {
        TypeError::Memory
    }
}

/// Why no field was read from a line.
#[derive(Clone, Copy, PartialEq, Eq, Debug)]
pub(crate) enum LineError {
    Kind(SchemaKind),
    Memory,
}

impl LineError {
    ghost use Rattle.nt_types.specs.LineFaults.{IsOnLine};

    /// The same, at a line of a text.
    pub(crate) fn at(self, line: u64) -> SchemaError
        ensures { IsOnLine result self line }
    {
        match self {
            LineError::Kind(kind) => SchemaError::Fault(SchemaFault { line, kind }),
            LineError::Memory => SchemaError::Memory,
        }
    }
}

impl From<AllocError> for LineError {
    ghost use Rattle.std.specs.Prelude.{◌≡◌};
    ghost use Rattle.nt_types.specs.declared.fault.LineError.TheVariants.{Memory};

    ghost from_gives = { λ _ e. e ≡ Memory };

    fn from(_: AllocError) -> Self {
        LineError::Memory
    }
}

impl<T: Drop> From<AllocFailed<T>> for LineError {
    ghost use Rattle.std.specs.Prelude.{◌≡◌};
    ghost use Rattle.nt_types.specs.declared.fault.LineError.TheVariants.{Memory};

    ghost from_gives = { λ _ e. e ≡ Memory };

    fn from(_: AllocFailed<T>) -> Self {
        LineError::Memory
    }
}

impl From<TypeError> for LineError {
    ghost use Rattle.std.specs.Prelude.{◌≡◌};
    ghost use Rattle.nt_types.specs.LineErrors.{line_error};

    ghost from_gives = { λ t e. e ≡ line_error t };

    fn from(error: TypeError) -> Self {
        match error {
            TypeError::Malformed => LineError::Kind(SchemaKind::BadType),
            TypeError::Memory => LineError::Memory,
        }
    }
}
