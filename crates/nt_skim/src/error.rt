//! Why entries aren't selected.

use nt_num::ReadError;
use nt_types::Bytes;
use std::alloc::{AllocError, AllocFailed};

/// What came in place of the number of selected entries.
pub enum SkimError<S> {
    /// The first fault of the clusters.
    Defect(ReadError),
    /// A fault of the outside.
    Fault,
    /// What the sink answered.
    Sink(S),
    Memory,
}

/// Why an entry of a cluster wasn't put.
pub enum PutError<S> {
    /// What the sink answered.
    Refused(S),
    /// There was no memory for the trees that the sink would have been given.
    Memory,
}

/// What came in place of a plan.
#[derive(Drop)]
pub enum PlanError {
    /// No field at the top level has the name.
    UnknownField { name: Bytes },
    /// The field was chosen before.
    Twice { name: Bytes },
    /// The field isn't open, its name or its type can't stand in a schema text, or there are too many
    /// fields with it.
    NotWritable { name: Bytes },
    /// The field of the test isn't an open one of numbers.
    NotANumber { name: Bytes },
    Memory,
}

impl From<AllocError> for PlanError {
    ghost use Rattle.std.specs.Prelude.{◌≡◌};
    ghost use Rattle.nt_skim.specs.declared.error.PlanError.TheVariants.{Memory};

    ghost from_gives = { λ _ r. r ≡ Memory };

    fn from(_: AllocError) -> Self {
        PlanError::Memory
    }
}

impl<T: Drop> From<AllocFailed<T>> for PlanError {
    ghost use Rattle.std.specs.Prelude.{◌≡◌};
    ghost use Rattle.nt_skim.specs.declared.error.PlanError.TheVariants.{Memory};

    ghost from_gives = { λ _ r. r ≡ Memory };

    fn from(_: AllocFailed<T>) -> Self {
        PlanError::Memory
    }
}
