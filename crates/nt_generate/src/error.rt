//! Why a file isn't made.

ghost use Rattle.std.specs.Prelude.{◌≡◌};
ghost use Rattle.nt_generate.specs.declared.error.GenerateError.TheVariants.{Outside, Memory};
ghost use Rattle.nt_store.specs.Filling.{IsOfNoText};
ghost use Rattle.nt_generate.specs.Errors.{generate_unwritten};

use nt_num::ReadError;
use nt_outside::{Failed, Refused};
use nt_store::StoreError;
use nt_tfile::ReadFailure;
use std::alloc::AllocError;

/// Why a file isn't made, or isn't read back.
#[derive(Clone, Copy, Debug, PartialEq, Eq)]
pub enum GenerateError {
    /// The outside failed.
    Outside,
    Memory,
    /// What is written reaches so much, above a limit.
    Limit { reached: u64, limit: u64 },
    /// What was written is read with this first fault.
    Defect(ReadError),
}

impl From<Refused> for GenerateError {
    ghost use Rattle.nt_generate.specs.Errors.{generate_refusal};

    ghost from_gives = { λ refused error. error ≡ generate_refusal refused };

    fn from(refused: Refused) -> Self {
        match refused {
            Refused::Failed => GenerateError::Outside,
            Refused::Memory => GenerateError::Memory,
        }
    }
}

impl From<Failed> for GenerateError {
    ghost from_gives = { λ _ error. error ≡ Outside };

    fn from(_: Failed) -> Self {
        GenerateError::Outside
    }
}

impl From<AllocError> for GenerateError {
    ghost from_gives = { λ _ error. error ≡ Memory };

    fn from(_: AllocError) -> Self {
        GenerateError::Memory
    }
}

impl From<ReadFailure> for GenerateError {
    ghost use Rattle.nt_generate.specs.Errors.{generate_failure};

    ghost from_gives = { λ failure error. error ≡ generate_failure failure };

    fn from(failure: ReadFailure) -> Self {
        match failure {
            ReadFailure::Defect(error) => GenerateError::Defect(error),
            ReadFailure::Fault => GenerateError::Outside,
            ReadFailure::Memory => GenerateError::Memory,
        }
    }
}

/// Why a file isn't made that isn't written.
pub(crate) fn unwritten(error: StoreError) -> GenerateError
    requires { IsOfNoText error }
    ensures { result ≡ generate_unwritten error }
{
    match error {
        StoreError::Outside => GenerateError::Outside,
        StoreError::Memory => GenerateError::Memory,
        StoreError::Limit { reached, limit } => GenerateError::Limit { reached, limit },
        StoreError::Schema { .. } | StoreError::Line { .. } => unreachable!(),
    }
}
