//! Why a selection isn't stored.

ghost use Rattle.std.specs.Prelude.{◌≡◌};
ghost use Rattle.nt_skim_file.specs.declared.error.SkimStoreError.TheVariants.{Outside};

use nt_close::{BeginError, CloseError};
use nt_num::ReadError;
use nt_outside::{Failed, Refused};
use nt_skim::PlanError;
use nt_tfile::ReadFailure;

/// Why what is selected of a file isn't written.
#[derive(Drop)]
pub enum SkimStoreError {
    /// The outside failed.
    Outside,
    Memory,
    /// The file that is read has this first fault.
    Defect(ReadError),
    /// This stands against the plan; it is no want of memory.
    Unplanned(PlanError),
    /// What is written reaches so much, above a limit.
    Limit { reached: u64, limit: u64 },
}

impl From<Refused> for SkimStoreError {
    ghost use Rattle.nt_skim_file.specs.Errors.{skim_refusal};

    ghost from_gives = { λ refused error. error ≡ skim_refusal refused };

    fn from(refused: Refused) -> Self {
        match refused {
            Refused::Failed => SkimStoreError::Outside,
            Refused::Memory => SkimStoreError::Memory,
        }
    }
}

impl From<Failed> for SkimStoreError {
    ghost from_gives = { λ _ error. error ≡ Outside };

    fn from(_: Failed) -> Self {
        SkimStoreError::Outside
    }
}

impl From<ReadFailure> for SkimStoreError {
    ghost use Rattle.nt_skim_file.specs.Errors.{skim_failure};

    ghost from_gives = { λ failure error. error ≡ skim_failure failure };

    fn from(failure: ReadFailure) -> Self {
        match failure {
            ReadFailure::Defect(error) => SkimStoreError::Defect(error),
            ReadFailure::Fault => SkimStoreError::Outside,
            ReadFailure::Memory => SkimStoreError::Memory,
        }
    }
}

impl From<PlanError> for SkimStoreError {
    ghost use Rattle.nt_skim_file.specs.Errors.{skim_unplanned};

    ghost from_gives = { λ e error. error ≡ skim_unplanned e };

    fn from(error: PlanError) -> Self {
        match error {
            PlanError::Memory => SkimStoreError::Memory,
            other => SkimStoreError::Unplanned(other),
        }
    }
}

impl From<BeginError> for SkimStoreError {
    ghost use Rattle.nt_skim_file.specs.Errors.{skim_of_begin};

    ghost from_gives = { λ e error. error ≡ skim_of_begin e };

    fn from(error: BeginError) -> Self {
        match error {
            BeginError::Memory => SkimStoreError::Memory,
            BeginError::RangeTooLarge { len, limit } => SkimStoreError::Limit {
                reached: len,
                limit,
            },
            BeginError::FileTooLarge { end, limit } => SkimStoreError::Limit {
                reached: end,
                limit,
            },
            BeginError::Fault => SkimStoreError::Outside,
        }
    }
}

impl From<CloseError> for SkimStoreError {
    ghost use Rattle.nt_skim_file.specs.Errors.{skim_of_close};

    ghost from_gives = { λ e error. error ≡ skim_of_close e };

    fn from(error: CloseError) -> Self {
        match error {
            CloseError::Spoiled { .. }
            | CloseError::Torn { .. }
            | CloseError::Unpublished { .. }
            | CloseError::Fault => SkimStoreError::Outside,
            CloseError::Memory => SkimStoreError::Memory,
            CloseError::RangeTooLarge { len, limit } => SkimStoreError::Limit {
                reached: len,
                limit,
            },
            CloseError::FileTooLarge { end, limit } => SkimStoreError::Limit {
                reached: end,
                limit,
            },
        }
    }
}
