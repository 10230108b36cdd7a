//! Why a file isn't written.

ghost use Rattle.std.specs.Prelude.{◌≡◌};
ghost use Rattle.nt_store.specs.declared.error.StoreError.TheVariants.{Outside, Memory};

use nt_close::{BeginError, CloseError};
use nt_contexts::RunError;
use nt_event::TextKind;
use nt_outside::{Failed, Refused};
use nt_types::{SchemaError, SchemaKind};
use std::alloc::AllocError;

/// Why a file isn't written.
#[derive(Clone, Copy, Debug, PartialEq, Eq)]
pub enum StoreError {
    /// The outside failed.
    Outside,
    Memory,
    /// The schema text has this first fault.
    Schema {
        line: u64,
        kind: SchemaKind,
    },
    /// The input of this number, from 0, has this first bad line, and none before it has one.
    Line {
        input: u32,
        line: u64,
        kind: TextKind,
    },
    /// What is written reaches so much, above a limit.
    Limit {
        reached: u64,
        limit: u64,
    },
}

impl From<Refused> for StoreError {
    ghost use Rattle.nt_store.specs.Errors.{error_of_refusal};

    ghost from_gives = { λ refused error. error ≡ error_of_refusal refused };

    fn from(refused: Refused) -> Self {
        match refused {
            Refused::Failed => StoreError::Outside,
            Refused::Memory => StoreError::Memory,
        }
    }
}

impl From<Failed> for StoreError {
    ghost from_gives = { λ _ error. error ≡ Outside };

    fn from(_: Failed) -> Self {
        StoreError::Outside
    }
}

impl From<AllocError> for StoreError {
    ghost from_gives = { λ _ error. error ≡ Memory };

    fn from(_: AllocError) -> Self {
        StoreError::Memory
    }
}

impl From<SchemaError> for StoreError {
    ghost use Rattle.nt_store.specs.Errors.{error_of_schema};

    ghost from_gives = { λ fault error. error ≡ error_of_schema fault };

    fn from(error: SchemaError) -> Self {
        match error {
            SchemaError::Fault(fault) => StoreError::Schema {
                line: fault.line,
                kind: fault.kind,
            },
            SchemaError::Memory => StoreError::Memory,
        }
    }
}

impl From<BeginError> for StoreError {
    ghost use Rattle.nt_store.specs.Errors.{error_of_begin};

    ghost from_gives = { λ e error. error ≡ error_of_begin e };

    fn from(error: BeginError) -> Self {
        match error {
            BeginError::Memory => StoreError::Memory,
            BeginError::RangeTooLarge { len, limit } => StoreError::Limit {
                reached: len,
                limit,
            },
            BeginError::FileTooLarge { end, limit } => StoreError::Limit {
                reached: end,
                limit,
            },
            BeginError::Fault => StoreError::Outside,
        }
    }
}

impl From<RunError> for StoreError {
    ghost use Rattle.nt_store.specs.Errors.{error_of_run};

    ghost from_gives = { λ e error. error ≡ error_of_run e };

    fn from(error: RunError) -> Self {
        match error {
            RunError::Outside => StoreError::Outside,
            RunError::Memory => StoreError::Memory,
            RunError::Line { input, line, kind } => StoreError::Line { input, line, kind },
            RunError::Limit { reached, limit } => StoreError::Limit { reached, limit },
        }
    }
}

impl From<CloseError> for StoreError {
    ghost use Rattle.nt_store.specs.Errors.{error_of_close};

    ghost from_gives = { λ e error. error ≡ error_of_close e };

    fn from(error: CloseError) -> Self {
        match error {
            CloseError::Spoiled { .. }
            | CloseError::Torn { .. }
            | CloseError::Unpublished { .. }
            | CloseError::Fault => StoreError::Outside,
            CloseError::Memory => StoreError::Memory,
            CloseError::RangeTooLarge { len, limit } => StoreError::Limit {
                reached: len,
                limit,
            },
            CloseError::FileTooLarge { end, limit } => StoreError::Limit {
                reached: end,
                limit,
            },
        }
    }
}
