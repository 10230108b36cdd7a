//! Why the file of a script isn't written.

ghost use Rattle.std.specs.Prelude.{◌≡◌};
ghost use Rattle.nt_script.specs.declared.store_error.ScriptStoreError.TheVariants.{Outside, Memory};

use crate::error::LineFault;
use nt_close::{BeginError, CloseError};
use nt_outside::{Failed, Refused};
use nt_store::StoreError;
use nt_types::SchemaKind;

/// Why the file of a script isn't written.
#[derive(Clone, Copy, Debug, PartialEq, Eq)]
pub enum ScriptStoreError {
    /// The outside failed.
    Outside,
    Memory,
    /// The schema text has this first fault.
    Schema { line: u64, kind: SchemaKind },
    /// The script has this first bad line.
    Line { line: u64, kind: LineFault },
    /// What is written reaches so much, above a limit.
    Limit { reached: u64, limit: u64 },
}

impl From<Refused> for ScriptStoreError {
    ghost use Rattle.nt_script.specs.StoreErrors.{script_error_of_refusal};

    ghost from_gives = { λ refused error. error ≡ script_error_of_refusal refused };

    fn from(refused: Refused) -> Self {
        match refused {
            Refused::Failed => ScriptStoreError::Outside,
            Refused::Memory => ScriptStoreError::Memory,
        }
    }
}

impl From<StoreError> for ScriptStoreError {
    ghost use Rattle.nt_script.specs.StoreErrors.{script_error_of_store};

    ghost from_gives = { λ e error. error ≡ script_error_of_store e };

    fn from(error: StoreError) -> Self {
        match error {
            StoreError::Outside => ScriptStoreError::Outside,
            StoreError::Memory => ScriptStoreError::Memory,
            StoreError::Schema { line, kind } => ScriptStoreError::Schema { line, kind },
            StoreError::Line { line, kind, .. } => ScriptStoreError::Line {
                line,
                kind: LineFault::Event(kind),
            },
            StoreError::Limit { reached, limit } => ScriptStoreError::Limit { reached, limit },
        }
    }
}

impl From<Failed> for ScriptStoreError {
    ghost from_gives = { λ _ error. error ≡ Outside };

    fn from(_: Failed) -> Self {
        ScriptStoreError::Outside
    }
}

impl From<BeginError> for ScriptStoreError {
    ghost use Rattle.nt_script.specs.StoreErrors.{script_error_of_begin};

    ghost from_gives = { λ e error. error ≡ script_error_of_begin e };

    fn from(error: BeginError) -> Self {
        match error {
            BeginError::Memory => ScriptStoreError::Memory,
            BeginError::RangeTooLarge { len, limit } => ScriptStoreError::Limit {
                reached: len,
                limit,
            },
            BeginError::FileTooLarge { end, limit } => ScriptStoreError::Limit {
                reached: end,
                limit,
            },
            BeginError::Fault => ScriptStoreError::Outside,
        }
    }
}

impl From<CloseError> for ScriptStoreError {
    ghost use Rattle.nt_script.specs.StoreErrors.{script_error_of_close};

    ghost from_gives = { λ e error. error ≡ script_error_of_close e };

    fn from(error: CloseError) -> Self {
        match error {
            CloseError::Spoiled { .. }
            | CloseError::Torn { .. }
            | CloseError::Unpublished { .. }
            | CloseError::Fault => ScriptStoreError::Outside,
            CloseError::Memory => ScriptStoreError::Memory,
            CloseError::RangeTooLarge { len, limit } => ScriptStoreError::Limit {
                reached: len,
                limit,
            },
            CloseError::FileTooLarge { end, limit } => ScriptStoreError::Limit {
                reached: end,
                limit,
            },
        }
    }
}
