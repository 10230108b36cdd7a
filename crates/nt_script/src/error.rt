//! What is wrong with a script, and why it isn't written.

ghost use Rattle.std.specs.Prelude.{◌≡◌};
ghost use Rattle.nt_script.specs.Running.{error_of_commit, error_of_lines};

use nt_book::LimitError;
use nt_commit::CommitError;
use nt_event::{LineError, TextKind};
use nt_types::SchemaKind;
use std::alloc::AllocError;

/// What is wrong with a line.
#[derive(Clone, Copy, Debug, PartialEq, Eq)]
pub enum LineFault {
    /// It is no entry of the fields.
    Event(TextKind),
    /// It adds no field.
    Field(SchemaKind),
}

/// Why a script ended before its text did.
#[derive(Clone, Copy, Debug, PartialEq, Eq)]
pub enum ScriptError {
    /// The line of this number, from 1, is bad.
    Line { line: u64, kind: LineFault },
    /// A cluster passes a limit.
    Limit(LimitError),
    /// Its source or the disk failed.
    Outside,
    Memory,
}

impl From<AllocError> for ScriptError {
    ghost use Rattle.nt_script.specs.declared.error.ScriptError.TheVariants.{Memory};

    ghost from_gives = { λ _ r. r ≡ Memory };

    fn from(_: AllocError) -> Self {
        ScriptError::Memory
    }
}

impl From<CommitError> for ScriptError {
    ghost from_gives = { λ e r. r ≡ error_of_commit e };

    fn from(error: CommitError) -> Self {
        match error {
            CommitError::RangeTooLarge { len, limit } => {
                ScriptError::Limit(LimitError::RangeTooLarge { len, limit })
            }
            CommitError::FileTooLarge { end, limit } => {
                ScriptError::Limit(LimitError::FileTooLarge { end, limit })
            }
            CommitError::TooManyClusters => ScriptError::Limit(LimitError::TooManyClusters),
            CommitError::Memory => ScriptError::Memory,
            CommitError::Fault => ScriptError::Outside,
        }
    }
}

impl From<LineError> for ScriptError {
    ghost from_gives = { λ e r. r ≡ error_of_lines e };

    fn from(error: LineError) -> Self {
        match error {
            LineError::Fault => ScriptError::Outside,
            LineError::TooLong { line } => ScriptError::Line {
                line,
                kind: LineFault::Event(TextKind::TooLong),
            },
            LineError::Memory => ScriptError::Memory,
        }
    }
}
