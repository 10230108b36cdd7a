//! Why a context ends before its input does, and why contexts don't write all chunks of their sources.

ghost use Rattle.std.specs.Prelude.{◌≡◌, Ok};
ghost use Rattle.nt_contexts.specs.Running.{context_error, error_of_line};
ghost use Rattle.nt_contexts.specs.Answers.{limit_told, error_told, refusal_told, answer_of, with_rest};

use nt_book::LimitError;
use nt_commit::CommitError;
use nt_event::{LineError, TextKind};
use nt_outside::Refused;
use std::alloc::AllocError;

/// Why a context ended before its input did.
#[derive(Clone, Copy, Debug, PartialEq, Eq)]
pub(crate) enum ContextError {
    /// The line of this number, from 1, gives no entry.
    Text { line: u64, kind: TextKind },
    /// A cluster passes a limit.
    Limit(LimitError),
    /// Its source, the disk or its pen failed.
    Outside,
    Memory,
}

impl From<AllocError> for ContextError {
    ghost use Rattle.nt_contexts.specs.declared.error.ContextError.TheVariants.{Memory};

    ghost from_gives = { λ _ r. r ≡ Memory };

    fn from(_: AllocError) -> Self {
        ContextError::Memory
    }
}

impl From<CommitError> for ContextError {
    ghost from_gives = { λ e r. r ≡ context_error e };

    fn from(error: CommitError) -> Self {
        match error {
            CommitError::RangeTooLarge { len, limit } => {
                ContextError::Limit(LimitError::RangeTooLarge { len, limit })
            }
            CommitError::FileTooLarge { end, limit } => {
                ContextError::Limit(LimitError::FileTooLarge { end, limit })
            }
            CommitError::TooManyClusters => ContextError::Limit(LimitError::TooManyClusters),
            CommitError::Memory => ContextError::Memory,
            CommitError::Fault => ContextError::Outside,
        }
    }
}

impl From<LineError> for ContextError {
    ghost from_gives = { λ e r. r ≡ error_of_line e };

    fn from(error: LineError) -> Self {
        match error {
            LineError::Fault => ContextError::Outside,
            LineError::TooLong { line } => ContextError::Text {
                line,
                kind: TextKind::TooLong,
            },
            LineError::Memory => ContextError::Memory,
        }
    }
}

/// Why contexts didn't write all chunks of their sources.
#[derive(Clone, Copy, Debug, PartialEq, Eq)]
pub enum RunError {
    /// A source, the disk or a pen failed.
    Outside,
    Memory,
    /// The source of this number, from 0, has this first bad line, and none before it has one.
    Line {
        input: u32,
        line: u64,
        kind: TextKind,
    },
    /// What is written reaches so much, above a limit.
    Limit {
        reached: u64,
        limit: u64,
    },
}

/// The limit that a cluster would pass, where a file may have so many clusters.
fn limit_passed(error: LimitError, clusters: u32) -> RunError
    ensures { result ≡ limit_told clusters error }
{
    match error {
        LimitError::RangeTooLarge { len, limit } => RunError::Limit {
            reached: len,
            limit,
        },
        LimitError::FileTooLarge { end, limit } => RunError::Limit {
            reached: end,
            limit,
        },
        LimitError::TooManyClusters => RunError::Limit {
            reached: u64::from(clusters) + 1,
            limit: u64::from(clusters),
        },
    }
}

/// The error of the context of this number.
fn error_of(error: ContextError, input: u32, clusters: u32) -> RunError
    ensures { result ≡ error_told clusters input error }
{
    match error {
        ContextError::Text { line, kind } => RunError::Line { input, line, kind },
        ContextError::Limit(error) => limit_passed(error, clusters),
        ContextError::Outside => RunError::Outside,
        ContextError::Memory => RunError::Memory,
    }
}

/// The error of a context that wasn't let in.
pub(crate) fn refusal_of(refused: Refused) -> RunError
    ensures { result ≡ refusal_told refused }
{
    match refused {
        Refused::Memory => RunError::Memory,
        Refused::Failed => RunError::Outside,
    }
}

/// The answer of the contexts so far, and then that of the next one: the first that failed counts.
pub(crate) fn and_then(
    answer: Result<(), RunError>,
    ended: Result<(), ContextError>,
    input: u32,
    clusters: u32,
) -> Result<(), RunError>
    ensures { result ≡ with_rest answer (answer_of clusters input ended (Ok tt)) }
{
    match answer {
        Ok(()) => match ended {
            Ok(()) => Ok(()),
            Err(error) => Err(error_of(error, input, clusters)),
        },
        Err(error) => Err(error),
    }
}
