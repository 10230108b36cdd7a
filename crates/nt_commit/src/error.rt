//! Why a cluster isn't committed.

ghost use Rattle.std.specs.Prelude.{◌≡◌, Some};
ghost use Rattle.nt_commit.specs.Claims.{limit_in};

use nt_book::LimitError;
use thiserror::Error;

/// Why a cluster isn't committed, in the order in which it is looked for.
#[derive(Clone, Copy, Debug, PartialEq, Eq, Error)]
pub enum CommitError {
    /// The range is longer than a range may get.
    #[error("a range of {len} bytes is above the limit of {limit}")]
    RangeTooLarge { len: u64, limit: u64 },
    /// The file would end past the place where it may end.
    #[error("a file of {end} bytes is above the limit of {limit}")]
    FileTooLarge { end: u64, limit: u64 },
    /// The file has as many clusters as it may have.
    #[error("the file has all its clusters")]
    TooManyClusters,
    #[error("out of memory")]
    Memory,
    /// The disk failed to reserve the range.
    #[error("the disk failed")]
    Fault,
}

impl From<LimitError> for CommitError {
    ghost from_gives = { λ e r. limit_in r ≡ Some e };

    fn from(error: LimitError) -> Self {
        match error {
            LimitError::RangeTooLarge { len, limit } => CommitError::RangeTooLarge { len, limit },
            LimitError::FileTooLarge { end, limit } => CommitError::FileTooLarge { end, limit },
            LimitError::TooManyClusters => CommitError::TooManyClusters,
        }
    }
}
