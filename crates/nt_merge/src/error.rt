//! Why files aren't merged.

ghost use Rattle.std.specs.Prelude.{◌≡◌};
ghost use Rattle.nt_merge.specs.declared.error.MergeError.TheVariants.{Memory};
ghost use Rattle.nt_merge.specs.Planning.{error_of_read};

use crate::place::SchemaPlace;
use nt_num::ReadError;
use nt_tfile::ReadFailure;
use std::alloc::{AllocError, AllocFailed};
use thiserror::Error;

/// Why files aren't merged, in the order in which it is looked for. Files count from 0.
#[derive(Clone, Copy, Debug, PartialEq, Eq, Error)]
pub enum MergeError {
    /// The first fault of a file.
    #[error("file {file} has a defect")]
    Defect { file: u32, error: ReadError },
    /// A schema stands against merging.
    #[error("the schemas can't be merged")]
    Schema(SchemaPlace),
    /// A cluster, a page list, the header or the footer is longer, with its key, than a range may get.
    #[error("a range of {len} bytes is above the limit of {limit}")]
    RangeTooLarge { len: u64, limit: u64 },
    /// The file would end past the place where it may end.
    #[error("a file of {end} bytes is above the limit of {limit}")]
    FileTooLarge { end: u64, limit: u64 },
    /// There are as many clusters as there may be.
    #[error("too many clusters")]
    TooManyClusters,
    /// A file that is read failed.
    #[error("a file failed")]
    ReadFault,
    /// The disk failed.
    #[error("the disk failed")]
    DiskFault,
    #[error("out of memory")]
    Memory,
}

/// What a failure in reading the file of this number is to a merge.
pub(crate) fn merge_error(number: u32, failure: ReadFailure) -> MergeError
    ensures { result ≡ error_of_read number failure }
{
    match failure {
        ReadFailure::Defect(error) => MergeError::Defect {
            file: number,
            error,
        },
        ReadFailure::Fault => MergeError::ReadFault,
        ReadFailure::Memory => MergeError::Memory,
    }
}

impl From<AllocError> for MergeError {
    ghost from_gives = { λ _ r. r ≡ Memory };

    fn from(_: AllocError) -> Self {
        MergeError::Memory
    }
}

impl<T: Drop> From<AllocFailed<T>> for MergeError {
    ghost from_gives = { λ _ r. r ≡ Memory };

    fn from(_: AllocFailed<T>) -> Self {
        MergeError::Memory
    }
}
