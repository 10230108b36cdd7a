//! Why files aren't merged over a host.

ghost use Rattle.std.specs.Prelude.{◌≡◌};
ghost use Rattle.nt_merge_files.specs.declared.error.MergeStoreError.TheVariants.{Outside, Memory};
ghost use Rattle.nt_merge_files.specs.Errors.{counts_of_merge, error_of_merge};

use nt_merge::{MergeError, SchemaPlace};
use nt_num::ReadError;
use nt_outside::{Failed, Refused};
use nt_script::Counts;
use std::alloc::AllocError;

/// Why files aren't written as one. Files count from 0, in the order of their names.
#[derive(Clone, Copy, Debug, PartialEq, Eq)]
pub enum MergeStoreError {
    /// The outside failed.
    Outside,
    Memory,
    /// The file of this number has this first fault, and none before it has one.
    Defect { file: u32, error: ReadError },
    /// This place of the schemas is the first that stands against merging the files.
    Schema(SchemaPlace),
    /// What is written reaches so much, above a limit.
    Limit { reached: u64, limit: u64 },
}

impl From<Refused> for MergeStoreError {
    ghost use Rattle.nt_merge_files.specs.Errors.{merge_refusal};

    ghost from_gives = { λ refused error. error ≡ merge_refusal refused };

    fn from(refused: Refused) -> Self {
        match refused {
            Refused::Failed => MergeStoreError::Outside,
            Refused::Memory => MergeStoreError::Memory,
        }
    }
}

impl From<Failed> for MergeStoreError {
    ghost from_gives = { λ _ error. error ≡ Outside };

    fn from(_: Failed) -> Self {
        MergeStoreError::Outside
    }
}

impl From<AllocError> for MergeStoreError {
    ghost from_gives = { λ _ error. error ≡ Memory };

    fn from(_: AllocError) -> Self {
        MergeStoreError::Memory
    }
}

/// The error of files that aren't planned or merged, where a file may have so many clusters.
pub(crate) fn error_of_merge(clusters: u32, error: MergeError) -> MergeStoreError
    ensures { result ≡ error_of_merge clusters error }
{
    match error {
        MergeError::Defect { file, error } => MergeStoreError::Defect { file, error },
        MergeError::Schema(place) => MergeStoreError::Schema(place),
        MergeError::RangeTooLarge { len, limit } => MergeStoreError::Limit {
            reached: len,
            limit,
        },
        MergeError::FileTooLarge { end, limit } => MergeStoreError::Limit {
            reached: end,
            limit,
        },
        MergeError::TooManyClusters => MergeStoreError::Limit {
            reached: u64::from(clusters) + 1,
            limit: u64::from(clusters),
        },
        MergeError::ReadFault | MergeError::DiskFault => MergeStoreError::Outside,
        MergeError::Memory => MergeStoreError::Memory,
    }
}

/// The numbers of a merge, or the error, where a file may have so many clusters.
pub(crate) fn counts_of_merge(
    most: u32,
    merged: Result<(u32, u64), MergeError>,
) -> Result<Counts, MergeStoreError>
    ensures { result ≡ counts_of_merge most merged }
{
    match merged {
        Ok((clusters, entries)) => Ok(Counts { clusters, entries }),
        Err(error) => Err(error_of_merge(most, error)),
    }
}
