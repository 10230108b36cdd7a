//! Why a file isn't begun or closed.

ghost use Rattle.std.specs.Prelude.{◌≡◌};
ghost use Rattle.nt_close.specs.declared.error.BeginError.TheVariants as begin_error;
ghost use Rattle.nt_close.specs.declared.error.CloseError.TheVariants as close_error;

use nt_outside::Failed;
use std::alloc::{AllocError, AllocFailed};
use thiserror::Error;

/// Why a file isn't begun, in the order in which it is looked for.
#[derive(Clone, Copy, Debug, PartialEq, Eq, Error)]
pub enum BeginError {
    #[error("out of memory")]
    Memory,
    /// The header with its key is longer than a range may get.
    #[error("a range of {len} bytes is above the limit of {limit}")]
    RangeTooLarge { len: u64, limit: u64 },
    /// The file would end past the place where it may end.
    #[error("a file of {end} bytes is above the limit of {limit}")]
    FileTooLarge { end: u64, limit: u64 },
    /// The disk failed.
    #[error("the disk failed")]
    Fault,
}

/// Why a file isn't closed, in the order in which it is looked for.
#[derive(Clone, Copy, Debug, PartialEq, Eq, Error)]
pub enum CloseError {
    /// The range of this number, which is that of its cluster where clusters aren't staged, was handed
    /// back after faults, of which the disk counted so many.
    #[error("the range of cluster {cluster} is spoiled")]
    Spoiled { cluster: u32, faults: u64 },
    /// The page list of this group was to be written beside its clusters, and its append failed:
    /// the disk counted so many faults then.
    #[error("the page list of group {group} is torn")]
    Torn { group: u32, faults: u64 },
    /// The range of this number was handed back filled, and is no cluster: clusters are staged, and
    /// its context hasn't published it.
    #[error("range {range} isn't published")]
    Unpublished { range: u32 },
    #[error("out of memory")]
    Memory,
    /// A page list that isn't noted or the footer, with its key, is longer than a range may get.
    #[error("a range of {len} bytes is above the limit of {limit}")]
    RangeTooLarge { len: u64, limit: u64 },
    /// The file would end past the place where it may end.
    #[error("a file of {end} bytes is above the limit of {limit}")]
    FileTooLarge { end: u64, limit: u64 },
    /// The disk failed.
    #[error("the disk failed")]
    Fault,
}

impl From<AllocError> for BeginError {
    ghost from_gives = { λ _ e. e ≡ begin_error.Memory };

    fn from(_: AllocError) -> Self {
        BeginError::Memory
    }
}

impl From<Failed> for BeginError {
    ghost from_gives = { λ _ e. e ≡ begin_error.Fault };

    fn from(_: Failed) -> Self {
        BeginError::Fault
    }
}

impl From<AllocError> for CloseError {
    ghost from_gives = { λ _ e. e ≡ close_error.Memory };

    fn from(_: AllocError) -> Self {
        CloseError::Memory
    }
}

impl<T: Drop> From<AllocFailed<T>> for CloseError {
    ghost from_gives = { λ _ e. e ≡ close_error.Memory };

    fn from(_: AllocFailed<T>) -> Self {
        CloseError::Memory
    }
}

impl From<Failed> for CloseError {
    ghost from_gives = { λ _ e. e ≡ close_error.Fault };

    fn from(_: Failed) -> Self {
        CloseError::Fault
    }
}
