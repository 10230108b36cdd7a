//! How a scan fails.

ghost use Rattle.std.specs.Prelude.{◌≡◌};
ghost use Rattle.nt_scan.specs.declared.error.ScanError.TheVariants as scan;
ghost use Rattle.nt_scan.specs.Steps.{scan_error_of};

use nt_num::ReadError;
use nt_tfile::ReadFailure;
use std::alloc::AllocError;

/// What came in place of totals.
#[derive(Clone, Copy, Debug, PartialEq, Eq)]
pub enum ScanError {
    /// The column of this id has more than 2^60 elements by the page lists, and this is its first count above, in elements; 2^64 - 1
    /// stands for a count that is larger.
    TooMany { column: u32, reached: u64 },
    /// The first fault of the file, with its code and its place in bytes.
    Defect(ReadError),
    /// The outside failed.
    Fault,
    /// Memory ran out.
    Memory,
}

impl From<ReadFailure> for ScanError {
    ghost from_gives = { λ e r. r ≡ scan_error_of e };

    fn from(failure: ReadFailure) -> Self {
        match failure {
            ReadFailure::Defect(fault) => ScanError::Defect(fault),
            ReadFailure::Fault => ScanError::Fault,
            ReadFailure::Memory => ScanError::Memory,
        }
    }
}

impl From<AllocError> for ScanError {
    ghost from_gives = { λ _ r. r ≡ scan.Memory };

    fn from(_: AllocError) -> Self {
        ScanError::Memory
    }
}
