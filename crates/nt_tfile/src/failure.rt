//! How a reading of a file fails.

ghost use Rattle.std.specs.Prelude.{◌≡◌};
ghost use Rattle.nt_tfile.specs.declared.failure.ReadFailure.TheVariants.{Defect as defect, Fault as fault};
ghost use Rattle.nt_tfile.specs.Failures.{failure_of};

use nt_num::ReadError;
use nt_outside::{Failed, Refused};

/// What came in place of a value: a defect of the file's bytes, a fault of the outside, or want of
/// memory.
#[derive(Clone, Copy, Debug, PartialEq, Eq)]
pub enum ReadFailure {
    Defect(ReadError),
    Fault,
    Memory,
}

impl From<ReadError> for ReadFailure {
    ghost from_gives = { λ e r. r ≡ defect e };

    fn from(error: ReadError) -> Self {
        ReadFailure::Defect(error)
    }
}

impl From<Failed> for ReadFailure {
    ghost from_gives = { λ _ r. r ≡ fault };

    fn from(_: Failed) -> Self {
        ReadFailure::Fault
    }
}

impl From<Refused> for ReadFailure {
    ghost from_gives = { λ e r. r ≡ failure_of e };

    fn from(refused: Refused) -> Self {
        match refused {
            Refused::Failed => ReadFailure::Fault,
            Refused::Memory => ReadFailure::Memory,
        }
    }
}
