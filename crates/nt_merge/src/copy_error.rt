//! Why a cluster isn't copied.

use nt_commit::CommitError;
use nt_tfile::ReadFailure;

/// Why a cluster isn't copied: it can't be read, or the next one can't be put behind the others.
pub(crate) enum CopyError {
    Read(ReadFailure),
    Commit(CommitError),
}
