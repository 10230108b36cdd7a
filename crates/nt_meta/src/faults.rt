//! Faults of a payload.

ghost use Rattle.std.specs.Prelude.{◌≡◌};
ghost use Rattle.nt_num.specs.Faults.{fault, with_values};
ghost use Rattle.nt_pagelists.specs.Columns.{in_column};

use nt_num::ReadError;

/// The fault of a code at a place.
pub(crate) fn fault(code: u8, at: usize) -> ReadError
    ensures { result ≡ fault code at }
{
    ReadError {
        code,
        at: at as u64,
        cluster: 0,
        column: 0,
        element: 0,
        kept: 0,
        found: 0,
    }
}

/// The same, of a column in a cluster.
pub(crate) fn fault_in(code: u8, at: usize, cluster: u32, column: u32) -> ReadError
    ensures { result ≡ in_column cluster column (fault code at) }
{
    let mut it = fault(code, at);
    it.cluster = cluster;
    it.column = column;
    it
}

/// The same, with what stands there and what was found in its place.
pub(crate) fn fault_with(code: u8, at: usize, kept: u64, found: u64) -> ReadError
    ensures { result ≡ with_values kept found (fault code at) }
{
    let mut it = fault(code, at);
    it.kept = kept;
    it.found = found;
    it
}
