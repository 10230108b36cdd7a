//! Faults of the pages of a cluster.

ghost use Rattle.std.specs.Prelude.{◌≡◌};
ghost use Rattle.nt_num.specs.Faults.{fault, with_values};
ghost use Rattle.nt_pagelists.specs.Columns.{in_column};

use nt_num::ReadError;

/// The code of a page that is stored compressed.
pub const COMPRESSED: u8 = 9;

/// The code of a page that doesn't lie in the file.
pub const OUT_OF_FILE: u8 = 10;

/// The code of a page whose checksum is wrong.
pub const BAD_PAGE: u8 = 21;

/// A fault at a place, with what is kept and what is found there.
pub fn fault_with(code: u8, at: u64, kept: u64, found: u64) -> ReadError
    ensures { result ≡ with_values kept found (fault code at) }
{
    ReadError {
        code,
        at,
        cluster: 0,
        column: 0,
        element: 0,
        kept,
        found,
    }
}

/// The same fault, of a column in a cluster.
pub fn in_column(cluster: u32, column: u32, error: ReadError) -> ReadError
    ensures { result ≡ in_column cluster column error }
{
    ReadError {
        code: error.code,
        at: error.at,
        cluster,
        column,
        element: error.element,
        kept: error.kept,
        found: error.found,
    }
}
