//! Pages of zeros.

ghost use Rattle.std.specs.Prelude.{◌≡◌, length, replicate};
ghost use Rattle.nt_encode.specs.Pages.{page_size};
ghost use Rattle.nt_column.specs.Elements.{plain, page_of};

use nt_types::ColumnType;

/// Writes a page of so many zeros, whose bytes are zeros in each coding.
pub fn encode_zeros(kind: ColumnType, count: usize, out: &mut [u8])
    requires { length out.old ≡ page_size kind count }
    ensures { out.new ≡ page_of kind (replicate count (plain 0)) }
{
    out.fill(0);
}
