//! Pages of lists of 8 and of 64 bits. The other widths are nt_encode's.

ghost use Rattle.std.specs.Prelude.{◌≡◌, length};
ghost use Rattle.nt_types.specs.ColumnTable.{bits_of};
ghost use Rattle.nt_encode.specs.Pages.{page_size, page_bytes};

use nt_encode::encode;
use nt_types::ColumnType;

/// Writes the page of a list of u64.
pub fn encode_64(kind: ColumnType, list: &[u64], out: &mut [u8])
    requires kind { bits_of kind ≡ 64 }
    requires length { length out.old ≡ page_size kind (length list.now) }
    ensures { out.new ≡ page_bytes kind list.now }
{
    encode(kind, list, out);
}

/// Writes the page of a list of u8.
pub fn encode_bytes(kind: ColumnType, list: &[u8], out: &mut [u8])
    requires kind { bits_of kind ≡ 8 }
    requires length { length out.old ≡ page_size kind (length list.now) }
    ensures { out.new ≡ page_bytes kind list.now }
{
    out.copy_from_slice(list);
}
