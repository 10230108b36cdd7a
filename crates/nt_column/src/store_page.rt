//! Pages of kept elements, coded as they lie.

ghost use Rattle.std.specs.Prelude.{◌≡◌, ◌-◌, ◌≤◌, length};
ghost use Rattle.std.specs.List.{slice_range};
ghost use Rattle.nt_types.specs.ColumnTable.{bits_of};
ghost use Rattle.nt_encode.specs.Pages.{page_size};
ghost use Rattle.nt_column.specs.Elements.{page_of};
ghost use Rattle.nt_column.specs.Store.{elements_of, width_of};

use crate::store::Store;
use crate::widths::{encode_64, encode_bytes};
use nt_encode::{encode_16, encode_32, encode_bits};
use nt_types::ColumnType;

/// Writes the page of the elements from one place to before another.
pub fn encode_store(store: &Store, kind: ColumnType, from: usize, to: usize, out: &mut [u8])
    requires kind { width_of store.now ≡ bits_of kind }
    requires order { from ≤ to }
    requires within { to ≤ length (elements_of store.now) }
    requires length { length out.old ≡ page_size kind (to - from) }
    ensures { out.new ≡ page_of kind (slice_range (elements_of store.now) from to) }
{
    match store {
        Store::Bits(list) => encode_bits(kind, &list[from..to], out),
        Store::Bytes(list) => encode_bytes(kind, &list[from..to], out),
        Store::Words16(list) => encode_16(kind, &list[from..to], out),
        Store::Words32(list) => encode_32(kind, &list[from..to], out),
        Store::Words64(list) => encode_64(kind, &list[from..to], out),
        Store::Pairs(pairs) => pairs.encode(from, to, out),
    }
}
