//! What is kept at a width is in the range of types of that width.

ghost use Rattle.std.specs.Prelude.{◌≡◌, length, map};
ghost use Rattle.std.specs.List.{zip};
ghost use Rattle.nt_types.specs.ColumnTable.{bits_of};
ghost use Rattle.nt_column.specs.Elements.{plain, AreElementsOf};
ghost use Rattle.nt_column.specs.Bits.{bit_of};
ghost use Rattle.nt_column.specs.Widths.{pair_width};

use nt_types::ColumnType;

/// Truth values have one bit.
pub fn bits_in_range(kind: ColumnType, list: &[bool])
    requires { bits_of kind ≡ 1 }
    ensures { AreElementsOf kind (map (λ b. plain (bit_of b)) list.now) }
{}

/// Bytes have 8 bits.
pub fn bytes_in_range(kind: ColumnType, list: &[u8])
    requires { bits_of kind ≡ 8 }
    ensures { AreElementsOf kind (map plain list.now) }
{}

/// Words of 16 bits.
pub fn in_range_16(kind: ColumnType, list: &[u16])
    requires { bits_of kind ≡ 16 }
    ensures { AreElementsOf kind (map plain list.now) }
{}

/// Words of 32 bits.
pub fn in_range_32(kind: ColumnType, list: &[u32])
    requires { bits_of kind ≡ 32 }
    ensures { AreElementsOf kind (map plain list.now) }
{}

/// Words of 64 bits.
pub fn in_range_64(kind: ColumnType, list: &[u64])
    requires { bits_of kind ≡ 64 }
    ensures { AreElementsOf kind (map plain list.now) }
{}

/// An index of 64 bits and a tag of 32 are a pair of a Switch.
pub fn pairs_in_range(kind: ColumnType, indices: &[u64], tags: &[u32])
    requires kind { bits_of kind ≡ pair_width }
    requires same { length tags.now ≡ length indices.now }
    ensures { AreElementsOf kind (zip indices.now tags.now) }
{}
