//! Values of a column, and buffers of them.

ghost use Rattle.std.specs.Prelude.{◌≡◌, ◌≢◌, ◌<◌, ◌^◌, IsTrue, IfOk};
ghost use Rattle.nt_types.specs.declared.column_type.ColumnType.TheVariants.{Switch};
ghost use Rattle.nt_encode.specs.Pages.{AllFit};

use nt_column::ColumnBuf;
use nt_types::ColumnType;
use std::alloc::{AllocError, Global};

/// Whether the value has at most so many bits.
fn fits(value: u64, bits: u16) -> bool
    ensures { IsTrue result → value < 2 ^ bits }
{
    match bits {
        1 => value < 2,
        8 => value < 1 << 8,
        16 => value < 1 << 16,
        32 => value < 1 << 32,
        64 => true,
        _ => false,
    }
}

/// Whether each value is one of the type's bits.
pub fn all_fit(kind: ColumnType, values: &[u64]) -> bool
    ensures { IsTrue result → AllFit kind values.now }
{
    let bits = kind.bits();
    for value in values {
        if !fits(*value, bits) {
            return false;
        }
    }
    true
}

/// Whether the type has values that stand alone.
pub fn is_plain(kind: ColumnType) -> bool
    ensures { IsTrue result → kind ≢ Switch }
{
    kind != ColumnType::Switch
}

/// A buffer of those values that fit.
pub fn filled(alloc: Global, kind: ColumnType, values: &[u64]) -> Result<ColumnBuf, AllocError>
    ensures { IfOk result (λ b. b.column.kind ≡ kind) }
{
    let mut buffer = ColumnBuf::new(alloc, kind);
    for value in values {
        buffer.reserve(1)?;
        if is_plain(kind) && fits(*value, kind.bits()) {
            buffer.push(*value);
        }
    }
    Ok(buffer)
}

/// A buffer of the bytes of these pieces of a text.
pub fn spelled(alloc: Global, pieces: &[&[u8]]) -> Result<ColumnBuf, AllocError> {
    let mut buffer = ColumnBuf::new(alloc, ColumnType::Char);
    for piece in pieces {
        buffer.reserve(piece.len())?;
        buffer.push_bytes(piece);
    }
    Ok(buffer)
}

/// A buffer of these pairs of a switch.
pub fn switched(alloc: Global, pairs: &[(u64, u32)]) -> Result<ColumnBuf, AllocError> {
    let mut buffer = ColumnBuf::new(alloc, ColumnType::Switch);
    for pair in pairs {
        buffer.reserve(1)?;
        buffer.push_switch(pair.0, pair.1);
    }
    Ok(buffer)
}
