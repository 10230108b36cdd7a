//! Pages that are read straight into lists of their width.

ghost use Rattle.std.specs.Prelude.{◌≡◌, ◌+◌, ◌*◌, ◌≤◌, ◌++◌, length, map, take, vec_len, vec_capacity, IfOk, OnOk, OnErr, IsOk};
ghost use Rattle.nt_types.specs.ColumnTable.{bits_of};
ghost use Rattle.nt_encode.specs.Pages.{page_size, page_values};
ghost use Rattle.nt_encode.specs.Switch.{switch_indices, switch_tags};
ghost use Rattle.nt_column.specs.Bits.{bit_of};
ghost use Rattle.nt_column.specs.Growing.{HasGrown, AreWrittenBehind};

use nt_encode::{decode, decode_16, decode_32, index_of_pair, tag_of_pair, value_at};
use nt_types::ColumnType;
use std::alloc::AllocError;

/// Adds the values of a page as truth values.
#[inline(always)]
pub fn push_bits(list: &mut Vec<bool>, kind: ColumnType, bytes: &[u8], count: usize)
    requires kind { bits_of kind ≡ 1 }
    requires length { length bytes.now ≡ page_size kind count }
    requires room { vec_len list.old + count ≤ vec_capacity list.old }
    ensures items { map bit_of list.new.items ≡ map bit_of list.old.items ++ page_values kind count bytes.now }
    ensures room { HasGrown count (vec_len list.old) (vec_capacity list.old) (vec_len list.new)
        (vec_capacity list.new) }
{
    let mut last = 0;
    for i in 0..count {
        last = value_at(kind, bytes, count, i, last);
        list.push_reserved(last == 1);
    }
}

/// Writes the values of a page behind the first truth values, and gives how many there are then.
pub fn fill_bits(
    list: &mut Vec<bool>,
    kind: ColumnType,
    filled: usize,
    bytes: &[u8],
    count: usize,
) -> Result<usize, AllocError>
    requires page { (bits_of kind ≡ 1) × (length bytes.now ≡ page_size kind count) }
    requires within { filled ≤ vec_len list.old }
    ensures page { IfOk result (λ n. (n ≡ filled + count) × AreWrittenBehind filled count (page_values kind count bytes.now)
        (map bit_of list.old.items) (map bit_of list.new.items) (vec_len list.old)
        (vec_capacity list.old) (vec_len list.new) (vec_capacity list.new)) }
    ensures failed { OnErr result (list.new.items ≡ take filled list.old.items) }
    ensures succeeds { vec_len list.old + count ≤ vec_capacity list.old → IsOk result }
{
    list.truncate(filled);
    list.reserve(count)?;
    push_bits(list, kind, bytes, count);
    Ok(filled + count)
}

/// Writes the values of a page behind the first bytes, and gives how many there are then. Those that
/// stood there are written over.
pub fn fill_8(
    list: &mut Vec<u8>,
    kind: ColumnType,
    filled: usize,
    bytes: &[u8],
    count: usize,
) -> Result<usize, AllocError>
    requires page { (bits_of kind ≡ 8) × (length bytes.now ≡ page_size kind count) }
    requires within { filled ≤ vec_len list.old }
    ensures page { IfOk result (λ n. (n ≡ filled + count) × AreWrittenBehind filled count (page_values kind count bytes.now)
        list.old.items list.new.items (vec_len list.old) (vec_capacity list.old)
        (vec_len list.new) (vec_capacity list.new)) }
    ensures failed { OnErr result (list.new.items ≡ list.old.items) }
    ensures succeeds { vec_len list.old + count ≤ vec_capacity list.old → IsOk result }
{
    let end = filled + count;
    list.resize(end.max(list.len()), 0)?;
    list[filled..end].copy_from_slice(bytes);
    Ok(end)
}

/// Writes the values of a page behind the first words of 16 bits, and gives how many there are then. Those that
/// stood there are written over.
pub fn fill_16(
    list: &mut Vec<u16>,
    kind: ColumnType,
    filled: usize,
    bytes: &[u8],
    count: usize,
) -> Result<usize, AllocError>
    requires page { (bits_of kind ≡ 16) × (length bytes.now ≡ page_size kind count) }
    requires within { filled ≤ vec_len list.old }
    ensures page { IfOk result (λ n. (n ≡ filled + count) × AreWrittenBehind filled count (page_values kind count bytes.now)
        list.old.items list.new.items (vec_len list.old) (vec_capacity list.old)
        (vec_len list.new) (vec_capacity list.new)) }
    ensures failed { OnErr result (list.new.items ≡ list.old.items) }
    ensures succeeds { vec_len list.old + count ≤ vec_capacity list.old → IsOk result }
{
    let end = filled + count;
    list.resize(end.max(list.len()), 0)?;
    decode_16(kind, bytes, &mut list[filled..end]);
    Ok(end)
}

/// Writes the values of a page behind the first words of 32 bits, and gives how many there are then. Those that
/// stood there are written over.
pub fn fill_32(
    list: &mut Vec<u32>,
    kind: ColumnType,
    filled: usize,
    bytes: &[u8],
    count: usize,
) -> Result<usize, AllocError>
    requires page { (bits_of kind ≡ 32) × (length bytes.now ≡ page_size kind count) }
    requires within { filled ≤ vec_len list.old }
    ensures page { IfOk result (λ n. (n ≡ filled + count) × AreWrittenBehind filled count (page_values kind count bytes.now)
        list.old.items list.new.items (vec_len list.old) (vec_capacity list.old)
        (vec_len list.new) (vec_capacity list.new)) }
    ensures failed { OnErr result (list.new.items ≡ list.old.items) }
    ensures succeeds { vec_len list.old + count ≤ vec_capacity list.old → IsOk result }
{
    let end = filled + count;
    list.resize(end.max(list.len()), 0)?;
    decode_32(kind, bytes, &mut list[filled..end]);
    Ok(end)
}

/// Writes the values of a page behind the first words of 64 bits, and gives how many there are then. Those that
/// stood there are written over.
pub fn fill_64(
    list: &mut Vec<u64>,
    kind: ColumnType,
    filled: usize,
    bytes: &[u8],
    count: usize,
) -> Result<usize, AllocError>
    requires page { (bits_of kind ≡ 64) × (length bytes.now ≡ page_size kind count) }
    requires within { filled ≤ vec_len list.old }
    ensures page { IfOk result (λ n. (n ≡ filled + count) × AreWrittenBehind filled count (page_values kind count bytes.now)
        list.old.items list.new.items (vec_len list.old) (vec_capacity list.old)
        (vec_len list.new) (vec_capacity list.new)) }
    ensures failed { OnErr result (list.new.items ≡ list.old.items) }
    ensures succeeds { vec_len list.old + count ≤ vec_capacity list.old → IsOk result }
{
    let end = filled + count;
    list.resize(end.max(list.len()), 0)?;
    decode(kind, bytes, &mut list[filled..end]);
    Ok(end)
}

/// Adds the indices of a page of pairs.
pub fn push_indices(list: &mut Vec<u64>, bytes: &[u8], count: usize)
    requires length { length bytes.now ≡ 12 * count }
    requires room { vec_len list.old + count ≤ vec_capacity list.old }
    ensures items { list.new.items ≡ list.old.items ++ switch_indices count bytes.now }
    ensures room { HasGrown count (vec_len list.old) (vec_capacity list.old) (vec_len list.new)
        (vec_capacity list.new) }
{
    for i in 0..count {
        list.push_reserved(index_of_pair(bytes, count, i));
    }
}

/// Adds the tags of a page of pairs.
pub fn push_tags(list: &mut Vec<u32>, bytes: &[u8], count: usize)
    requires length { length bytes.now ≡ 12 * count }
    requires room { vec_len list.old + count ≤ vec_capacity list.old }
    ensures items { list.new.items ≡ list.old.items ++ switch_tags count bytes.now }
    ensures room { HasGrown count (vec_len list.old) (vec_capacity list.old) (vec_len list.new)
        (vec_capacity list.new) }
{
    for i in 0..count {
        list.push_reserved(tag_of_pair(bytes, count, i));
    }
}
