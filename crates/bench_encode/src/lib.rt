//! The codings of pages as C functions, which the benchmark `bench/encode.sh` calls. Proved: a page is `page_bytes` of the values that
//! it is given, values are `page_values` of the bytes, for the type of a code. Of the pages of a column only a bound is proved: what
//! they are made by is proved in `nt_column`, and the benchmark compares them.
#![tactic(auto)]

ghost use Rattle.std.specs.Prelude.{◌≡◌, ◌≢◌, ◌<◌, ◌≤◌, ◌^◌, length, IsTrue};
ghost use Rattle.nt_types.specs.ColumnTable.{code_of};
ghost use Rattle.nt_types.specs.declared.column_type.ColumnType.{ColumnType};
ghost use Rattle.nt_types.specs.declared.column_type.ColumnType.TheVariants.{Switch};
ghost use Rattle.nt_encode.specs.Pages.{page_size, page_values, page_bytes, AllFit};

use nt_column::ColumnBuf;
use nt_types::ColumnType;
use std::alloc::{AllocError, Global};

/// `nt_encode::encode` for the column type of a code.
#[unsafe(no_mangle)]
pub extern "C" fn nt_encode_page(code: u16, values: &[u64], out: &mut [u8])
    ghost kind: { ColumnType }
    requires code { code_of kind ≡ code }
    requires kind { kind ≢ Switch }
    requires length { length out.old ≡ page_size kind (length values.now) }
    requires fits { AllFit kind values.now }
    ensures { out.new ≡ page_bytes kind values.now }
{
    match ColumnType::of_code(code) {
        Some(kind) => nt_encode::encode(kind, values, out),
        None => unreachable!(),
    }
}

/// `nt_encode::decode` for the column type of a code.
#[unsafe(no_mangle)]
pub extern "C" fn nt_decode_page(code: u16, bytes: &[u8], out: &mut [u64])
    ghost kind: { ColumnType }
    requires code { code_of kind ≡ code }
    requires kind { kind ≢ Switch }
    requires length { length bytes.now ≡ page_size kind (length out.old) }
    ensures { out.new ≡ page_values kind (length out.new) bytes.now }
{
    match ColumnType::of_code(code) {
        Some(kind) => nt_encode::decode(kind, bytes, out),
        None => unreachable!(),
    }
}

/// Whether the value has at most so many bits.
fn fits(value: u64, bits: u16) -> bool
    ensures { IsTrue result → value < 2 ^ bits }
{
    match bits {
        1 => value < 2,
        8 => value < 1 << 8,
        16 => value < 1 << 16,
        32 => value < 1 << 32,
        64 => true,
        _ => false,
    }
}

/// A column of those of these values that are of its type; of a Switch none.
fn filled(alloc: Global, kind: ColumnType, values: &[u64]) -> Result<ColumnBuf, AllocError> {
    let mut buffer = ColumnBuf::new(alloc, kind);
    buffer.reserve(values.len())?;
    for value in values {
        buffer.reserve(1)?;
        if kind != ColumnType::Switch && fits(*value, kind.bits()) {
            buffer.push(*value);
        }
    }
    Ok(buffer)
}

/// Writes the whole pages of a column, of so many elements each, as far as there is room for them; how many bytes they have.
fn encode_pages(buffer: &ColumnBuf, page: u32, out: &mut [u8]) -> usize
    requires { 0 < page }
    ensures { result ≤ length out.new }
{
    let size = nt_encode::size_of(buffer.kind(), u64::from(page)) as usize;
    let mut at = 0;
    for i in 0..buffer.len() / page as usize {
        if out.len() - at < size {
            break;
        }
        let from = i * page as usize;
        buffer.encode(from, from + page as usize, &mut out[at..at + size]);
        at += size;
    }
    at
}

/// Keeps values in a column of the type of a code, and writes its whole pages so many times; how many bytes they have, which stand
/// in `out`.
#[unsafe(no_mangle)]
pub extern "C" fn nt_encode_column(
    alloc: Global,
    code: u16,
    values: &[u64],
    page: u32,
    times: u32,
    out: &mut [u8],
) -> usize
    requires { 0 < page }
    ensures { result ≤ length out.new }
{
    let Some(kind) = ColumnType::of_code(code) else {
        return 0;
    };
    let Ok(buffer) = filled(alloc, kind, values) else {
        return 0;
    };
    let mut size = 0;
    for _ in 0..times {
        size = encode_pages(&buffer, page, out);
    }
    size
}
