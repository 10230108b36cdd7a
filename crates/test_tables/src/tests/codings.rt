//! Pages of each column type, written and read.

mod data;

use self::data::PAGES;
use super::values::{all_fit, is_plain};
use nt_encode::{decode, decode_switch, encode, encode_switch, size_of};
use nt_types::ColumnType;
use std::alloc::{AllocError, Global};
use std::test::*;

/// Whether the page of these values is these bytes, and they are read back.
fn agrees(
    alloc: Global,
    kind: ColumnType,
    values: &[u64],
    bytes: &[u8],
) -> Result<bool, AllocError> {
    let mut page = vec![in alloc; 0xaa; bytes.len()]?;
    let mut back = vec![in alloc; 0xaa; values.len()]?;
    if !is_plain(kind) || !all_fit(kind, values) || values.len() >= 64 {
        return Ok(false);
    }
    if size_of(kind, values.len() as u64) != bytes.len() as u64 {
        return Ok(false);
    }
    encode(kind, values, &mut page);
    decode(kind, bytes, &mut back);
    Ok(page.as_slice() == bytes && back.as_slice() == values)
}

/// Whether each type has its pages.
fn pages_of_each_type(alloc: Global) -> Result<bool, AllocError> {
    for (kinds, values, bytes) in &PAGES {
        for kind in *kinds {
            if !agrees(alloc, *kind, values, bytes)? {
                return Ok(false);
            }
        }
    }
    Ok(true)
}

/// Whether the bits behind the last value are looked over.
fn padding_is_ignored() -> bool {
    let mut values = [7; 3];
    decode(ColumnType::Bit, &[0xfd], &mut values);
    values == [1, 0, 1]
}

/// Whether pairs of a switch have their page, and are read back.
fn pairs_of_a_switch() -> bool {
    let mut page = [0xaa; 24];
    encode_switch(&[1, 0x0102_0304_0506_0708], &[2, 0xffff_fffe], &mut page);
    let want = [
        1, 0, 0, 0, 0, 0, 0, 0, 2, 0, 0, 0, 8, 7, 6, 5, 4, 3, 2, 1, 0xfe, 0xff, 0xff, 0xff,
    ];
    let is_written = page == want && size_of(ColumnType::Switch, 2) == 24;
    let (mut indices, mut tags) = ([9; 2], [9; 2]);
    decode_switch(&page, &mut indices, &mut tags);
    is_written && indices == [1, 0x0102_0304_0506_0708] && tags == [2, 0xffff_fffe]
}

#[test]
fn codings(rt: HostRuntime) {
    for (holds, name) in [
        (pages_of_each_type(rt.alloc()), "pages of each type"),
        (Ok(padding_is_ignored()), "padding is ignored"),
        (Ok(pairs_of_a_switch()), "pairs of a switch"),
    ] {
        assert!(rt; holds == Ok(true), "{name}");
    }
}
