//! Columns in memory, and pages of their elements.

mod data;

use self::data::PAGES;
use super::values::{filled, spelled, switched};
use nt_column::{ColumnBuf, ColumnSet, Columns, CowSlice};
use nt_encode::size_of;
use nt_types::ColumnType;
use std::alloc::{AllocError, Global};
use std::test::*;

/// The page of the elements from one place to before another.
fn page(alloc: Global, buffer: &ColumnBuf, from: usize, to: usize) -> Result<Vec<u8>, AllocError> {
    if from > to || to > buffer.len() || to - from > 64 {
        return Err(AllocError);
    }
    let size = size_of(buffer.kind(), (to - from) as u64);
    let mut bytes = vec![in alloc; 0xaa; size as usize]?;
    buffer.encode(from, to, &mut bytes);
    Ok(bytes)
}

/// Whether a column of these values has them one by one, and all but the first and the last as this page.
fn holds(
    alloc: Global,
    kind: ColumnType,
    values: &[u64],
    bytes: &[u8],
) -> Result<bool, AllocError> {
    let buffer = filled(alloc, kind, values)?;
    if buffer.len() != values.len() {
        return Ok(false);
    }
    for i in 0..buffer.len() {
        if buffer.number(i) != values[i] || buffer.tag(i) != 0 {
            return Ok(false);
        }
    }
    let page = page(alloc, &buffer, 1, buffer.len().saturating_sub(1))?;
    Ok(page.as_slice() == bytes)
}

/// Whether each type has its pages.
fn elements_of_each_type(alloc: Global) -> Result<bool, AllocError> {
    for (kinds, values, bytes) in &PAGES {
        for kind in *kinds {
            if !holds(alloc, *kind, values, bytes)? {
                return Ok(false);
            }
        }
    }
    Ok(true)
}

/// Whether pairs of a switch are kept, and have their page.
fn pairs_of_a_switch(alloc: Global) -> Result<bool, AllocError> {
    let pairs = [(3, 1), (0x0102_0304_0506_0708, 0xffff_fffe)];
    let buffer = switched(alloc, &pairs)?;
    if buffer.len() != 2 {
        return Ok(false);
    }
    let is_kept = (buffer.number(1), buffer.tag(1)) == (0x0102_0304_0506_0708, 0xffff_fffe);
    let want = [8, 7, 6, 5, 4, 3, 2, 1, 0xfe, 0xff, 0xff, 0xff];
    Ok(is_kept && page(alloc, &buffer, 1, 2)?.as_slice() == want.as_slice())
}

/// Whether a text of bytes is lent, and one of wider elements copied.
fn texts(alloc: Global) -> Result<bool, AllocError> {
    let buffer = spelled(alloc, &[b"he", b"llo"])?;
    let wide = filled(alloc, ColumnType::UInt16, &[0x168, 0x69])?;
    if buffer.len() != 5 || wide.len() != 2 {
        return Ok(false);
    }
    let is_lent = matches!(
        buffer.text(alloc, 1, 4)?,
        CowSlice::Borrowed(text) if text == b"ell".as_slice()
    );
    let is_copied = matches!(wide.text(alloc, 0, 2)?, CowSlice::Owned(_));
    Ok(is_lent && is_copied && wide.text(alloc, 0, 2)?.as_slice() == b"hi".as_slice())
}

/// Whether five elements are cut in so many pages.
fn cuts(alloc: Global) -> Result<bool, AllocError> {
    let mut set = ColumnSet::new(alloc, &[ColumnType::UInt8])?;
    if set.column(0).page_cut(2) != 0 {
        return Ok(false);
    }
    set.zeros(0, 5);
    if set.columns() != 1 {
        return Ok(false);
    }
    for (page, pages) in [(1, 5), (2, 3), (4, 2), (5, 1), (9, 1)] {
        if page > 0 && set.column(0).page_cut(page) != pages {
            return Ok(false);
        }
    }
    Ok(true)
}

/// Three indices that are 0, the text `ab`, and two pairs that are 0, by column.
fn three_columns(alloc: Global) -> Result<ColumnSet, AllocError> {
    let kinds = [
        ColumnType::SplitIndex64,
        ColumnType::Char,
        ColumnType::Switch,
    ];
    let mut set = ColumnSet::new(alloc, &kinds)?;
    set.zeros(0, 3);
    set.zeros(2, 2);
    *set.buffer(1) = spelled(alloc, &[b"ab"])?;
    Ok(set)
}

/// Whether a set answers for each of its columns, and for none behind the last.
fn elements_by_column(alloc: Global) -> Result<bool, AllocError> {
    let mut set = three_columns(alloc)?;
    if (set.columns(), set.len(0), set.len(1)) != (3, 3, 2) {
        return Ok(false);
    }
    if (set.len(2), set.len(3)) != (2, 0) {
        return Ok(false);
    }
    let is_kept = (set.number(0, 2), set.number(1, 1), set.tag(2, 1)) == (0, 98, 0);
    set.clear();
    Ok(is_kept && (set.len(0), set.len(1), set.len(2)) == (0, 0, 0))
}

/// Whether a set has the texts of its columns.
fn texts_by_column(alloc: Global) -> Result<bool, AllocError> {
    let set = three_columns(alloc)?;
    if (set.len(0), set.len(1)) != (3, 2) {
        return Ok(false);
    }
    let is_text = set.text(alloc, 1, 0, 2)?.as_slice() == b"ab".as_slice();
    Ok(is_text && set.text(alloc, 0, 1, 3)?.as_slice() == [0, 0].as_slice())
}

/// Whether a set has the pages of its columns.
fn pages_by_column(alloc: Global) -> Result<bool, AllocError> {
    let set = three_columns(alloc)?;
    if set.columns() != 3 {
        return Ok(false);
    }
    let zeros = [0; 24];
    let is_first = page(alloc, set.column(0), 0, 3)?.as_slice() == zeros.as_slice();
    Ok(is_first && page(alloc, set.column(2), 0, 2)?.as_slice() == zeros.as_slice())
}

fn crosses<T: Send>(value: T) -> T {
    value
}

/// Whether a set crosses to another thread.
fn a_set_crosses(alloc: Global) -> Result<bool, AllocError> {
    let set = crosses(ColumnSet::new(alloc, &[ColumnType::Switch])?);
    Ok(set.columns() == 1)
}

#[test]
fn columns(rt: HostRuntime) {
    let alloc = rt.alloc();
    for (holds, name) in [
        (elements_of_each_type(alloc), "elements of each type"),
        (pairs_of_a_switch(alloc), "pairs of a switch"),
        (texts(alloc), "texts"),
        (cuts(alloc), "cuts"),
        (elements_by_column(alloc), "elements by column"),
        (texts_by_column(alloc), "texts by column"),
        (pages_by_column(alloc), "pages by column"),
        (a_set_crosses(alloc), "a set crosses"),
    ] {
        assert!(rt; holds == Ok(true), "{name}");
    }
}
