//! Images of clusters, and the meta data of their pages.

mod data;

ghost use Rattle.std.specs.Prelude.{◌≡◌, IsTrue};
ghost use Rattle.nt_column.specs.Column.{columns_of};
ghost use Rattle.nt_trees.specs.Described.{AreDescribed};

use self::data::{COLUMNS, IMAGE, METAS, PAIRS, Page};
use super::rows::{described, schema_of};
use super::values::{filled, spelled, switched};
use nt_book::PageMeta;
use nt_column::{ColumnBuf, ColumnSet};
use nt_pages::{ClusterImage, build};
use nt_schema::Schema;
use nt_types::ColumnType;
use std::alloc::{AllocError, Global};
use std::test::*;

/// Whether the pages are these.
fn lie_so(pages: &[PageMeta], want: &[Page]) -> bool {
    pages.len() == want.len()
        && pages.iter().zip(want).all(|(page, (count, place, size))| page.count == *count
            && page.place == *place
            && page.size == *size)
}

/// Whether the schema has columns of these types.
fn describes(schema: &Schema, columns: &ColumnSet) -> bool
    ensures { IsTrue result → AreDescribed (columns_of columns.now) schema.now.columns }
{
    if schema.columns() as usize != columns.columns() {
        return false;
    }
    for k in 0..schema.columns() {
        if columns.column(k).kind().code() != schema.column(k).code {
            return false;
        }
    }
    true
}

/// The image of columns in pages of so many elements.
fn built(
    alloc: Global,
    columns: &ColumnSet,
    schema: &Schema,
    page: u32,
) -> Result<ClusterImage, AllocError> {
    if !describes(schema, columns) || page == 0 || page > 16 {
        return Err(AllocError);
    }
    build(alloc, columns, schema, page, 7, 3)
}

/// Whether the image of this one column has these pages, with these bytes behind the room for its key.
fn agrees(
    alloc: Global,
    buffer: ColumnBuf,
    page: u32,
    pages: &[Page],
    bytes: &[u8],
) -> Result<bool, AllocError> {
    let kind = buffer.kind();
    let field = (0, 0, 0, b"x".as_slice(), b"".as_slice());
    let schema = schema_of(alloc, &[field], &[(kind.code(), kind.bits(), 0, 0, 0, 0)])?;
    let mut columns = ColumnSet::new(alloc, &[kind])?;
    *columns.buffer(0) = buffer;
    let image = built(alloc, &columns, &schema, page)?;
    let lists = image.meta.pages.as_slice();
    Ok(
        image.bytes.as_slice().get(42..) == Some(bytes)
            && lists.len() == 1
            && lie_so(lists[0].as_slice(), pages),
    )
}

/// Whether columns of each type have their pages.
fn columns_of_each_type(alloc: Global) -> Result<bool, AllocError> {
    for (kinds, values, page, pages, bytes) in &COLUMNS {
        for kind in *kinds {
            let buffer = filled(alloc, *kind, values)?;
            if buffer.len() != values.len() || !agrees(alloc, buffer, *page, pages, bytes)? {
                return Ok(false);
            }
        }
    }
    Ok(true)
}

/// Whether pairs of a switch have their pages.
fn pairs_of_a_switch(alloc: Global) -> Result<bool, AllocError> {
    let pairs = [(3, 1), (0, 0), (0x0102_0304_0506_0708, 0xffff_fffe)];
    let buffer = switched(alloc, &pairs)?;
    agrees(alloc, buffer, 2, &[(2, 0, 24), (1, 32, 12)], PAIRS)
}

/// Whether the image of a cluster is this one, with its meta data.
fn clusters(alloc: Global) -> Result<bool, AllocError> {
    let schema = described(alloc, b"x u16\nt string\n", false)?;
    let kinds = [
        ColumnType::SplitUInt16,
        ColumnType::SplitIndex64,
        ColumnType::Char,
    ];
    let mut columns = ColumnSet::new(alloc, &kinds)?;
    columns.zeros(0, 3);
    columns.zeros(1, 3);
    *columns.buffer(2) = spelled(alloc, &[b"abcde"])?;
    let image = built(alloc, &columns, &schema, 2)?;
    let meta = &image.meta;
    let lists = meta.pages.as_slice();
    if (meta.context, meta.entries, meta.len) != (7, 3, IMAGE.len() as u64)
        || lists.len() != METAS.len()
    {
        return Ok(false);
    }
    for (list, want) in lists.iter().zip(&METAS) {
        if !lie_so(list.as_slice(), want) {
            return Ok(false);
        }
    }
    Ok(image.bytes.as_slice() == IMAGE && image.bytes.into_vec().capacity() == IMAGE.len())
}

/// Whether the image of no columns is the room for a key.
fn no_columns(alloc: Global) -> Result<bool, AllocError> {
    let image = built(alloc, &ColumnSet::new(alloc, &[])?, &Schema::new(alloc), 16)?;
    let counts = (image.meta.len, image.meta.pages.as_slice().len());
    Ok(image.bytes.as_slice() == [0; 42].as_slice() && counts == (42, 0))
}

/// Whether there is no image of more elements than memory has.
fn too_large(alloc: Global) -> Result<bool, AllocError> {
    let schema = described(alloc, b"x u16\n", false)?;
    for count in [1 << 63, u64::MAX] {
        let mut columns = ColumnSet::new(alloc, &[ColumnType::SplitUInt16])?;
        columns.zeros(0, count);
        if built(alloc, &columns, &schema, 1).is_ok() {
            return Ok(false);
        }
    }
    Ok(true)
}

#[test]
fn images(rt: HostRuntime) {
    let alloc = rt.alloc();
    for (holds, name) in [
        (columns_of_each_type(alloc), "columns of each type"),
        (pairs_of_a_switch(alloc), "pairs of a switch"),
        (clusters(alloc), "clusters"),
        (no_columns(alloc), "no columns"),
        (too_large(alloc), "too large"),
    ] {
        assert!(rt; holds == Ok(true), "{name}");
    }
}
