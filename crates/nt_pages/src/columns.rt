//! The pages of columns, one column after the other.

ghost use Rattle.std.specs.Prelude.{◌≡◌, ◌-◌, ◌≤◌, ◌++◌, length, OnOk, IfOk};
ghost use Rattle.nt_lists.specs.Chunks.{chunks};
ghost use Rattle.nt_column.specs.Column.{columns_of};
ghost use Rattle.nt_pages.specs.Image.{key_room, column_bytes, payload, IsPageLimit};
ghost use Rattle.nt_pages.specs.Metas.{page_metas, column_metas};
ghost use Rattle.nt_pages.specs.Written.{written_bytes};

use crate::page::put_page;
use crate::partial::PartialImage;
use nt_book::{PageList, PageMeta};
use nt_column::{ColumnBuf, ColumnSet};
use std::alloc::{AllocError, Global};

/// Appends the pages of a column.
pub fn put_column(
    alloc: Global,
    buffer: &ColumnBuf,
    page: u32,
    image: &mut PartialImage,
) -> Result<Vec<PageMeta>, AllocError>
    requires limit { IsPageLimit page }
    requires room { key_room ≤ length (written_bytes image.old) }
    ensures image { OnOk result
        (written_bytes image.new ≡ written_bytes image.old ++ column_bytes page buffer.now.column) }
    ensures metas { IfOk result
        (λ v. v.items ≡ page_metas buffer.now.column.kind (length (written_bytes image.old) - key_room)
        (chunks page buffer.now.column.elements)) }
{
    let pages = buffer.page_cut(page);
    let mut metas = Vec::with_capacity(alloc, pages)?;
    for i in 0..pages {
        metas.push(put_page(buffer, page, i, image)?)?;
    }
    Ok(metas)
}

/// Appends the pages of all columns.
pub fn put_columns(
    alloc: Global,
    columns: &ColumnSet,
    count: u32,
    page: u32,
    image: &mut PartialImage,
) -> Result<Vec<PageList>, AllocError>
    requires limit { IsPageLimit page }
    requires count { count ≡ length columns.now }
    requires room { length (written_bytes image.old) ≡ key_room }
    ensures image { OnOk result
        (written_bytes image.new ≡ written_bytes image.old ++ payload page (columns_of columns.now)) }
    ensures metas { IfOk result (λ v. v.items ≡ column_metas page 0 (columns_of columns.now)) }
{
    let mut lists = Vec::with_capacity(alloc, count as usize)?;
    for k in 0..count {
        let buffer = columns.column(k);
        let metas = put_column(alloc, buffer, page, image)?;
        lists.push(PageList::from_vec(metas))?;
    }
    Ok(lists)
}
