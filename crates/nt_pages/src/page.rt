//! A page, encoded in place and hashed right after.

ghost use Rattle.std.specs.Prelude.{◌≡◌, ◌+◌, ◌-◌, ◌<◌, ◌≤◌, [], ◌++◌, length, slice_index_or, OnOk, IfOk};
ghost use Rattle.std.specs.List.{slice_range};
ghost use Rattle.nt_encode.specs.Pages.{page_size};
ghost use Rattle.nt_lists.specs.Chunks.{chunks};
ghost use Rattle.nt_pages.specs.Image.{key_room, checksum_len, stored_page, IsPageLimit, IsPageOfColumn};
ghost use Rattle.nt_pages.specs.Metas.{page_meta};
ghost use Rattle.nt_pages.specs.Written.{written_bytes};

use crate::partial::{CHECKSUM, PartialImage, ROOM};
use nt_book::PageMeta;
use nt_column::ColumnBuf;
use nt_encode::size_of;
use std::alloc::AllocError;

/// Writes the page of the elements from one place to before another, and its checksum.
fn write_page(buffer: &ColumnBuf, from: usize, to: usize, out: &mut [u8])
    requires order { from ≤ to }
    requires within { to ≤ length buffer.now.column.elements }
    requires length { length out.old ≡ page_size buffer.now.column.kind (to - from) + checksum_len }
    ensures { out.new ≡ stored_page buffer.now.column.kind
        (slice_range buffer.now.column.elements from to) }
{
    let (page, checksum) = out.split_at_mut(out.len() - CHECKSUM);
    buffer.encode(from, to, page);
    checksum.copy_from_slice(&nt_xxh3::sum(page).to_le_bytes());
}

/// Appends the page of the elements from one place to before another, and its checksum.
fn put_part(
    buffer: &ColumnBuf,
    from: usize,
    to: usize,
    image: &mut PartialImage,
) -> Result<PageMeta, AllocError>
    requires part { IsPageOfColumn (length buffer.now.column.elements) from to }
    requires room { key_room ≤ length (written_bytes image.old) }
    ensures image { OnOk result
        (written_bytes image.new ≡ written_bytes image.old ++ stored_page buffer.now.column.kind
        (slice_range buffer.now.column.elements from to)) }
    ensures meta { IfOk result
        (λ m. m ≡ page_meta buffer.now.column.kind (length (written_bytes image.old) - key_room)
        (slice_range buffer.now.column.elements from to)) }
{
    let size = size_of(buffer.kind(), (to - from) as u64) as usize;
    let start = image.len;
    let end = start + size + CHECKSUM;
    image.grow(end)?;
    write_page(buffer, from, to, &mut image.bytes[start..end]);
    image.len = end;
    Ok(PageMeta {
        count: (to - from) as u32,
        place: (start - ROOM) as u64,
        size: size as u32,
    })
}

/// Appends page i of a column that is cut at so many elements, and its checksum.
pub fn put_page(
    buffer: &ColumnBuf,
    page: u32,
    i: usize,
    image: &mut PartialImage,
) -> Result<PageMeta, AllocError>
    requires limit { IsPageLimit page }
    requires within { i < length (chunks page buffer.now.column.elements) }
    requires room { key_room ≤ length (written_bytes image.old) }
    ensures image { OnOk result
        (written_bytes image.new ≡ written_bytes image.old ++ stored_page buffer.now.column.kind
        (slice_index_or (chunks page buffer.now.column.elements) i [])) }
    ensures meta { IfOk result
        (λ m. m ≡ page_meta buffer.now.column.kind (length (written_bytes image.old) - key_room)
        (slice_index_or (chunks page buffer.now.column.elements) i [])) }
{
    let count = buffer.len();
    let from = i * page as usize;
    let to = from + (count - from).min(page as usize);
    put_part(buffer, from, to, image)
}
