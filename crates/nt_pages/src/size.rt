//! How long the image of a cluster is.

ghost use Rattle.std.specs.Prelude.{◌≡◌, ◌<◌, ◌≤◌, ◌^◌, length, None, IfSome};
ghost use Rattle.nt_column.specs.Column.{columns_of};
ghost use Rattle.nt_book.specs.Ranges.{max_page};
ghost use Rattle.nt_pages.specs.Image.{column_bytes, image};

use crate::partial::{CHECKSUM, ROOM};
use nt_column::{ColumnBuf, ColumnSet, pages_have_their_size};
use nt_encode::size_of;

/// The bytes of a column's pages with their checksums, or none where they are more than a number of 64 bits counts.
fn column_size(buffer: &ColumnBuf, page: u32) -> Option<u64>
    requires some { 0 < page }
    requires most { page ≤ max_page }
    ensures some { IfSome result (λ n. n ≡ length (column_bytes page buffer.now.column)) }
    ensures none { result ≡ None → 2 ^ 64 ≤ length (column_bytes page buffer.now.column) }
{
    pages_have_their_size();
    let (kind, count, page) = (buffer.kind(), buffer.len() as u64, u64::from(page));
    let whole = (count / page).checked_mul(size_of(kind, page) + CHECKSUM as u64)?;
    if count % page == 0 {
        Some(whole)
    } else {
        whole.checked_add(size_of(kind, count % page) + CHECKSUM as u64)
    }
}

/// The bytes of the image, or none where they are more than a number of 64 bits counts.
pub fn image_size(columns: &ColumnSet, count: u32, page: u32) -> Option<u64>
    requires some { 0 < page }
    requires most { page ≤ max_page }
    requires count { count ≡ length columns.now }
    ensures some { IfSome result (λ n. n ≡ length (image page (columns_of columns.now))) }
    ensures none { result ≡ None → 2 ^ 64 ≤ length (image page (columns_of columns.now)) }
{
    let mut size = ROOM as u64;
    for k in 0..count {
        size = size.checked_add(column_size(columns.column(k), page)?)?;
    }
    Some(size)
}
