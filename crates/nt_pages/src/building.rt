//! The image of a cluster, made of its columns.

ghost use Rattle.std.specs.Prelude.{◌≡◌, ◌<◌, ◌≤◌, IfOk};
ghost use Rattle.nt_column.specs.Column.{columns_of};
ghost use Rattle.nt_book.specs.Ranges.{max_page};
ghost use Rattle.nt_pages.specs.Image.{image};
ghost use Rattle.nt_trees.specs.Described.{AreDescribed};
ghost use Rattle.nt_pages.specs.Metas.{cluster_meta};

use crate::columns::put_columns;
use crate::image::ClusterImage;
use crate::partial::PartialImage;
use crate::size::image_size;
use nt_book::{ClusterMeta, PageLists};
use nt_column::ColumnSet;
use nt_lists::Bytes;
use nt_schema::Schema;
use std::alloc::{AllocError, Global};

/// The image of a cluster of these columns, in pages of at most `page` elements. Its memory is
/// taken at once.
pub fn build(
    alloc: Global,
    columns: &ColumnSet,
    schema: &Schema,
    page: u32,
    context: u32,
    entries: u64,
) -> Result<ClusterImage, AllocError>
    requires some { 0 < page }
    requires most { page ≤ max_page }
    requires columns { AreDescribed (columns_of columns.now) schema.now.columns }
    ensures bytes { IfOk result (λ r. r.bytes ≡ image page (columns_of columns.now)) }
    ensures meta { IfOk result
        (λ r. r.meta ≡ cluster_meta page context entries (columns_of columns.now)) }
{
    build_in(Vec::new(alloc), columns, schema, page, context, entries)
}

/// The same in memory that an earlier image had, whose bytes are lost. What is lacking is taken at
/// once.
pub fn build_in(
    memory: Vec<u8>,
    columns: &ColumnSet,
    schema: &Schema,
    page: u32,
    context: u32,
    entries: u64,
) -> Result<ClusterImage, AllocError>
    requires some { 0 < page }
    requires most { page ≤ max_page }
    requires columns { AreDescribed (columns_of columns.now) schema.now.columns }
    ensures bytes { IfOk result (λ r. r.bytes ≡ image page (columns_of columns.now)) }
    ensures meta { IfOk result
        (λ r. r.meta ≡ cluster_meta page context entries (columns_of columns.now)) }
{
    let alloc = *memory.allocator();
    let count = schema.columns();
    let size = image_size(columns, count, page).ok_or(AllocError)?;
    let mut image = PartialImage::begin(memory, size as usize)?;
    let lists = put_columns(alloc, columns, count, page, &mut image)?;
    let bytes = image.finish();
    Ok(ClusterImage {
        meta: ClusterMeta {
            context,
            entries,
            len: bytes.len() as u64,
            pages: PageLists::from_vec(lists),
        },
        bytes: Bytes::from_vec(bytes),
    })
}
