//! The image of a cluster, made of its pages as they are stored.

ghost use Rattle.std.specs.Prelude.{◌≡◌, ◌-◌, ◌<◌, ◌≤◌, ◌++◌, length, replicate, IfOk, OnOk};
ghost use Rattle.nt_copied.specs.Stored.{with_sum, stored_column, stored_payload, stored_page_metas, stored_metas, stored_meta, IsSoundPage, AreSoundPages, AreSoundColumns};
ghost use Rattle.nt_book.specs.Pages.{IsPaged};
ghost use Rattle.nt_pages.specs.Image.{key_room};
ghost use Rattle.nt_view.specs.Loads.{loaded_len};
ghost use Rattle.nt_view.specs.Loaded.{AreLoadable};
ghost use Rattle.nt_copying.specs.Copied.{copied_page, copied_pages, copied_columns, all_loaded, loaded_part, HasItsSum, HaveTheirSums, AppendsWhere, loaded_page, IsCopyable, HasCopyable, HasCopyableSpan, IsColumnPart};

use nt_book::{ClusterMeta, PageList, PageLists, PageMeta};
use nt_lists::Bytes;
use nt_pages::ClusterImage;
use nt_view::{ClusterBytes, PagePlace};
use std::alloc::{AllocError, Global};

/// The bytes before the payload.
const ROOM: usize = 42;

/// The bytes of a checksum.
const CHECKSUM: usize = 8;

/// More elements than a page list can tell of a page.
const TOO_MANY: u32 = 1 << 31;

/// Appends a page by its stored bytes, with its checksum behind it: the one that was loaded with it and compared, or else a new one.
fn put_stored(page: &PagePlace, stored: &[u8], image: &mut Vec<u8>) -> Result<(), AllocError>
    requires { length stored.now ≡ loaded_len page.now }
    ensures { OnOk result (AppendsWhere (HasItsSum (page.now, stored.now)) (with_sum (copied_page (page.now, stored.now)))
        image.old.items image.new.items) }
{
    image.extend_from_slice(stored)?;
    if page.checked {
        return Ok(());
    }
    image.extend_from_slice(&nt_xxh3::sum(stored).to_le_bytes())?;
    Ok(())
}

/// Appends a page that has elements, with its checksum behind it.
fn put_page(loaded: &ClusterBytes, i: u32, image: &mut Vec<u8>) -> Result<PageMeta, AllocError>
    requires there { HasCopyable i loaded.now }
    requires room { key_room ≤ length image.old.items }
    ensures bytes { OnOk result (AppendsWhere (HasItsSum (loaded_page loaded.now i)) (with_sum (copied_page (loaded_page loaded.now i)))
        image.old.items image.new.items) }
    ensures meta { IfOk result (λ m. let p = copied_page (loaded_page loaded.now i) in
        m ≡ record { count = p.count; place = length image.old.items - key_room; size = length p.bytes }) }
    ensures sound { OnOk result (IsSoundPage (copied_page (loaded_page loaded.now i))) }
{
    let page = loaded.page(i);
    if page.count >= TOO_MANY {
        return Err(AllocError);
    }
    let place = (image.len() - ROOM) as u64;
    put_stored(&page, loaded.page_stored(i), image)?;
    Ok(PageMeta {
        count: page.count,
        place,
        size: page.size,
    })
}

/// Appends those of the pages from one place to before another that have elements.
fn put_column(
    alloc: Global,
    loaded: &ClusterBytes,
    from: u32,
    to: u32,
    image: &mut Vec<u8>,
) -> Result<Vec<PageMeta>, AllocError>
    requires span { HasCopyableSpan from to loaded.now }
    requires room { key_room ≤ length image.old.items }
    ensures bytes { let es = loaded_part loaded.now from to in
        OnOk result (AppendsWhere (HaveTheirSums es) (stored_column (copied_pages es)) image.old.items image.new.items) }
    ensures metas { IfOk result (λ v. v.items
        ≡ stored_page_metas (length image.old.items - key_room) (copied_pages (loaded_part loaded.now from to))) }
    ensures sound { OnOk result (AreSoundPages (copied_pages (loaded_part loaded.now from to))) }
{
    let mut metas = Vec::with_capacity(alloc, (to - from) as usize)?;
    for i in from..to {
        if loaded.page(i).count != 0 {
            metas.push(put_page(loaded, i, image)?)?;
        }
    }
    Ok(metas)
}

/// Where the pages of a column end that stand from a place on.
fn column_end(loaded: &ClusterBytes, from: u32, id: u32) -> u32
    requires { from ≤ length loaded.now.pages }
    ensures { IsColumnPart id from result loaded.now.pages }
{
    let mut end = from;
    while end < loaded.pages() && loaded.page(end).column == id {
        end += 1;
    }
    end
}

/// Appends the pages of all columns.
fn put_columns(
    alloc: Global,
    loaded: &ClusterBytes,
    columns: u32,
    image: &mut Vec<u8>,
) -> Result<Vec<PageList>, AllocError>
    requires copyable { IsCopyable loaded.now }
    requires room { length image.old.items ≡ key_room }
    ensures bytes { OnOk result (AppendsWhere (HaveTheirSums (all_loaded loaded.now))
        (stored_payload (copied_columns loaded.now 0 columns)) image.old.items image.new.items) }
    ensures metas { IfOk result (λ v. v.items ≡ stored_metas 0 (copied_columns loaded.now 0 columns)) }
    ensures sound { OnOk result (AreSoundColumns (copied_columns loaded.now 0 columns)) }
{
    let mut lists = Vec::with_capacity(alloc, columns as usize)?;
    let mut at = 0;
    for id in 0..columns {
        let end = column_end(loaded, at, id);
        let metas = put_column(alloc, loaded, at, end, image)?;
        lists.push(PageList::from_vec(metas))?;
        at = end;
    }
    Ok(lists)
}

/// How many bytes the image has, or the greatest number where that is more.
fn image_size(loaded: &ClusterBytes) -> usize
    ensures stored { length loaded.now.stored ≡ length loaded.now.pages }
{
    let mut size = ROOM;
    for i in 0..loaded.pages() {
        size = size.saturating_add(loaded.page(i).size as usize + CHECKSUM);
    }
    size
}

/// The image of a cluster of so many columns and entries, with its pages as they are stored, those without elements left out; in memory
/// that an earlier image had. What is lacking is taken at once. More entries than bits, which no file has, are want of memory.
pub fn copied_image(
    memory: Vec<u8>,
    alloc: Global,
    loaded: &ClusterBytes,
    columns: u32,
    entries: u64,
) -> Result<ClusterImage, AllocError>
    requires { AreLoadable loaded.now.pages loaded.now.zeros }
    ensures bytes { IfOk result (λ r. HaveTheirSums (all_loaded loaded.now)
        → r.bytes ≡ replicate key_room 0 ++ stored_payload (copied_columns loaded.now 0 columns)) }
    ensures len { IfOk result (λ r. length r.bytes ≡ r.meta.len) }
    ensures meta { IfOk result (λ r. r.meta ≡ stored_meta 0 entries (copied_columns loaded.now 0 columns)) }
    ensures paged { IfOk result (λ r. IsPaged r.meta) }
{
    let mut bytes = memory;
    bytes.clear();
    bytes.reserve(image_size(loaded))?;
    bytes.extend_from_slice(&[0; ROOM])?;
    let lists = put_columns(alloc, loaded, columns, &mut bytes)?;
    if u128::from(entries) > (bytes.len() - ROOM) as u128 * 8 {
        return Err(AllocError);
    }
    Ok(ClusterImage {
        meta: ClusterMeta {
            context: 0,
            entries,
            len: bytes.len() as u64,
            pages: PageLists::from_vec(lists),
        },
        bytes: Bytes::from_vec(bytes),
    })
}
