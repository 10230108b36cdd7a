//! The columns of a cluster as bytes.

ghost use Rattle.std.specs.Prelude.{◌≡◌, true, ◌+◌, ◌<◌, ◌^◌, length, map, flat_map, ◌++◌, OnOk};
ghost use Rattle.std.specs.List.{AllByRecursion, range_with_len};
ghost use Rattle.std.specs.Int.{w32, w64, to_le_bytes};
ghost use Rattle.nt_frame.specs.Writing.{bytes_added};
ghost use Rattle.nt_book.specs.Books.{book_clusters, cluster_at, column_offset};
ghost use Rattle.nt_pagelists.specs.Writing.{page_count_word, page_item_text, page_item_texts, column_list_text, cluster_list_text};
ghost use Rattle.nt_pagelists.specs.Books.{page_item, payload_place, listed_column, listed_cluster};

use nt_book::{Book, PageList, PageMeta};
use nt_frame::FrameOut;
use std::alloc::AllocError;

/// The bytes of the key before a cluster's payload.
const KEY: u64 = 42;

/// The word of a number of elements that is below zero, as a checksum follows the page.
fn negative(count: u32) -> u32
    ensures { result ≡ page_count_word true count }
{
    count.wrapping_neg()
}

/// A page of a cluster whose payload begins there.
fn put_page(out: &mut FrameOut, payload: u64, page: &PageMeta) -> Result<(), AllocError>
    requires { payload + page.now.place < 2 ^ 64 }
    ensures { OnOk result (out.new ≡ bytes_added
        (page_item_text (page_item payload page.now)) out.old) }
{
    out.put_u32le(negative(page.count))?;
    out.put_u32le(page.size)?;
    out.put_u64le(payload + page.place)?;
    Ok(())
}

#[tactic(auto, using(crate::proofs::Appended::made_steps))]
fn put_pages(out: &mut FrameOut, payload: u64, pages: &[PageMeta]) -> Result<(), AllocError>
    requires { AllByRecursion (λ p. payload + p.place < 2 ^ 64) pages.now }
    ensures { OnOk result (out.new ≡ bytes_added
        (page_item_texts (map (page_item payload) pages.now)) out.old) }
{
    for page in pages {
        put_page(out, payload, page)?;
    }
    Ok(())
}

fn put_offset(out: &mut FrameOut, offset: u64) -> Result<(), AllocError>
    ensures { OnOk result (out.new ≡ bytes_added
        (to_le_bytes w64 offset ++ to_le_bytes w32 0) out.old) }
{
    out.put_u64le(offset)?;
    out.put_u32le(0)?; // no compression
    Ok(())
}

#[tactic(auto, using(crate::proofs::Appended::list_of_two))]
/// The pages of a column with this offset, in a cluster whose payload begins there.
fn put_column(
    out: &mut FrameOut,
    payload: u64,
    offset: u64,
    pages: &[PageMeta],
) -> Result<(), AllocError>
    requires low { AllByRecursion (λ p. payload + p.place < 2 ^ 64) pages.now }
    requires few { length pages.now < 2 ^ 32 }
    ensures { OnOk result (out.new ≡ bytes_added (column_list_text (record {
      offset = offset;
      pages = map (page_item payload) pages.now;
    })) out.old) }
{
    out.begin_list(pages.len() as u32)?;
    put_pages(out, payload, pages)?;
    put_offset(out, offset)?;
    out.finish();
    Ok(())
}

#[tactic(auto, using(crate::proofs::Appended::counted_steps))]
/// These columns of a cluster.
fn put_columns(
    out: &mut FrameOut,
    book: &Book,
    cluster: u32,
    lists: &[PageList],
) -> Result<(), AllocError>
    requires inside { cluster < length (book_clusters book.now) }
    requires lists { lists.now ≡ (cluster_at book.now cluster).meta.pages }
    ensures { OnOk result (out.new ≡ bytes_added (flat_map column_list_text
        (map (listed_column book.now cluster) (range_with_len 0 (length lists.now)))) out.old) }
{
    book.keeps();
    let payload = book.start(book.range_of(cluster)) + KEY;
    for column in 0..lists.len() as u32 {
        let offset = book.offset(cluster, column);
        put_column(out, payload, offset, lists[column as usize].as_slice())?;
    }
    Ok(())
}

#[tactic(auto, using(crate::proofs::Appended::list_of))]
/// The columns of a cluster.
pub(crate) fn put_cluster(out: &mut FrameOut, book: &Book, cluster: u32) -> Result<(), AllocError>
    requires { cluster < length (book_clusters book.now) }
    ensures { OnOk result (out.new ≡ bytes_added
        (cluster_list_text (listed_cluster book.now cluster)) out.old) }
{
    book.keeps();
    let lists = book.meta(cluster).pages.as_slice();
    out.begin_list(lists.len() as u32)?;
    put_columns(out, book, cluster, lists)?;
    out.finish();
    Ok(())
}
