//! Page lists as bytes.

ghost use Rattle.std.specs.Prelude.{◌≡◌, ◌-◌, ◌<◌, ◌≤◌, ◌^◌, length, map, flat_map, OnOk, IfOk};
ghost use Rattle.std.specs.List.{range_with_len};
ghost use Rattle.nt_format.specs.Envelopes.{envelope};
ghost use Rattle.nt_format.specs.Frames.{list_frame};
ghost use Rattle.nt_frame.specs.Writing.{bytes_added};
ghost use Rattle.nt_book.specs.Books.{book_clusters};
ghost use Rattle.nt_pagelists.specs.Writing.{summary_text, summary_texts, cluster_list_text, cluster_list_texts, page_list_text};
ghost use Rattle.nt_pagelists.specs.Books.{listed_cluster, listed_clusters};

use crate::sealing::seal;
use crate::writing_columns::put_cluster;
use nt_book::Book;
use nt_frame::FrameOut;
use std::alloc::{AllocError, Global};

/// The kind of a page list's envelope.
const PAGE_LIST: u16 = 3;

#[tactic(auto, using(crate::proofs::Appended::record_of))]
fn put_summary(out: &mut FrameOut, book: &Book, cluster: u32) -> Result<(), AllocError>
    requires { cluster < length (book_clusters book.now) }
    ensures { OnOk result (out.new ≡ bytes_added
        (summary_text (listed_cluster book.now cluster).summary) out.old) }
{
    out.begin_record()?;
    out.put_u64le(book.first(cluster))?;
    out.put_u64le(book.meta(cluster).entries)?;
    out.finish();
    Ok(())
}

#[tactic(auto, using(crate::proofs::Appended::counted_steps))]
fn put_summaries(out: &mut FrameOut, book: &Book, from: u32, to: u32) -> Result<(), AllocError>
    requires some { from ≤ to }
    requires inside { to ≤ length (book_clusters book.now) }
    ensures { OnOk result (out.new ≡ bytes_added
        (summary_texts (listed_clusters book.now from (to - from))) out.old) }
{
    for cluster in from..to {
        put_summary(out, book, cluster)?;
    }
    Ok(())
}

#[tactic(auto, using(crate::proofs::Appended::counted_steps))]
fn put_clusters(out: &mut FrameOut, book: &Book, from: u32, to: u32) -> Result<(), AllocError>
    requires some { from ≤ to }
    requires inside { to ≤ length (book_clusters book.now) }
    ensures { OnOk result (out.new ≡ bytes_added
        (cluster_list_texts (listed_clusters book.now from (to - from))) out.old) }
{
    for cluster in from..to {
        put_cluster(out, book, cluster)?;
    }
    Ok(())
}

#[tactic(auto, using(crate::proofs::Appended::list_of))]
fn put_summary_list(out: &mut FrameOut, book: &Book, from: u32, to: u32) -> Result<(), AllocError>
    requires some { from ≤ to }
    requires inside { to ≤ length (book_clusters book.now) }
    ensures { OnOk result (out.new ≡ bytes_added
        (list_frame (to - from) (summary_texts
        (listed_clusters book.now from (to - from)))) out.old) }
{
    out.begin_list(to - from)?;
    put_summaries(out, book, from, to)?;
    out.finish();
    Ok(())
}

#[tactic(auto, using(crate::proofs::Appended::list_of))]
fn put_cluster_list(out: &mut FrameOut, book: &Book, from: u32, to: u32) -> Result<(), AllocError>
    requires some { from ≤ to }
    requires inside { to ≤ length (book_clusters book.now) }
    ensures { OnOk result (out.new ≡ bytes_added
        (list_frame (to - from) (cluster_list_texts
        (listed_clusters book.now from (to - from)))) out.old) }
{
    out.begin_list(to - from)?;
    put_clusters(out, book, from, to)?;
    out.finish();
    Ok(())
}

fn put_page_list(
    out: &mut FrameOut,
    book: &Book,
    from: u32,
    to: u32,
    header_sum: u64,
) -> Result<(), AllocError>
    requires some { from ≤ to }
    requires inside { to ≤ length (book_clusters book.now) }
    ensures { OnOk result (out.new ≡ bytes_added
        (page_list_text header_sum (listed_clusters book.now from (to - from))) out.old) }
{
    out.put_u64le(header_sum)?;
    put_summary_list(out, book, from, to)?;
    put_cluster_list(out, book, from, to)?;
    Ok(())
}

#[tactic(auto, using(crate::proofs::Appended::all_of))]
/// The payload of the page list of these clusters.
pub(crate) fn page_list_payload(
    alloc: Global,
    book: &Book,
    from: u32,
    to: u32,
    header_sum: u64,
) -> Result<Vec<u8>, AllocError>
    requires some { from ≤ to }
    requires inside { to ≤ length (book_clusters book.now) }
    ensures { IfOk result (λ payload. payload.items
        ≡ page_list_text header_sum (listed_clusters book.now from (to - from))) }
{
    let mut out = FrameOut::new(Vec::new(alloc));
    put_page_list(&mut out, book, from, to, header_sum)?;
    Ok(out.into_bytes())
}

/// The envelope of the page list of the clusters from one number up to another.
pub fn write_page_list(
    alloc: Global,
    book: &Book,
    from: u32,
    to: u32,
    header_sum: u64,
) -> Result<Vec<u8>, AllocError>
    requires some { from < to }
    requires inside { to ≤ length (book_clusters book.now) }
    ensures { IfOk result (λ sealed. sealed.items
        ≡ envelope 3 (page_list_text header_sum (listed_clusters book.now from (to - from)))) }
{
    let payload = page_list_payload(alloc, book, from, to, header_sum)?;
    seal(alloc, PAGE_LIST, &payload)
}
