//! The page lists of a book that are left to be written, and the groups of clusters of all.

ghost use Rattle.std.specs.Prelude.{◌≡◌, ◌+◌, ◌-◌, ◌*◌, ◌<◌, ◌≤◌, ◌^◌, length, OnOk, IfOk, IfErr};
ghost use Rattle.nt_book.specs.Books.{book_clusters, first_entry, noted_at};
ghost use Rattle.nt_pagelists.specs.Blobs.{blob_len};
ghost use Rattle.nt_pagelists.specs.Objects.{list_len};
ghost use Rattle.nt_close.specs.Making.{IsPassedBy, ArePassedBy, NonePassed, AddsList, CanBeListed, AddsLists, spans_left, list_lens, noted_group, noted_groups, AreListsLeft, left_lens};

use crate::blobs::{KEY, put_blob};
use crate::error::CloseError;
use nt_book::{Book, Limits, Params};
use nt_format::{Link, Locator};
use nt_meta::write_page_list;
use nt_pagelists::Group;
use std::alloc::{AllocError, Global};

/// The blobs of the page lists that are left, and the groups of all page lists.
#[derive(Drop)]
pub(crate) struct Lists {
    pub(crate) bytes: Vec<u8>,
    pub(crate) groups: Vec<Group>,
}

/// Refuses an object whose blob is longer than a range may get.
pub(crate) fn check_range(object: &[u8], limits: &Limits) -> Result<(), CloseError>
    ensures ok { OnOk result (blob_len (length object.now) ≤ limits.now.range) }
    ensures err { IfErr result (IsPassedBy limits.now (blob_len (length object.now))) }
{
    let len = KEY + object.len() as u64;
    if len > limits.range {
        return Err(CloseError::RangeTooLarge {
            len,
            limit: limits.range,
        });
    }
    Ok(())
}

/// The number of entries in front of a cluster, or of all where there is none of this number.
fn entries_before(book: &Book, cluster: u32) -> u64
    requires { cluster ≤ length (book_clusters book.now) }
    ensures { result ≡ first_entry book.now cluster }
{
    if cluster == book.clusters() {
        book.entries()
    } else {
        book.first(cluster)
    }
}

/// The group of the clusters from one number up to another, whose page list of so many bytes has
/// its blob at a place.
#[tactic(auto, using(crate::proofs::Entries::first_entry_le))]
fn group_of(book: &Book, from: u32, to: u32, place: u64, len: u32) -> Group
    requires some { from ≤ to }
    requires inside { to ≤ length (book_clusters book.now) }
    requires place { place ≤ 2 ^ 62 }
    ensures { result ≡ record {
      first = first_entry book.now from;
      span = first_entry book.now to - first_entry book.now from;
      clusters = to - from;
      link = record { length = len; at = record { size = len; place = place + 42 } };
    } }
{
    let first = entries_before(book, from);
    Group {
        first,
        span: entries_before(book, to) - first,
        clusters: to - from,
        link: Link {
            length: u64::from(len),
            at: Locator {
                size: len,
                place: place + KEY,
            },
        },
    }
}

/// The group of so many clusters whose page list is noted, of this number. The list stands behind
/// the last range of the group.
fn group_noted(book: &Book, k: u32, most: u32) -> Group
    requires some { 0 < most }
    requires noted { k < length book.now.lists }
    requires inside { k * most + most ≤ length (book_clusters book.now) }
    ensures { result ≡ noted_group book.now most (k * most) (noted_at book.now k) }
{
    book.keeps();
    let from = k * most;
    let last = from + most - 1;
    let place = book.start(book.range_of(last)) + book.meta(last).len;
    group_of(book, from, from + most, place, book.list(k).size)
}

/// The groups whose page lists are noted, each of so many clusters.
fn groups_noted(alloc: Global, book: &Book, most: u32) -> Result<Vec<Group>, AllocError>
    requires some { 0 < most }
    requires inside { length book.now.lists * most ≤ length (book_clusters book.now) }
    ensures { IfOk result (λ groups. groups.items ≡ noted_groups book.now most 0 book.now.lists) }
{
    let mut groups = Vec::new(alloc);
    for k in 0..book.lists() {
        groups.push(group_noted(book, k, most))?;
    }
    Ok(groups)
}

/// Appends the page list of the clusters from one number up to another, and their group.
#[tactic(auto, unfolding(nt_pagelists::specs::Objects::list_object))]
fn put_list(
    lists: &mut Lists,
    book: &Book,
    from: u32,
    to: u32,
    limits: &Limits,
    header_sum: u64,
) -> Result<(), CloseError>
    requires some { from < to }
    requires inside { to ≤ length (book_clusters book.now) }
    ensures ok { OnOk result (AddsList header_sum book.now (record { from = from; count = to - from })
        lists.old.bytes.items lists.new.bytes.items lists.old.groups.items lists.new.groups.items) }
    ensures fits { OnOk result
        (list_len header_sum book.now (record { from = from; count = to - from }) ≤ limits.now.range) }
    ensures err { IfErr result (IsPassedBy limits.now
        (list_len header_sum book.now (record { from = from; count = to - from }))) }
{
    book.keeps();
    let alloc = *lists.bytes.allocator();
    let list = write_page_list(alloc, book, from, to, header_sum)?;
    check_range(&list, limits)?;
    let place = put_blob(&mut lists.bytes, book.end(), &list)?;
    let group = group_of(book, from, to, place, list.len() as u32);
    lists.groups.push(group)?;
    Ok(())
}

/// Appends the page lists of all groups from the first on whose list isn't noted, and these groups.
fn put_lists(
    lists: &mut Lists,
    book: &Book,
    params: &Params,
    header_sum: u64,
) -> Result<(), CloseError>
    ensures ok { OnOk result (AddsLists header_sum book.now (spans_left book.now params.now.group)
        lists.old.bytes.items lists.new.bytes.items lists.old.groups.items lists.new.groups.items) }
    ensures fit { OnOk result (NonePassed params.now.limits
        (list_lens header_sum book.now (spans_left book.now params.now.group))) }
    ensures err { IfErr result (ArePassedBy params.now.limits
        (list_lens header_sum book.now (spans_left book.now params.now.group))) }
{
    let (most, clusters) = (params.group, book.clusters());
    let groups = clusters.div_ceil(most);
    for k in book.lists()..groups {
        let from = k * most;
        let to = from + most.min(clusters - from);
        put_list(lists, book, from, to, &params.limits, header_sum)?;
    }
    Ok(())
}

/// The page lists of a book that isn't torn which are left to be written, as they stand behind all
/// that stands already: those of all groups where clusters are staged, else that of the last group,
/// if it isn't noted. And the groups of all.
pub(crate) fn lists_of(
    alloc: Global,
    book: &Book,
    params: &Params,
    header_sum: u64,
) -> Result<Lists, CloseError>
    requires { CanBeListed book.now params.now.group header_sum }
    ensures ok { IfOk result (λ lists. AreListsLeft header_sum book.now params.now.group
        lists.bytes.items lists.groups.items) }
    ensures fit { OnOk result (NonePassed params.now.limits
        (left_lens header_sum book.now params.now.group)) }
    ensures err { IfErr result (ArePassedBy params.now.limits
        (left_lens header_sum book.now params.now.group)) }
{
    book.keeps();
    let groups = groups_noted(alloc, book, params.group)?;
    let mut lists = Lists {
        bytes: Vec::new(alloc),
        groups,
    };
    put_lists(&mut lists, book, params, header_sum)?;
    Ok(lists)
}
