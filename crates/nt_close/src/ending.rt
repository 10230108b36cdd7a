//! What stands behind the ranges of a file's clusters, and what is then known of the file.

ghost use Rattle.std.specs.Prelude.{◌≡◌, ◌+◌, ◌<◌, ◌≤◌, ◌^◌, ◌++◌, None, length, OnOk, IfOk, IfErr};
ghost use Rattle.nt_tfile.specs.Places.{ArePlaces};
ghost use Rattle.nt_pagelists.specs.Blobs.{blob_len};
ghost use Rattle.nt_close.specs.Passing.{blobs_left, passed_by_close};
ghost use Rattle.nt_close.specs.Making.{CanBeEnded, IsPassed, IsPassedBy, ArePassedBy, NonePassed, CanHaveFooter, footer_with, AddsFooter, container_behind, fields_behind, AreBlobsBehind, IsEnding};

use crate::blobs::{KEY, LAST_PLACE, put_blob};
use crate::error::CloseError;
use crate::headers::{Header, header_of};
use crate::lists::{Lists, check_range, lists_of};
use nt_book::{Book, Limits, Params};
use nt_container::{Anchor, FileFields};
use nt_meta::write_footer;
use nt_schema::Schema;
use nt_tfile::{anchor_bytes, free_bytes, key_list_bytes};
use std::alloc::{AllocError, Global};

/// The place of the header's blob.
const HEADER: u64 = 226;

/// What stands behind the ranges, as bytes, and what file header and directory say of it.
#[derive(Drop)]
pub(crate) struct Ending {
    pub(crate) tail: Vec<u8>,
    pub(crate) fields: FileFields,
}

/// Page lists and footer as they stand behind the ranges, and the anchor that leads to them.
#[derive(Drop)]
struct Blobs {
    bytes: Vec<u8>,
    anchor: Anchor,
}

/// An anchor that isn't written yet.
fn empty_anchor() -> [u8; 134] {
    [0; 134]
}

/// A list of keys that isn't written yet.
fn empty_key_list() -> [u8; 113] {
    [0; 113]
}

/// A list of free pieces that isn't written yet.
fn empty_free_list() -> [u8; 71] {
    [0; 71]
}

/// Appends anchor, list of keys and list of free pieces to bytes that begin at a place of the file,
/// and gives what file header and directory say of them.
fn put_container(out: &mut Vec<u8>, start: u64, anchor: &Anchor) -> Result<FileFields, AllocError>
    requires { start ≤ 2 ^ 56 }
    ensures bytes { OnOk result (out.new.items ≡ out.old.items
        ++ container_behind (start + length out.old.items) anchor.now) }
    ensures fields { IfOk result (λ fields. fields ≡ fields_behind (start + length out.old.items)) }
    ensures places { IfOk result ArePlaces }
    ensures end { IfOk result (λ fields. fields.end ≡ start + length out.new.items) }
{
    let place = start + out.len() as u64;
    if place > LAST_PLACE {
        return Err(AllocError);
    }
    let (keys, free) = (place + 134, place + 247);
    let (mut own, mut key_list, mut free_list) = (
        empty_anchor(),
        empty_key_list(),
        empty_free_list(),
    );
    anchor_bytes(anchor, place, &mut own);
    key_list_bytes(keys, place, &mut key_list);
    free_bytes(free, &mut free_list);
    out.extend_from_slice(&own)?;
    out.extend_from_slice(&key_list)?;
    out.extend_from_slice(&free_list)?;
    Ok(FileFields {
        end: place + 318,
        keys,
        free,
    })
}

/// Appends the footer of groups to their page lists, which begin at a place of the file.
#[tactic(auto, unfolding(crate::specs::Making::footer_with))]
fn put_footer(
    alloc: Global,
    lists: Lists,
    start: u64,
    schema: &Schema,
    limits: &Limits,
    header: &Header,
) -> Result<Blobs, CloseError>
    requires { CanHaveFooter schema.now start lists.groups.items header.now.bytes.items header.now.sum }
    ensures ok { IfOk result (λ blobs. AddsFooter schema.now start lists.groups.items
        lists.bytes.items blobs.bytes.items blobs.anchor) }
    ensures fits { OnOk result
        (blob_len (length (footer_with schema.now lists.groups.items)) ≤ limits.now.range) }
    ensures err { IfErr result (IsPassedBy limits.now
        (blob_len (length (footer_with schema.now lists.groups.items)))) }
{
    let Lists { mut bytes, groups } = lists;
    let footer = write_footer(alloc, schema, &groups, header.sum)?;
    check_range(&footer, limits)?;
    let place = put_blob(&mut bytes, start, &footer)?;
    let (len, header_len) = (footer.len() as u64, header.bytes.len() as u64);
    Ok(Blobs {
        bytes,
        anchor: Anchor {
            header: HEADER + KEY,
            header_size: header_len,
            header_len,
            footer: place + KEY,
            footer_size: len,
            footer_len: len,
        },
    })
}

/// Page lists and footer, and the anchor that leads to header and footer.
fn blobs_of(
    alloc: Global,
    book: &Book,
    schema: &Schema,
    params: &Params,
) -> Result<Blobs, CloseError>
    requires { CanBeEnded schema.now params.now book.now }
    ensures ok { IfOk result (λ blobs. AreBlobsBehind params.now.staged schema.now book.now params.now.group
        blobs.bytes.items blobs.anchor) }
    ensures fit { OnOk result (NonePassed params.now.limits
        (blobs_left params.now.staged schema.now book.now params.now.group)) }
    ensures err { IfErr result (ArePassedBy params.now.limits
        (blobs_left params.now.staged schema.now book.now params.now.group)) }
{
    book.keeps();
    let header = header_of(alloc, schema)?;
    let lists = lists_of(alloc, book, params, header.sum)?;
    put_footer(alloc, lists, book.end(), schema, &params.limits, &header)
}

/// What stands behind the ranges of a book's clusters in the file of a schema.
pub(crate) fn ending_of(
    alloc: Global,
    book: &Book,
    schema: &Schema,
    params: &Params,
) -> Result<Ending, CloseError>
    requires { CanBeEnded schema.now params.now book.now }
    ensures ok { IfOk result (λ ending. IsEnding params.now.staged schema.now book.now params.now.group
        ending.tail.items ending.fields) }
    ensures within { OnOk result (passed_by_close params.now schema.now book.now ≡ None) }
    ensures low { IfOk result (λ ending. ending.fields.end ≤ params.now.limits.file) }
    ensures err { IfErr result (IsPassed (passed_by_close params.now schema.now book.now)) }
{
    book.keeps();
    let Blobs { mut bytes, anchor } = blobs_of(alloc, book, schema, params)?;
    let fields = put_container(&mut bytes, book.end(), &anchor)?;
    if fields.end > params.limits.file {
        return Err(CloseError::FileTooLarge {
            end: fields.end,
            limit: params.limits.file,
        });
    }
    Ok(Ending {
        tail: bytes,
        fields,
    })
}
