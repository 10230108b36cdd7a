//! How a file is begun.

ghost use Rattle.std.specs.Prelude.{◌≡◌, ◌+◌, ◌≤◌, ◌^◌, ◌∷◌, [], None, length, OnOk, OnErr, IfOk, IfErr};
ghost use Rattle.nt_types.specs.Rules.{AreFields};
ghost use Rattle.nt_types.specs.Views.{members_view};
ghost use Rattle.nt_outside.specs.Faults.{HasCause};
ghost use Rattle.nt_outside.specs.Held.{BecomesSome, WhereHeld, nothing_held};
ghost use Rattle.nt_container.specs.Lengths.{begun_len};
ghost use Rattle.nt_container.specs.Spelling.{begun};
ghost use Rattle.nt_pagelists.specs.Blobs.{blob_len};
ghost use Rattle.nt_layout.specs.Headers.{clusters_place};
ghost use Rattle.nt_schema.specs.Whole.{AreWhole};
ghost use Rattle.nt_close.specs.Steps.{HasRoomToBegin, IsBegunWith, IsBegunPartly};
ghost use Rattle.nt_close.specs.Passing.{first_passed, passed_by_begin};
ghost use Rattle.nt_close.specs.Beginning.{IsHeaderBlob, IsBeginPassed, IsBegunFor, IsNotBegunFor, IsBegun, IsNotBegun};

use crate::blobs::{KEY, put_blob};
use crate::error::BeginError;
use crate::headers::{Header, header_of};
use crate::steps::write_begin;
use nt_book::{Book, Limits, Params};
use nt_outside::{Disk, Failed};
use nt_schema::{Schema, describe};
use nt_tfile::begin_bytes;
use nt_types::Fields;
use std::alloc::Global;

/// The bytes of file header and directory.
const HEAD: u64 = 226;

/// The blob of a header, and the header's checksum.
#[derive(Drop)]
struct HeaderBlob {
    bytes: Vec<u8>,
    sum: u64,
}

/// File header and directory that aren't written yet.
fn empty_head() -> [u8; 226] {
    [0; 226]
}

/// Refuses a header whose blob is longer than a range may get, or ends past the place where the
/// file may end.
#[tactic(auto, unfolding(nt_layout::specs::Headers::header_object))]
fn check_header(header: &[u8], limits: &Limits) -> Result<(), BeginError>
    ensures ok { OnOk result (first_passed limits.now (blob_len (length header.now) ∷ [])
        (begun_len + blob_len (length header.now)) ≡ None) }
    ensures low { OnOk result (blob_len (length header.now) ≤ limits.now.range) }
    ensures end { OnOk result (begun_len + blob_len (length header.now) ≤ limits.now.file) }
    ensures err { IfErr result (IsBeginPassed
        (first_passed limits.now (blob_len (length header.now) ∷ [])
        (begun_len + blob_len (length header.now)))) }
{
    let len = KEY + header.len() as u64;
    if len > limits.range {
        return Err(BeginError::RangeTooLarge {
            len,
            limit: limits.range,
        });
    }
    let end = HEAD + len;
    if end > limits.file {
        return Err(BeginError::FileTooLarge {
            end,
            limit: limits.file,
        });
    }
    Ok(())
}

/// The blob of the header of a schema.
#[tactic(auto, using(crate::proofs::Fitting::blob_length), unfolding(nt_layout::specs::Headers::header_object))]
fn blob_of(alloc: Global, schema: &Schema, limits: &Limits) -> Result<HeaderBlob, BeginError>
    requires { AreWhole schema.now }
    ensures ok { IfOk result (λ blob. IsHeaderBlob schema.now blob.bytes.items blob.sum) }
    ensures within { OnOk result (passed_by_begin limits.now schema.now ≡ None) }
    ensures end { OnOk result (clusters_place schema.now ≤ limits.now.file) }
    ensures err { IfErr result (IsBeginPassed (passed_by_begin limits.now schema.now)) }
{
    let Header { bytes: header, sum } = header_of(alloc, schema)?;
    check_header(&header, limits)?;
    let mut bytes = Vec::new(alloc);
    put_blob(&mut bytes, HEAD, &header)?;
    Ok(HeaderBlob { bytes, sum })
}

/// Writes what begins a file for which there is memory.
fn write_head<D: Disk>(disk: &mut D, blob: &[u8]) -> Result<(), Failed>
    requires { HasRoomToBegin (D.state disk.old) (226 + length blob.now) }
    ensures ok { OnOk result (IsBegunWith (begun 0 0 0) blob.now (D.state disk.old)
        (D.state disk.new)) }
    ensures cut { OnErr result (BecomesSome (D.state disk.old).held (D.state disk.new).held
        (IsBegunPartly (begun 0 0 0) blob.now)) }
    ensures out { (D.state disk.new).out ≡ (D.state disk.old).out }
    ensures cause { HasCause (D.state disk.old).faults (D.state disk.new).faults result }
{
    let mut head = empty_head();
    begin_bytes(&mut head);
    write_begin(disk, &head, blob)
}

/// Begins the file of a schema on an empty disk: the room of file header and directory, with 0 for
/// the first byte, and the header, which stay. It gives the book of its clusters, of which there are
/// none yet: they are staged where the parameters say so, and else page lists stand beside them.
/// After `Fault` the first byte is 0, or nothing is known of the file but that its first append
/// failed; after any other refusal the disk is still empty.
pub fn begin_with<D: Disk>(
    alloc: Global,
    disk: &mut D,
    schema: &Schema,
    params: &Params,
) -> Result<Book, BeginError>
    requires whole { AreWhole schema.now }
    requires empty { WhereHeld (D.state disk.old).held (λ h. h ≡ nothing_held) }
    requires end { (D.state disk.old).end ≡ 0 }
    ensures begun { IfOk result (λ book. IsBegunFor schema.now params.now
        (D.state disk.old) (D.state disk.new) book) }
    ensures refused { IfErr result (IsNotBegunFor schema.now params.now
        (D.state disk.old) (D.state disk.new)) }
{
    let header = blob_of(alloc, schema, &params.limits)?;
    let end = HEAD + header.bytes.len() as u64;
    let mut book = Book::new(alloc, end, schema.columns(), params.limits)?;
    if params.staged {
        book.stage_all();
    } else {
        book.group_by(params.group, header.sum);
    }
    disk.room(3, end)?;
    write_head(disk, &header.bytes)?;
    Ok(book)
}

/// Begins the file of these fields on an empty disk as `begin_with` does, and gives the schema with
/// the book.
#[tactic(auto, using(crate::proofs::Begun::begun_rows, crate::proofs::Begun::not_begun_rows))]
pub fn begin<D: Disk>(
    alloc: Global,
    disk: &mut D,
    fields: &Fields,
    params: &Params,
) -> Result<(Book, Schema), BeginError>
    requires fields { AreFields (members_view fields.now) }
    requires empty { WhereHeld (D.state disk.old).held (λ h. h ≡ nothing_held) }
    requires end { (D.state disk.old).end ≡ 0 }
    ensures begun { IfOk result (λ made. IsBegun (members_view fields.now) params.now
        (D.state disk.old) (D.state disk.new) made.0 made.1) }
    ensures refused { IfErr result (IsNotBegun (members_view fields.now) params.now
        (D.state disk.old) (D.state disk.new)) }
{
    let schema = describe(alloc, fields, params.plain)?;
    match begin_with(alloc, disk, &schema, params) {
        Ok(book) => Ok((book, schema)),
        Err(error) => Err(error),
    }
}
