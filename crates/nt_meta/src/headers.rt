//! Headers, both ways.

ghost use Rattle.std.specs.Prelude.{◌≡◌, IfOk, OnOk};
ghost use Rattle.nt_format.specs.Reading.{standing};
ghost use Rattle.nt_format.specs.Envelopes.{envelope};
ghost use Rattle.nt_frame.specs.Writing.{bytes_added};
ghost use Rattle.nt_lists.specs.Answering.{Answers};
ghost use Rattle.nt_file_meaning.specs.Headers.{header_text, header_payload_at};
ghost use Rattle.nt_schema.specs.Whole.{AreWhole};
ghost use Rattle.nt_meta.specs.Defects.{defect_of};

use crate::descriptions::{read_feature_flags, read_rows};
use crate::error::MetaError;
use crate::sealing::seal;
use crate::words::read_text;
use nt_frame::FrameOut;
use nt_num::Cur;
use nt_schema::{Part, Schema, write_description};
use std::alloc::{AllocError, Global};

/// The kind of a header's envelope.
const HEADER: u16 = 1;

/// Reads the payload of a header, and gives the schema that it describes (section Header Envelope).
#[tactic(auto, unfolding(nt_file_meaning::specs::Headers::header_payload_at))]
pub fn read_header(alloc: Global, payload: &[u8]) -> Result<Schema, MetaError>
    ensures { Answers (λ schema. schema) defect_of result
        (header_payload_at (standing 0 payload.now)) }
{
    let mut cur = Cur::new(payload);
    read_feature_flags(&mut cur)?;
    read_text(&mut cur)?; // the ntuple's name
    read_text(&mut cur)?; // its description
    read_text(&mut cur)?; // what wrote it
    let mut schema = Schema::new(alloc);
    read_rows(&mut cur, &mut schema, Part::Header)?;
    Ok(schema)
}

fn put_header(out: &mut FrameOut, schema: &Schema) -> Result<(), AllocError>
    requires { AreWhole schema.now }
    ensures { OnOk result (out.new ≡ bytes_added (header_text schema.now) out.old) }
{
    out.put_u64le(0)?; // no feature flags
    out.text(b"events")?;
    out.text(b"")?;
    out.text(b"ntuple_tool 1")?;
    write_description(schema, Part::Header, out)?;
    Ok(())
}

/// The payload of the header of a schema.
#[tactic(auto, using(crate::proofs::Appended::all_of))]
fn header_payload(alloc: Global, schema: &Schema) -> Result<Vec<u8>, AllocError>
    requires { AreWhole schema.now }
    ensures { IfOk result (λ payload. payload.items ≡ header_text schema.now) }
{
    let mut out = FrameOut::new(Vec::new(alloc));
    put_header(&mut out, schema)?;
    Ok(out.into_bytes())
}

/// The envelope of the header of a schema: the names of the ntuple and of this writer, and the rows
/// that stand in the header.
pub fn write_header(alloc: Global, schema: &Schema) -> Result<Vec<u8>, AllocError>
    requires { AreWhole schema.now }
    ensures { IfOk result (λ sealed. sealed.items ≡ envelope 1 (header_text schema.now)) }
{
    let payload = header_payload(alloc, schema)?;
    seal(alloc, HEADER, &payload)
}
