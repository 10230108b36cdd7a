//! Header and footer of a file.

ghost use Rattle.std.specs.Prelude.{◌≡◌, IfOk};
ghost use Rattle.nt_file_meaning.specs.Outlines.{header_block, footer_block, described_of};
ghost use Rattle.nt_tfile.specs.Calls.{Serves, HasSize, ReadsFile};
ghost use Rattle.nt_reader.specs.Envelopes.{block_of};
ghost use Rattle.nt_reader.specs.Steps.{header_said, footer_said, AreCounted};

use crate::envelope::{Block, read_sealed};
use crate::faults::failure_inside;
use nt_container::Anchor;
use nt_meta::{read_footer, read_header};
use nt_outside::ReadAt;
use nt_pagelists::Groups;
use nt_schema::Schema;
use nt_tfile::ReadFailure;
use std::alloc::Global;

/// The kind of a header's envelope.
const HEADER: u16 = 1;

/// The kind of a footer's envelope.
const FOOTER: u16 = 2;

/// What header and footer describe, and the checksum of the header.
#[derive(Drop)]
pub struct Described {
    pub schema: Schema,
    pub groups: Groups,
    pub sum: u64,
}

fn header_block(anchor: &Anchor) -> Block
    ensures { block_of result ≡ header_block anchor.now }
{
    Block {
        place: anchor.header,
        size: anchor.header_size,
        len: anchor.header_len,
    }
}

fn footer_block(anchor: &Anchor) -> Block
    ensures { block_of result ≡ footer_block anchor.now }
{
    Block {
        place: anchor.footer,
        size: anchor.footer_size,
        len: anchor.footer_len,
    }
}

/// The schema that the header describes, and the header's checksum.
fn read_first<F: ReadAt>(
    alloc: Global,
    file: &mut F,
    size: u64,
    anchor: &Anchor,
) -> Result<(Schema, u64), ReadFailure>
    requires { HasSize (F.state file.old) size }
    ensures file { Serves (F.state file.old) (F.state file.new) result }
    ensures read { ReadsFile (λ first. (first.0, first.1))
        (header_said anchor.now) (F.state file.old) result }
{
    let header = read_sealed(alloc, file, size, HEADER, header_block(anchor))?;
    match read_header(alloc, header.payload()) {
        Ok(schema) => Ok((schema, header.sum())),
        Err(error) => Err(failure_inside(anchor.header, error)),
    }
}

/// The groups of the footer; its extension is added to the schema.
fn read_rest<F: ReadAt>(
    alloc: Global,
    file: &mut F,
    size: u64,
    anchor: &Anchor,
    sum: u64,
    schema: &mut Schema,
) -> Result<Groups, ReadFailure>
    requires { HasSize (F.state file.old) size }
    ensures file { Serves (F.state file.old) (F.state file.new) result }
    ensures read { ReadsFile (λ groups. (schema.new, groups, sum))
        (footer_said anchor.now (schema.old, sum)) (F.state file.old) result }
    ensures counted { IfOk result (λ groups. AreCounted 0 0 groups) }
{
    let footer = read_sealed(alloc, file, size, FOOTER, footer_block(anchor))?;
    match read_footer(alloc, footer.payload(), sum, schema) {
        Ok(groups) => Ok(groups),
        Err(error) => Err(failure_inside(anchor.footer, error)),
    }
}

/// What header and footer of a file with this anchor describe, or the first fault.
pub fn read_described<F: ReadAt>(
    alloc: Global,
    file: &mut F,
    size: u64,
    anchor: &Anchor,
) -> Result<Described, ReadFailure>
    requires { HasSize (F.state file.old) size }
    ensures file { Serves (F.state file.old) (F.state file.new) result }
    ensures read { ReadsFile (λ d. (d.schema, d.groups, d.sum))
        (λ told. described_of told anchor.now) (F.state file.old) result }
    ensures counted { IfOk result (λ d. AreCounted 0 0 d.groups) }
{
    let (mut schema, sum) = read_first(alloc, file, size, anchor)?;
    let groups = read_rest(alloc, file, size, anchor, sum, &mut schema)?;
    Ok(Described {
        schema,
        groups,
        sum,
    })
}
