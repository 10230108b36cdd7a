//! The header of a file, and its checksum.

ghost use Rattle.std.specs.Prelude.{IfOk};
ghost use Rattle.nt_schema.specs.Whole.{AreWhole};
ghost use Rattle.nt_close.specs.Making.{IsHeaderOf};

use nt_meta::write_header;
use nt_schema::Schema;
use std::alloc::{AllocError, Global};

/// The bytes of an envelope's checksum.
const CHECKSUM: usize = 8;

/// The header of a schema, and its checksum, by which footer and page lists name it.
#[derive(Drop)]
pub(crate) struct Header {
    pub(crate) bytes: Vec<u8>,
    pub(crate) sum: u64,
}

/// The header of a schema.
#[tactic(auto, unfolding(nt_layout::specs::Headers::header_object, nt_layout::specs::Headers::header_sum))]
pub(crate) fn header_of(alloc: Global, schema: &Schema) -> Result<Header, AllocError>
    requires { AreWhole schema.now }
    ensures { IfOk result (λ header. IsHeaderOf schema.now header.bytes.items header.sum) }
{
    let bytes = write_header(alloc, schema)?;
    let sum = nt_xxh3::sum(&bytes[..bytes.len() - CHECKSUM]);
    Ok(Header { bytes, sum })
}
