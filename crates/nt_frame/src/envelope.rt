//! Envelopes: blocks of bytes with their kind, their size and their checksum.

ghost use Rattle.std.specs.Prelude.{◌≡◌, ◌<◌, ◌^◌, length, Ok, Err, IfOk, MatchResult};
ghost use Rattle.nt_format.specs.Envelopes.{envelope, payload_of};

use byteorder::{ByteOrder, LittleEndian};
use nt_format::EnvelopeFault;
use nt_num::put_u64le;
use std::alloc::{AllocError, Global};

/// The first word has the kind below this factor of the size.
const SIZE_UNIT: u64 = 1 << 16;

/// Seals a payload of so many bytes that its size fits the first word.
pub fn seal_envelope(alloc: Global, kind: u16, payload: &[u8]) -> Result<Vec<u8>, AllocError>
    requires { length payload.now < 2 ^ 47 }
    ensures { IfOk result (λ sealed. sealed.items ≡ envelope kind payload.now) }
{
    let size = payload.len() as u64 + 16;
    let mut out = Vec::with_capacity(alloc, payload.len() + 16)?;
    put_u64le(&mut out, size * SIZE_UNIT + u64::from(kind))?;
    out.extend_from_slice(payload)?;
    let sum = nt_xxh3::sum(&out);
    put_u64le(&mut out, sum)?;
    Ok(out)
}

/// The payload of the envelope of this kind that the bytes are, all of them.
#[tactic(auto, unfolding(nt_format::specs::Envelopes::payload_of))]
pub fn read_envelope(bytes: &[u8], kind: u16) -> Result<&[u8], EnvelopeFault>
    ensures { MatchResult result (λ payload. payload_of kind bytes.now ≡ Ok payload.now)
        (λ e. payload_of kind bytes.now ≡ Err e) }
{
    if bytes.len() < 16 {
        return Err(EnvelopeFault::Size);
    }
    let (covered, sum) = bytes.split_at(bytes.len() - 8);
    let (head, payload) = covered.split_at(8);
    let word = LittleEndian::read_u64(head);
    if word / SIZE_UNIT != bytes.len() as u64 {
        return Err(EnvelopeFault::Size);
    }
    let kept_kind = (word % SIZE_UNIT) as u16;
    if kept_kind != kind {
        return Err(EnvelopeFault::Kind { kept: kept_kind });
    }
    let kept = LittleEndian::read_u64(sum);
    let found = nt_xxh3::sum(covered);
    if kept != found {
        return Err(EnvelopeFault::Checksum { kept, found });
    }
    Ok(payload)
}
