//! Faults of a file.

ghost use Rattle.std.specs.Prelude.{◌≡◌, ◌≤◌, ◌+◌, ◌^◌, IfSome, None};
ghost use Rattle.nt_file_meaning.specs.Envelopes.{payload_start};
ghost use Rattle.nt_reader.specs.Failures.{IsInPayload};

use nt_meta::MetaError;
use nt_num::ReadError;
use nt_tfile::ReadFailure;

/// The code of an envelope whose size, kind or checksum is wrong.
pub const BAD_ENVELOPE: u8 = 11;

/// Where the payload of an envelope begins.
const PAYLOAD_START: u64 = 8;

/// A place in the payload of the envelope at that place, counted from the file's beginning; none
/// where it doesn't fit 64 bits.
pub fn place_inside(envelope: u64, at: u64) -> Option<u64>
    ensures some { IfSome result (λ place. place ≡ envelope + payload_start + at) }
    ensures none { result ≡ None → 2 ^ 64 ≤ envelope + payload_start + at }
{
    match envelope.checked_add(PAYLOAD_START) {
        Some(payload) => payload.checked_add(at),
        None => None,
    }
}

/// What is wrong with the payload of the envelope at that place.
pub fn failure_inside(envelope: u64, error: MetaError) -> ReadFailure
    ensures { IsInPayload envelope error result }
{
    let MetaError::Defect(inner) = error else {
        return ReadFailure::Memory;
    };
    match place_inside(envelope, inner.at) {
        Some(at) => ReadFailure::Defect(ReadError {
            code: inner.code,
            at,
            cluster: inner.cluster,
            column: inner.column,
            element: inner.element,
            kept: inner.kept,
            found: inner.found,
        }),
        None => ReadFailure::Memory,
    }
}
