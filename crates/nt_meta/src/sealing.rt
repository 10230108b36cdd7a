//! Payloads in their envelopes.

ghost use Rattle.std.specs.Prelude.{◌≡◌, IfOk};
ghost use Rattle.nt_format.specs.Envelopes.{envelope};

use nt_frame::seal_envelope;
use std::alloc::{AllocError, Global};

/// The envelope of a payload. One of 2^47 bytes or more is refused as want of memory: no envelope
/// can hold it, and no machine that runs this can.
pub(crate) fn seal(alloc: Global, kind: u16, payload: &[u8]) -> Result<Vec<u8>, AllocError>
    ensures { IfOk result (λ sealed. sealed.items ≡ envelope kind payload.now) }
{
    if payload.len() as u64 >= 1 << 47 {
        return Err(AllocError);
    }
    seal_envelope(alloc, kind, payload)
}
