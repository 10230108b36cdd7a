//! Blobs behind their keys.

ghost use Rattle.std.specs.Prelude.{◌≡◌, ◌+◌, ◌≤◌, ◌^◌, ◌++◌, length, OnOk, IfOk};
ghost use Rattle.nt_pagelists.specs.Blobs.{blob, blob_len};

use std::alloc::AllocError;

/// The bytes of a blob's key.
pub(crate) const KEY: u64 = 42;

/// No part begins further on: no machine holds so many bytes as would stand before it.
pub(crate) const LAST_PLACE: u64 = 1 << 61;

/// A key that isn't written yet.
fn empty_key() -> [u8; 42] {
    [0; 42]
}

/// Appends the blob of an object to bytes that begin at a place of the file, and gives the place of
/// the blob.
pub(crate) fn put_blob(out: &mut Vec<u8>, start: u64, object: &[u8]) -> Result<u64, AllocError>
    requires start { start ≤ 2 ^ 56 }
    requires fits { blob_len (length object.now) ≤ 2 ^ 30 }
    ensures bytes { OnOk result (out.new.items ≡ out.old.items
        ++ blob (start + length out.old.items) object.now) }
    ensures place { IfOk result (λ place. place ≡ start + length out.old.items) }
    ensures low { IfOk result (λ place. place ≤ 2 ^ 61) }
{
    let place = start + out.len() as u64;
    if place > LAST_PLACE {
        return Err(AllocError);
    }
    let mut key = empty_key();
    nt_tfile::blob_key(place, object.len() as u32, &mut key);
    out.extend_from_slice(&key)?;
    out.extend_from_slice(object)?;
    Ok(place)
}
