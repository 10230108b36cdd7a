//! Parts of frames in a list of bytes: their heads, and the strings inside them.

ghost use Rattle.std.specs.Prelude.{◌≡◌, ◌<◌, ◌+◌, ◌≤◌, ◌-◌, ◌^◌, ◌++◌, length, take, drop, OnOk, OnErr, vec_len};
ghost use Rattle.std.specs.Int.{w32, w64, to_le_bytes};
ghost use Rattle.nt_format.specs.Strings.{string};
ghost use Rattle.nt_lists.specs.Places.{put_at};
ghost use Rattle.nt_frame.specs.Writing.{frame};
ghost use Rattle.nt_frame.specs.Marks.{head_len};

use crate::writing::Mark;
use byteorder::{ByteOrder, LittleEndian};
use nt_num::put_u32le;
use std::alloc::AllocError;

/// Puts the head of a frame that goes to the end in its place: the size, and the number of items
/// of a list frame.
pub(crate) fn put_head(out: &mut Vec<u8>, mark: Mark)
    requires { mark.at + head_len mark.count ≤ vec_len out.old }
    ensures { out.new.items ≡ take mark.at out.old.items ++ frame mark.count
        (drop (mark.at + head_len mark.count) out.old.items) }
{
    let size = (out.len() - mark.at) as u64;
    match mark.count {
        None => replace(out, mark.at, &size.to_le_bytes()),
        Some(count) => replace(out, mark.at, &list_head(size, count)),
    }
}

// A list frame begins with its size below zero and the number of its items.
fn list_head(size: u64, count: u32) -> [u8; 12]
    requires { 0 < size }
    ensures { result ≡ to_le_bytes w64 (2 ^ 64 - size) ++ to_le_bytes w32 count }
{
    let mut head = [0; 12];
    LittleEndian::write_u64(&mut head, size.wrapping_neg());
    LittleEndian::write_u32(&mut head[8..], count);
    head
}

// Puts bytes in the place of as many others.
fn replace(out: &mut Vec<u8>, at: usize, bytes: &[u8])
    requires { at + length bytes.now ≤ vec_len out.old }
    ensures { out.new.items ≡ put_at out.old.items at bytes.now }
{
    out[at..at + bytes.len()].copy_from_slice(bytes);
}

/// Appends a string: its length, and its bytes.
pub(crate) fn put_text(out: &mut Vec<u8>, bytes: &[u8]) -> Result<(), AllocError>
    requires { length bytes.now < 2 ^ 32 }
    ensures ok { OnOk result (out.new.items ≡ out.old.items ++ string bytes.now) }
    ensures err { OnErr result (out.new.items ≡ out.old.items) }
{
    let before = out.len();
    put_u32le(out, bytes.len() as u32)?;
    if out.extend_from_slice(bytes).is_err() {
        out.truncate(before);
        return Err(AllocError);
    }
    Ok(())
}
