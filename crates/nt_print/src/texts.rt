//! Texts, and short ways for those of characters that stand for themselves.

ghost use Rattle.std.specs.Prelude.{◌≡◌, ◌≤◌, ◌++◌, ◌∷◌, length, take, OnOk};
ghost use Rattle.serde_json.specs.Written.{compact_text};
ghost use Rattle.nt_event.specs.Json.{data_of};
ghost use Rattle.nt_types.specs.TreeData.{text};
ghost use Rattle.nt_print.specs.Simple.{AllSimple};

use crate::room::ROOM;
use crate::short::place_text;
use crate::simple::are_simple;
use nt_event::write_text;
use std::alloc::{AllocError, Global};

/// The most bytes of a short text: with its mark and quotes it fits the room.
const SHORT: usize = 29;

/// Appends a mark, and then bytes that stand for themselves between quotes.
fn put_simple(mark: u8, bytes: &[u8], out: &mut Vec<u8>) -> Result<(), AllocError>
    requires { AllSimple bytes.now }
    ensures ok { OnOk result (out.new.items ≡ out.old.items ++ mark ∷ compact_text (data_of (text bytes.now))) }
    ensures kept { take (length out.old.items) out.new.items ≡ out.old.items }
{
    out.extend_from_slice(&[mark, b'"'])?;
    out.extend_from_slice(bytes)?;
    out.push(b'"')?;
    Ok(())
}

/// Appends a mark, and then any text.
#[inline(never)]
fn put_any(alloc: Global, mark: u8, bytes: &[u8], out: &mut Vec<u8>) -> Result<(), AllocError>
    ensures ok { OnOk result (out.new.items ≡ out.old.items ++ mark ∷ compact_text (data_of (text bytes.now))) }
    ensures kept { take (length out.old.items) out.new.items ≡ out.old.items }
{
    out.push(mark)?;
    write_text(alloc, bytes, out)?;
    Ok(())
}

/// Appends a mark, and then a short text.
fn put_short(alloc: Global, mark: u8, bytes: &[u8], out: &mut Vec<u8>) -> Result<(), AllocError>
    requires { length bytes.now ≤ SHORT }
    ensures ok { OnOk result (out.new.items ≡ out.old.items ++ mark ∷ compact_text (data_of (text bytes.now))) }
    ensures kept { take (length out.old.items) out.new.items ≡ out.old.items }
{
    let len = out.len();
    out.extend_from_slice(&ROOM)?;
    let count = place_text(mark, bytes, &mut out[len..]);
    out.truncate(len + count);
    if count == 0 {
        return put_any(alloc, mark, bytes, out);
    }
    Ok(())
}

/// Appends a mark, and then a text.
pub fn put_text(alloc: Global, mark: u8, bytes: &[u8], out: &mut Vec<u8>) -> Result<(), AllocError>
    ensures ok { OnOk result (out.new.items ≡ out.old.items ++ mark ∷ compact_text (data_of (text bytes.now))) }
    ensures kept { take (length out.old.items) out.new.items ≡ out.old.items }
{
    if bytes.len() <= SHORT {
        put_short(alloc, mark, bytes, out)
    } else if are_simple(bytes) {
        put_simple(mark, bytes, out)
    } else {
        put_any(alloc, mark, bytes, out)
    }
}
