//! Strings, quoted or as hex.

ghost use Rattle.std.specs.Prelude.{◌≡◌, ◌++◌, ◌∷◌, ◌<◌, [], length, take, drop, OnOk};
ghost use Rattle.std.specs.Char.{digit_char};
ghost use Rattle.json.specs.Print.{escape, escape_byte, quoted};
ghost use Rattle.serde_json.specs.Written.{compact_text};
ghost use Rattle.nt_event.specs.Json.{data_of, hex_data};
ghost use Rattle.nt_types.specs.TreeData.{text};

use crate::quoted::plain_end;
use std::alloc::{AllocError, Global};

/// A hex digit.
fn digit(n: u8) -> u8
    requires { n < 16 }
    ensures { result ≡ digit_char n }
{
    if n < 10 { n + 48 } else { n + 87 }
}

/// Appends what stands for a byte in a string.
#[tactic(auto, unfolding(json::specs::Print::escape_byte))]
fn put_byte(byte: u8, out: &mut Vec<u8>) -> Result<(), AllocError>
    ensures ok { OnOk result (out.new.items ≡ out.old.items ++ escape_byte byte) }
    ensures kept { take (length out.old.items) out.new.items ≡ out.old.items }
{
    if byte == b'"' || byte == b'\\' {
        return out.extend_from_slice(&[92, byte]);
    }
    if byte == 8 {
        return out.extend_from_slice(&[92, 98]);
    }
    if byte == 12 {
        return out.extend_from_slice(&[92, 102]);
    }
    if byte == 10 {
        return out.extend_from_slice(&[92, 110]);
    }
    if byte == 13 {
        return out.extend_from_slice(&[92, 114]);
    }
    if byte == 9 {
        return out.extend_from_slice(&[92, 116]);
    }
    if byte < 32 {
        return out.extend_from_slice(&[92, 117, 48, 48, digit(byte / 16), digit(byte % 16)]);
    }
    out.extend_from_slice(&[byte])
}

/// Appends the inside of a string.
fn put_escaped(bytes: &[u8], out: &mut Vec<u8>) -> Result<(), AllocError>
    ensures ok { OnOk result (out.new.items ≡ out.old.items ++ escape bytes.now) }
    ensures kept { take (length out.old.items) out.new.items ≡ out.old.items }
{
    let mut i = 0;
    while i < bytes.len() {
        let stop = plain_end(bytes, i);
        out.extend_from_slice(&bytes[i..stop])?;
        if stop == bytes.len() {
            return Ok(());
        }
        put_byte(bytes[stop], out)?;
        i = stop + 1;
    }
    Ok(())
}

/// Appends bytes between quotes.
fn put_quoted(bytes: &[u8], out: &mut Vec<u8>) -> Result<(), AllocError>
    ensures ok { OnOk result (out.new.items ≡ out.old.items ++ quoted bytes.now) }
    ensures kept { take (length out.old.items) out.new.items ≡ out.old.items }
{
    out.push(b'"')?;
    put_escaped(bytes, out)?;
    out.push(b'"')?;
    Ok(())
}

/// Appends an object with the hex of bytes.
fn put_hex(alloc: Global, bytes: &[u8], out: &mut Vec<u8>) -> Result<(), AllocError>
    ensures ok { OnOk result (out.new.items ≡ out.old.items ++ compact_text (hex_data bytes.now)) }
    ensures kept { take (length out.old.items) out.new.items ≡ out.old.items }
{
    let digits = hex::encode(alloc, bytes)?;
    out.extend_from_slice(b"{\"hex\":")?;
    put_quoted(digits.as_bytes(), out)?;
    out.push(b'}')?;
    Ok(())
}

/// Appends a text as it stands in a line: a string, or an object with its hex where it is not UTF-8. Where memory runs out,
/// some of it may stand behind what was there.
pub fn write_text(alloc: Global, bytes: &[u8], out: &mut Vec<u8>) -> Result<(), AllocError>
    ensures ok { OnOk result (out.new.items ≡ out.old.items ++ compact_text (data_of (text bytes.now))) }
    ensures kept { take (length out.old.items) out.new.items ≡ out.old.items }
{
    match simdutf8::compat::from_utf8(bytes) {
        Ok(_) => put_quoted(bytes, out),
        Err(_) => put_hex(alloc, bytes, out),
    }
}
