//! Numbers at the end of a list of bytes.

ghost use Rattle.std.specs.Prelude.{◌≡◌, ◌++◌, OnOk, OnErr};
ghost use Rattle.std.specs.Int.{w16, w32, w64, to_le_bytes, to_be_bytes};

use byteorder::{BigEndian, ByteOrder, LittleEndian};
use std::alloc::AllocError;

/// Appends a number, the lowest byte first.
pub fn put_u16le(out: &mut Vec<u8>, v: u16) -> Result<(), AllocError>
    ensures ok { OnOk result (out.new.items ≡ out.old.items ++ to_le_bytes w16 v) }
    ensures err { OnErr result (out.new.items ≡ out.old.items) }
{
    let mut bytes = [0; 2];
    LittleEndian::write_u16(&mut bytes, v);
    out.extend_from_slice(&bytes)
}

/// Appends a number, the lowest byte first.
pub fn put_u32le(out: &mut Vec<u8>, v: u32) -> Result<(), AllocError>
    ensures ok { OnOk result (out.new.items ≡ out.old.items ++ to_le_bytes w32 v) }
    ensures err { OnErr result (out.new.items ≡ out.old.items) }
{
    let mut bytes = [0; 4];
    LittleEndian::write_u32(&mut bytes, v);
    out.extend_from_slice(&bytes)
}

/// Appends a number, the lowest byte first.
pub fn put_u64le(out: &mut Vec<u8>, v: u64) -> Result<(), AllocError>
    ensures ok { OnOk result (out.new.items ≡ out.old.items ++ to_le_bytes w64 v) }
    ensures err { OnErr result (out.new.items ≡ out.old.items) }
{
    let mut bytes = [0; 8];
    LittleEndian::write_u64(&mut bytes, v);
    out.extend_from_slice(&bytes)
}

/// Appends a number, the highest byte first.
pub fn put_u16be(out: &mut Vec<u8>, v: u16) -> Result<(), AllocError>
    ensures ok { OnOk result (out.new.items ≡ out.old.items ++ to_be_bytes w16 v) }
    ensures err { OnErr result (out.new.items ≡ out.old.items) }
{
    let mut bytes = [0; 2];
    BigEndian::write_u16(&mut bytes, v);
    out.extend_from_slice(&bytes)
}

/// Appends a number, the highest byte first.
pub fn put_u32be(out: &mut Vec<u8>, v: u32) -> Result<(), AllocError>
    ensures ok { OnOk result (out.new.items ≡ out.old.items ++ to_be_bytes w32 v) }
    ensures err { OnErr result (out.new.items ≡ out.old.items) }
{
    let mut bytes = [0; 4];
    BigEndian::write_u32(&mut bytes, v);
    out.extend_from_slice(&bytes)
}

/// Appends a number, the highest byte first.
pub fn put_u64be(out: &mut Vec<u8>, v: u64) -> Result<(), AllocError>
    ensures ok { OnOk result (out.new.items ≡ out.old.items ++ to_be_bytes w64 v) }
    ensures err { OnErr result (out.new.items ≡ out.old.items) }
{
    let mut bytes = [0; 8];
    BigEndian::write_u64(&mut bytes, v);
    out.extend_from_slice(&bytes)
}
