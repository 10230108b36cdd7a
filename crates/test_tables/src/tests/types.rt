//! Codes and bits of the published table.

use nt_types::ColumnType;
use std::alloc::{AllocError, Global};

/// Code, bits, and how the type prints.
const TABLE: [(u16, u16, &str); 22] = [
    (0x00, 1, "Bit"),
    (0x01, 8, "Byte"),
    (0x02, 8, "Char"),
    (0x03, 8, "Int8"),
    (0x04, 8, "UInt8"),
    (0x05, 16, "Int16"),
    (0x06, 16, "UInt16"),
    (0x07, 32, "Int32"),
    (0x08, 32, "UInt32"),
    (0x09, 64, "Int64"),
    (0x0A, 64, "UInt64"),
    (0x0E, 32, "Index32"),
    (0x0F, 64, "Index64"),
    (0x10, 96, "Switch"),
    (0x11, 16, "SplitInt16"),
    (0x12, 16, "SplitUInt16"),
    (0x13, 32, "SplitInt32"),
    (0x14, 32, "SplitUInt32"),
    (0x15, 64, "SplitInt64"),
    (0x16, 64, "SplitUInt64"),
    (0x1A, 32, "SplitIndex32"),
    (0x1B, 64, "SplitIndex64"),
];

/// Codes that no type has.
const NO_CODES: [u16; 11] = [
    0x0B, 0x0C, 0x0D, 0x17, 0x18, 0x19, 0x1C, 0x1D, 0x1E, 0x0100, 0xFFFF,
];

/// Whether codes are those of the table, and no others.
fn codes_are_the_published_ones(alloc: Global) -> Result<bool, AllocError> {
    for (code, bits, name) in TABLE {
        let Some(found) = ColumnType::of_code(code) else {
            return Ok(false);
        };
        let printed = format!(in alloc; "{found:?}")?;
        if (found.code(), found.bits()) != (code, bits) || printed.as_str() != name {
            return Ok(false);
        }
    }
    for code in NO_CODES {
        if ColumnType::of_code(code).is_some() {
            return Ok(false);
        }
    }
    Ok(true)
}

#[test]
fn types(rt: HostRuntime) {
    assert!(rt; codes_are_the_published_ones(rt.alloc()) == Ok(true));
}
