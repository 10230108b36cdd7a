//! Descriptions that are read: worked bytes, one fault at a time, and every cut.

use super::data::{DEFERRED, FIVE_BYTES, FIVE_COLUMNS, FIVE_FIELDS, FLAGS, FOREIGN};
use super::read;
use crate::tests::rows::{Column, Field, has_columns, has_fields};
use nt_num::Cur;
use nt_schema::{DescriptionError, Part, Schema, read_description};
use std::alloc::Global;

/// Whether the worked bytes are read, between others.
fn worked_bytes_are_read(alloc: Global) -> Result<bool, DescriptionError> {
    let mut bytes = Vec::new(alloc);
    bytes.extend_from_slice(b"\xaa\xaa")?;
    bytes.extend_from_slice(FIVE_BYTES)?;
    bytes.push(0xbb)?;
    let mut cur = Cur::new(&bytes);
    let before = cur.bytes(2).is_ok();
    let mut schema = Schema::new(alloc);
    read_description(&mut cur, &mut schema, Part::Header)?;
    let is_read = (before, cur.place(), cur.left()) == (true, 621, 1);
    let counts = (schema.header_fields(), schema.header_columns());
    let are_rows = has_fields(&schema, &FIVE_FIELDS) && has_columns(&schema, &FIVE_COLUMNS);
    Ok(is_read && counts == (8, 8) && are_rows)
}

/// The fields of a header and of its extension.
const FIELDS_OF_BOTH: [Field; 2] = [(0, 2, 4, b"r", b"odd"), (1, 0, 0, b"y", b"std::uint16_t")];

/// The columns of a header and of its extension.
const COLUMNS_OF_BOTH: [Column; 2] = [(4, 8, 0, 0, 3, 0), (0x12, 16, 1, 1, 0, 2)];

/// Whether an extension goes on behind the rows of a header, and is refused without them.
fn extension_goes_on(alloc: Global) -> Result<bool, DescriptionError> {
    let mut schema = read(alloc, FLAGS)?;
    read_description(&mut Cur::new(DEFERRED), &mut schema, Part::Extension)?;
    let counts = (schema.header_fields(), schema.header_columns());
    let are_rows = has_fields(&schema, &FIELDS_OF_BOTH) && has_columns(&schema, &COLUMNS_OF_BOTH);
    let fault = DescriptionError::BadField {
        at: 12,
        id: 0,
        parent: 1,
    };
    Ok(counts == (1, 1) && are_rows && read(alloc, DEFERRED).err() == Some(fault))
}

/// The fields of the foreign bytes.
const FOREIGN_FIELDS: [Field; 2] = [(0, 2, 5, b"r", b"T"), (0, 0, 0, b"n", b"std::int8_t")];

/// The columns of the foreign bytes.
const FOREIGN_COLUMNS: [Column; 3] = [
    (3, 8, 1, 1, 1, (1 << 63) + 5),
    (3, 8, 1, 2, 0, 0),
    (3, 8, 0, 3, 0, 6),
];

/// Whether bytes of another writer have these rows.
fn foreign_rows(alloc: Global) -> Result<bool, DescriptionError> {
    let schema = read(alloc, FOREIGN)?;
    Ok(has_fields(&schema, &FOREIGN_FIELDS) && has_columns(&schema, &FOREIGN_COLUMNS))
}

/// A byte of the worked description, what it is changed to, and where the fault then is.
const FRAMES: [(usize, u8, usize); 16] = [
    (7, 0x00, 0),
    (0, 0x5A, 378),
    (8, 9, 423),
    (11, 0xFF, 423),
    (12, 7, 12),
    (12, 8, 20),
    (378, 0x2E, 378),
    (357, 0x40, 357),
    (120, 0x20, 149),
    (120, 0x33, 168),
    (575, 0x13, 593),
    (591, 1, 595),
    (431, 9, 595),
    (434, 0xFF, 595),
    (595, 0xF5, 595),
    (607, 0xF3, 607),
];

/// Whether the worked description has this fault with a byte changed.
fn has_fault(
    alloc: Global,
    at: usize,
    to: u8,
    fault: Option<DescriptionError>,
) -> Result<bool, DescriptionError> {
    let mut bytes = FIVE_BYTES.to_vec(alloc)?;
    if let Some(byte) = bytes.get_mut(at) {
        *byte = to;
    }
    Ok(read(alloc, &bytes).err() == fault)
}

/// Whether frames that don't fit are refused.
fn misplaced(alloc: Global) -> Result<bool, DescriptionError> {
    for (byte, to, at) in FRAMES {
        if !has_fault(alloc, byte, to, Some(DescriptionError::BadFrame { at }))? {
            return Ok(false);
        }
    }
    Ok(true)
}

/// A byte of the worked description, what it is changed to, and the fault that this makes.
const RANGES: [(usize, u8, Option<DescriptionError>); 7] = [
    (
        28,
        1,
        Some(DescriptionError::BadField {
            at: 12,
            id: 0,
            parent: 1,
        }),
    ),
    (
        295,
        6,
        Some(DescriptionError::BadField {
            at: 279,
            id: 5,
            parent: 6,
        }),
    ),
    (
        507,
        8,
        Some(DescriptionError::BadColumn {
            at: 495,
            count: 8,
            id: 8,
        }),
    ),
    (
        587,
        9,
        Some(DescriptionError::BadColumn {
            at: 575,
            count: 8,
            id: 9,
        }),
    ),
    (295, 5, None),
    (507, 7, None),
    (591, 2, None),
];

/// Whether ids out of their range are refused, and others aren't.
fn out_of_range(alloc: Global) -> Result<bool, DescriptionError> {
    for (byte, to, fault) in RANGES {
        if !has_fault(alloc, byte, to, fault)? {
            return Ok(false);
        }
    }
    Ok(true)
}

/// Where the lists of the worked description begin.
const LISTS: [usize; 4] = [0, 423, 595, 607];

/// Whether the worked description is refused where it is cut, and only there.
fn every_cut(alloc: Global) -> bool {
    for len in 0..FIVE_BYTES.len() {
        let mut fault = None;
        for at in LISTS {
            if at <= len {
                fault = Some(DescriptionError::BadFrame { at });
            }
        }
        if read(alloc, &FIVE_BYTES[..len]).err() != fault {
            return false;
        }
    }
    read(alloc, FIVE_BYTES).is_ok()
}

#[test]
fn reading(rt: HostRuntime) {
    let alloc = rt.alloc();
    for (holds, name) in [
        (worked_bytes_are_read(alloc), "worked bytes are read"),
        (extension_goes_on(alloc), "extension goes on"),
        (foreign_rows(alloc), "foreign rows"),
        (misplaced(alloc), "misplaced"),
        (out_of_range(alloc), "out of range"),
        (Ok(every_cut(alloc)), "every cut"),
    ] {
        assert!(rt; matches!(holds, Ok(true)), "{name}");
    }
}
