//! Descriptions of fields and columns: their rows and their bytes.

mod data;
mod opening;
mod reading;

use self::data::{
    DEFERRED, FIVE, FIVE_BYTES, FIVE_COLUMNS, FIVE_FIELDS, FLAGS, FOREIGN, NO_FLAGS, NO_ROWS,
    OTHER_BYTES, OTHER_COLUMNS, OTHER_FIELDS, OTHERS,
};
use super::rows::{Field, described, has_columns, has_fields, schema_of};
use nt_frame::FrameOut;
use nt_num::Cur;
use nt_schema::{DescriptionError, Part, Schema, read_description, write_description};
use std::alloc::{AllocError, Global};

/// The schema that a header of these bytes describes.
fn read(alloc: Global, bytes: &[u8]) -> Result<Schema, DescriptionError> {
    let mut schema = Schema::new(alloc);
    read_description(&mut Cur::new(bytes), &mut schema, Part::Header)?;
    Ok(schema)
}

/// Whether the rows of a part can be written whole, as these bytes.
fn is_written(
    alloc: Global,
    schema: &Schema,
    part: Part,
    bytes: &[u8],
) -> Result<bool, AllocError> {
    if !schema.is_whole() {
        return Ok(false);
    }
    let mut out = FrameOut::new(Vec::new(alloc));
    write_description(schema, part, &mut out)?;
    Ok(out.into_bytes().as_slice() == bytes)
}

/// Whether described fields have these rows.
fn worked_rows(alloc: Global) -> Result<bool, DescriptionError> {
    let five = described(alloc, FIVE, false)?;
    let split = described(alloc, OTHERS, false)?;
    let others = described(alloc, OTHERS, true)?;
    let are_five = has_fields(&five, &FIVE_FIELDS) && has_columns(&five, &FIVE_COLUMNS);
    let are_others = has_fields(&others, &OTHER_FIELDS) && has_columns(&others, &OTHER_COLUMNS);
    let counts = (five.header_fields(), five.header_columns());
    let other_counts = (others.header_fields(), others.header_columns());
    let are_counts = counts == (8, 8) && other_counts == (11, 8);
    Ok(are_five && has_fields(&split, &OTHER_FIELDS) && are_others && are_counts)
}

/// A text of so many fields, each with one column.
fn many_fields(alloc: Global, count: u32) -> Result<Vec<u8>, AllocError> {
    let mut text = Vec::new(alloc);
    for id in 0..count {
        for digit in [id / 676, id / 26, id] {
            text.push(b'a' + (digit % 26) as u8)?;
        }
        text.extend_from_slice(b" u8\n")?;
    }
    Ok(text)
}

/// Whether thousands of rows are described, and found by their names.
fn five_thousand_rows(alloc: Global) -> Result<bool, DescriptionError> {
    let text = many_fields(alloc, 2500)?;
    let schema = described(alloc, &text, false)?;
    let counts = (schema.fields(), schema.columns());
    Ok(counts == (2500, 2500) && schema.find(b"adr") == Some(95))
}

/// Whether a new schema has no rows.
fn no_rows(alloc: Global) -> bool {
    let schema = Schema::new(alloc);
    (schema.fields(), schema.columns()) == (0, 0)
        && (schema.header_fields(), schema.header_columns()) == (0, 0)
}

/// Whether described fields are written as these bytes, with no rows of an extension.
fn worked_bytes(alloc: Global) -> Result<bool, DescriptionError> {
    for (text, plain, bytes) in [(FIVE, false, FIVE_BYTES), (OTHERS, true, OTHER_BYTES)] {
        let schema = described(alloc, text, plain)?;
        let is_header = is_written(alloc, &schema, Part::Header, bytes)?;
        if !is_header || !is_written(alloc, &schema, Part::Extension, NO_ROWS)? {
            return Ok(false);
        }
    }
    Ok(true)
}

/// Whether both parts are written as they were read.
fn bytes_of_both_parts(alloc: Global) -> Result<bool, DescriptionError> {
    let mut schema = read(alloc, NO_FLAGS)?;
    read_description(&mut Cur::new(DEFERRED), &mut schema, Part::Extension)?;
    let is_header = is_written(alloc, &schema, Part::Header, NO_FLAGS)?;
    Ok(is_header && is_written(alloc, &schema, Part::Extension, DEFERRED)?)
}

/// Whether a schema is whole only where its flags have no words.
fn flags_without_their_words(alloc: Global) -> Result<bool, DescriptionError> {
    for (bytes, is_whole) in [
        (FLAGS, false),
        (FOREIGN, false),
        (NO_FLAGS, true),
        (FIVE_BYTES, true),
    ] {
        if read(alloc, bytes)?.is_whole() != is_whole {
            return Ok(false);
        }
    }
    Ok(true)
}

/// Names, and which field at the top level has each.
const TOPS: [(&[u8], Option<u32>); 5] = [
    (b"x", Some(0)),
    (b"p", Some(4)),
    (b"a", None),
    (b"_0", None),
    (b"", None),
];

/// Fields of which two at the top level have a name that an inner one has before them.
const NAMESAKES: [Field; 4] = [
    (0, 0, 0, b"a", b""),
    (0, 0, 0, b"b", b""),
    (2, 0, 0, b"b", b""),
    (3, 0, 0, b"b", b""),
];

/// Whether names are found at the top level alone, and the first field of each.
fn names_at_the_top(alloc: Global) -> Result<bool, DescriptionError> {
    let five = described(alloc, FIVE, false)?;
    for (name, id) in TOPS {
        if five.find(name) != id {
            return Ok(false);
        }
    }
    Ok(schema_of(alloc, &NAMESAKES, &[])?.find(b"b") == Some(2))
}

#[test]
fn descriptions(rt: HostRuntime) {
    let alloc = rt.alloc();
    for (holds, name) in [
        (worked_rows(alloc), "worked rows"),
        (five_thousand_rows(alloc), "five thousand rows"),
        (Ok(no_rows(alloc)), "no rows"),
        (worked_bytes(alloc), "worked bytes"),
        (bytes_of_both_parts(alloc), "bytes of both parts"),
        (
            flags_without_their_words(alloc),
            "flags without their words",
        ),
        (names_at_the_top(alloc), "names at the top"),
    ] {
        assert!(rt; matches!(holds, Ok(true)), "{name}");
    }
}
