//! Open and closed fields, and the shapes of described ones.

use crate::tests::rows::{Column, Field, described, schema_of};
use nt_types::Shape;
use std::alloc::{AllocError, Global};

/// A field of this parent, role, flags and type name.
fn field(parent: u32, role: u16, flags: u16, of: &'static [u8]) -> Field {
    (parent, role, flags, b"n", of)
}

/// A column of this code, bits and field.
fn column(code: u16, bits: u16, field: u32) -> Column {
    (code, bits, field, 0, 0, 0)
}

/// Whether the first field of these rows is open.
fn is_open(alloc: Global, fields: &[Field], columns: &[Column]) -> Result<bool, AllocError> {
    Ok(schema_of(alloc, fields, columns)?.shape(0).is_some())
}

/// The flags of a `std::uint32_t`, its column, and whether it is open.
const NUMBERS: [(u16, Column, bool); 12] = [
    (0, (0x14, 32, 0, 0, 0, 0), true),
    (0, (0x08, 32, 0, 0, 0, 0), true),
    (0, (0x07, 32, 0, 0, 0, 0), false),
    (0, (0x16, 64, 0, 0, 0, 0), false),
    (0, (0x0C, 32, 0, 0, 0, 0), false),
    (0, (0x14, 64, 0, 0, 0, 0), false),
    (1, (0x14, 32, 0, 0, 0, 0), false),
    (4, (0x14, 32, 0, 0, 0, 0), false),
    (0, (0x14, 32, 0, 0, 1, 0), false),
    (0, (0x14, 32, 0, 1, 0, 5), true),
    (0, (0x14, 32, 0, 2, 0, 0), false),
    (0, (0x14, 32, 0, 1, 0, 1 << 63), false),
];

/// Whether these numbers are open or closed.
fn numbers(alloc: Global) -> Result<bool, AllocError> {
    for (flags, column, open) in NUMBERS {
        let fields = [field(0, 0, flags, b"std::uint32_t")];
        if is_open(alloc, &fields, &[column])? != open {
            return Ok(false);
        }
    }
    Ok(true)
}

/// Of a field with bools inside: its role, the code and the bits of its column, how many bools
/// there are, the first element of their columns, and whether it is open. Code FF is no column.
const PARENTS: [(u16, u16, u16, u32, u64, bool); 14] = [
    (1, 0x1A, 32, 1, 0, true),
    (1, 0x0F, 64, 1, 0, true),
    (1, 0x1A, 32, 1, 7, false),
    (1, 0x1A, 32, 0, 0, false),
    (1, 0x1A, 32, 2, 0, false),
    (1, 0x10, 96, 1, 0, false),
    (1, 0xFF, 0, 1, 0, false),
    (2, 0xFF, 0, 2, 7, true),
    (2, 0xFF, 0, 0, 0, false),
    (2, 0x04, 8, 1, 0, false),
    (3, 0x10, 96, 2, 0, true),
    (3, 0x10, 96, 0, 0, false),
    (3, 0x0F, 64, 1, 0, false),
    (4, 0xFF, 0, 1, 0, false),
];

/// Whether these fields with fields inside are open or closed.
fn fields_with_fields(alloc: Global) -> Result<bool, AllocError> {
    for (role, code, bits, bools, first, open) in PARENTS {
        let mut fields = Vec::new(alloc);
        let mut columns = Vec::new(alloc);
        fields.push(field(0, role, 0, b""))?;
        if code != 0xFF {
            columns.push(column(code, bits, 0))?;
        }
        for id in 0..bools {
            fields.push(field(0, 0, 0, b"bool"))?;
            columns.push((0, 1, id + 1, 1, 0, first))?;
        }
        if is_open(alloc, &fields, &columns)? != open {
            return Ok(false);
        }
    }
    Ok(true)
}

/// Whether texts are open or closed by their two columns.
fn texts(alloc: Global) -> Result<bool, AllocError> {
    let fields = [field(0, 0, 0, b"std::string")];
    let (ends, bytes) = (column(0x0E, 32, 0), column(2, 8, 0));
    let (late, late_bytes) = ((0x0E, 32, 0, 1, 0, 7), (2, 8, 0, 1, 0, 7));
    let rows: [(&[Column], bool); 4] = [
        (&[late, bytes], true),
        (&[ends, late_bytes], false),
        (&[bytes, ends], false),
        (&[ends], false),
    ];
    for (columns, open) in rows {
        if is_open(alloc, &fields, columns)? != open {
            return Ok(false);
        }
    }
    Ok(true)
}

/// Whether collections inside one another, with a bool in the last, are open.
fn nested(alloc: Global, lists: u32) -> Result<bool, AllocError> {
    let mut fields = Vec::new(alloc);
    let mut columns = Vec::new(alloc);
    let mut parent = 0;
    for id in 0..lists {
        fields.push(field(parent, 1, 0, b""))?;
        columns.push(column(0x1B, 64, id))?;
        parent = id;
    }
    fields.push(field(parent, 0, 0, b"bool"))?;
    columns.push(column(0, 1, lists))?;
    is_open(alloc, &fields, &columns)
}

/// Whether shapes are those of the text that described them.
fn described_shapes(alloc: Global) -> Result<bool, AllocError> {
    let text = b"n i16\nd tuple<vec<byte>,string>\nc var<bool,tuple<char>>\no opt<u16>";
    let schema = described(alloc, text, false)?;
    let is_number = matches!(
        schema.shape(0),
        Some(Shape::Int {
            bits: 16,
            signed: true
        })
    );
    let Some(Shape::Rec(members)) = schema.shape(1) else {
        return Ok(false);
    };
    let [first, second] = members.as_slice() else {
        return Ok(false);
    };
    let is_list = first.name.as_slice() == b"_0".as_slice() && matches!(first.of, Shape::List(_));
    let is_text = second.name.as_slice() == b"_1".as_slice() && matches!(second.of, Shape::Text);
    let Some(Shape::Choice(alternatives)) = schema.shape(2) else {
        return Ok(false);
    };
    let is_choice = matches!(alternatives.as_slice(), [Shape::Bool, Shape::Rec(_)]);
    let Some(Shape::Maybe(inner)) = schema.shape(3) else {
        return Ok(false);
    };
    let is_optional = matches!(
        &**inner,
        Shape::Int {
            bits: 16,
            signed: false
        }
    );
    let is_last = schema.shape(4).is_none() && schema.shape(100).is_none();
    Ok(is_number && is_list && is_text && is_choice && is_optional && is_last)
}

#[test]
fn opening(rt: HostRuntime) {
    let alloc = rt.alloc();
    let are_levels = matches!(nested(alloc, 63), Ok(true))
        && matches!(nested(alloc, 64), Ok(false));
    for (holds, name) in [
        (numbers(alloc), "numbers"),
        (fields_with_fields(alloc), "fields with fields"),
        (texts(alloc), "texts"),
        (Ok(are_levels), "most levels"),
        (described_shapes(alloc), "described shapes"),
    ] {
        assert!(rt; holds == Ok(true), "{name}");
    }
}
