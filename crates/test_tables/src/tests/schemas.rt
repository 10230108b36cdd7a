//! Schema texts, with their fields or their fault.

use nt_types::{SchemaError, SchemaFault, SchemaKind, Shape, parse_member, parse_schema};
use std::alloc::{AllocError, Global};

/// A text, a line and the kind of its fault.
const FAULTS: [(&str, u64, SchemaKind); 34] = [
    ("x u64\nx u8", 2, SchemaKind::Repeated),
    ("", 0, SchemaKind::Empty),
    ("\n \t\r\n\n", 0, SchemaKind::Empty),
    ("v var<rec{a:u8}>", 1, SchemaKind::BadType),
    ("v var<vec<tuple<rec{a:u8}>>>", 1, SchemaKind::BadType),
    ("x u8\n\n1y u8", 3, SchemaKind::BadName),
    (" x u8", 1, SchemaKind::BadName),
    ("x", 1, SchemaKind::BadName),
    ("x\r", 1, SchemaKind::BadName),
    ("x-y u8", 1, SchemaKind::BadName),
    ("x u8\nx what", 2, SchemaKind::Repeated),
    ("x ", 1, SchemaKind::BadType),
    ("x u8 u8", 1, SchemaKind::BadType),
    ("x \ru8", 1, SchemaKind::BadType),
    ("x u7", 1, SchemaKind::BadType),
    ("x u08", 1, SchemaKind::BadType),
    ("x vec<u8", 1, SchemaKind::BadType),
    ("x vec<u8>>", 1, SchemaKind::BadType),
    ("x vec<u8,u8>", 1, SchemaKind::BadType),
    ("x vec< u8>", 1, SchemaKind::BadType),
    ("x vec<u8>x", 1, SchemaKind::BadType),
    ("x tuple<>", 1, SchemaKind::BadType),
    ("x rec{}", 1, SchemaKind::BadType),
    ("x rec{a:u8,a:u8}", 1, SchemaKind::BadType),
    ("x rec{1a:u8}", 1, SchemaKind::BadType),
    ("x rec{a:u8>", 1, SchemaKind::BadType),
    ("x rec{vec<u8>:u8}", 1, SchemaKind::BadType),
    ("x opt<opt<u8>>", 1, SchemaKind::BadType),
    ("x opt<var<u8>>", 1, SchemaKind::BadType),
    ("x opt<rec{a:u8}>", 1, SchemaKind::BadType),
    ("x vec<opt<rec{a:u8}>>", 1, SchemaKind::BadType),
    ("x opt<vec<tuple<rec{a:u8}>>>", 1, SchemaKind::BadType),
    ("x opt<u8,u8>", 1, SchemaKind::BadType),
    ("x opt<>", 1, SchemaKind::BadType),
];

fn fault(line: u64, kind: SchemaKind) -> SchemaError {
    SchemaError::Fault(SchemaFault { line, kind })
}

/// The first piece, so many of the second, the third, so many of the fourth, and the fifth.
fn repeated(alloc: Global, count: usize, pieces: [&str; 5]) -> Result<Vec<u8>, AllocError> {
    let mut text = Vec::new(alloc);
    text.extend_from_slice(pieces[0].as_bytes())?;
    for _ in 0..count {
        text.extend_from_slice(pieces[1].as_bytes())?;
    }
    text.extend_from_slice(pieces[2].as_bytes())?;
    for _ in 0..count {
        text.extend_from_slice(pieces[3].as_bytes())?;
    }
    text.extend_from_slice(pieces[4].as_bytes())?;
    Ok(text)
}

/// Whether these texts have their first faults.
fn first_fault(alloc: Global) -> bool {
    for (text, line, kind) in FAULTS {
        if parse_schema(alloc, text.as_bytes()).err() != Some(fault(line, kind)) {
            return false;
        }
    }
    true
}

const SCHEMA: &[u8] =
    b"\na_1 \t rec{x:i16,y:vec<string>}\t \r\n\t\r\n_b var<bool,tuple<char,byte>>\no opt<tuple<u8,opt<i64>>>";

fn is_first(shape: &Shape) -> bool {
    let Shape::Rec(members) = shape else {
        return false;
    };
    match members.as_slice() {
        [x, y] => {
            x.name.as_slice() == b"x".as_slice()
                && y.name.as_slice() == b"y".as_slice()
                && matches!(
                    &x.of,
                    Shape::Int {
                        bits: 16,
                        signed: true,
                    }
                )
                && is_list_of_text(&y.of)
        }
        _ => false,
    }
}

fn is_list_of_text(shape: &Shape) -> bool {
    match shape {
        Shape::List(of) => matches!(&**of, Shape::Text),
        _ => false,
    }
}

fn is_second(shape: &Shape) -> bool {
    let Shape::Choice(shapes) = shape else {
        return false;
    };
    match shapes.as_slice() {
        [Shape::Bool, Shape::Tuple(parts)] => matches!(
            parts.as_slice(),
            [Shape::Char, Shape::Byte]
        ),
        _ => false,
    }
}

fn is_third(shape: &Shape) -> bool {
    let Shape::Maybe(of) = shape else {
        return false;
    };
    let Shape::Tuple(parts) = &**of else {
        return false;
    };
    match parts.as_slice() {
        [
            Shape::Int {
                bits: 8,
                signed: false,
            },
            Shape::Maybe(of),
        ] => matches!(
            &**of,
            Shape::Int {
                bits: 64,
                signed: true,
            }
        ),
        _ => false,
    }
}

/// Whether the fields of a text come in its order.
fn fields_in_order(alloc: Global) -> bool {
    let Ok(fields) = parse_schema(alloc, SCHEMA) else {
        return false;
    };
    match fields.into_vec().as_slice() {
        [first, second, third] => {
            first.name.as_slice() == b"a_1".as_slice()
                && is_first(&first.of)
                && second.name.as_slice() == b"_b".as_slice()
                && is_second(&second.of)
                && is_third(&third.of)
        }
        _ => false,
    }
}

/// Lines that are no field, and their faults.
const NO_MEMBERS: [(&str, SchemaKind); 5] = [
    ("", SchemaKind::BadName),
    (" \t\r", SchemaKind::BadName),
    ("x\nu8", SchemaKind::BadName),
    ("2n u32", SchemaKind::BadName),
    ("n u32,", SchemaKind::BadType),
];

/// Whether a line is one field, and others are none.
fn one_member(alloc: Global) -> bool {
    let Ok(member) = parse_member(alloc, b"n_2\tu32 ") else {
        return false;
    };
    for (line, kind) in NO_MEMBERS {
        if parse_member(alloc, line.as_bytes()).err() != Some(fault(0, kind)) {
            return false;
        }
    }
    let is_number = matches!(
        member.of,
        Shape::Int {
            bits: 32,
            signed: false
        }
    );
    is_number && member.name.as_slice() == b"n_2".as_slice()
}

/// How often pieces of a text stand, the pieces, and the line and kind of its fault.
const LIMITS: [(usize, [&str; 5], Option<(u64, SchemaKind)>); 19] = [
    (31, ["x ", "vec<", "u8", ">", ""], None),
    (
        32,
        ["x ", "vec<", "u8", ">", ""],
        Some((1, SchemaKind::TooDeep)),
    ),
    (
        100000,
        ["x ", "vec<", "u8", ">", ""],
        Some((1, SchemaKind::TooDeep)),
    ),
    (
        100000,
        ["x ", "vec<", "u9", ">", ""],
        Some((1, SchemaKind::BadType)),
    ),
    (
        100000,
        ["x ", "rec{a:", "u8", "}", ""],
        Some((1, SchemaKind::TooDeep)),
    ),
    (15, ["x ", "opt<vec<", "opt<u8>", ">>", ""], None),
    (
        100000,
        ["x ", "opt<vec<", "u8", ">>", ""],
        Some((1, SchemaKind::TooDeep)),
    ),
    (
        100000,
        ["x ", "opt<", "u8", ">", ""],
        Some((1, SchemaKind::BadType)),
    ),
    (
        100000,
        ["x ", "vec<", "opt<var<u8>>", ">", ""],
        Some((1, SchemaKind::BadType)),
    ),
    (1, ["x opt<vec<opt<string>>>", "", "", "", ""], None),
    (99, ["x var<", "u8,", "u8>", "", ""], None),
    (
        100,
        ["x var<", "u8,", "u8>", "", ""],
        Some((1, SchemaKind::BadType)),
    ),
    (255, ["", "a", " u8", "", ""], None),
    (
        256,
        ["", "a", " u8", "", ""],
        Some((1, SchemaKind::BadName)),
    ),
    (4094, ["x tuple<", "u8,", "u8>", "", ""], None),
    (
        4095,
        ["x tuple<", "u8,", "u8>", "", ""],
        Some((1, SchemaKind::TooMany)),
    ),
    (
        4094,
        ["x tuple<", "u8,", "u8>", "", "\ny u8"],
        Some((2, SchemaKind::TooMany)),
    ),
    (
        1 << 20,
        ["", "\n", "", "", ""],
        Some((0, SchemaKind::Empty)),
    ),
    (
        1 << 20,
        ["x", "\n", "", "", ""],
        Some((0, SchemaKind::TooLong)),
    ),
];

/// Whether limits are kept.
fn limits(alloc: Global) -> Result<bool, AllocError> {
    for (count, pieces, expected) in LIMITS {
        let text = repeated(alloc, count, pieces)?;
        let found = parse_schema(alloc, text.as_slice()).err();
        let is_so = match expected {
            Some((line, kind)) => found == Some(fault(line, kind)),
            None => found.is_none(),
        };
        if !is_so {
            return Ok(false);
        }
    }
    Ok(true)
}

#[test]
fn schemas(rt: HostRuntime) {
    let alloc = rt.alloc();
    for (holds, name) in [
        (Ok(first_fault(alloc)), "first fault"),
        (Ok(fields_in_order(alloc)), "fields in order"),
        (Ok(one_member(alloc)), "one member"),
        (limits(alloc), "limits"),
    ] {
        assert!(rt; holds == Ok(true), "{name}");
    }
}
