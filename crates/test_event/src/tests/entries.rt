//! Lines, with what is printed for their entry, or their fault.

use TextKind::{Count, Misfit, NotArray, NotJson};
use nt_event::{TextError, TextKind, read_line, write_line};
use nt_types::parse_schema;
use std::alloc::{AllocError, Global};

/// A schema text, lines, and the lines that are printed for their entries.
const READ: [(&str, &str, &str); 34] = [
    ("x u64", "[1]", "[1]"),
    ("x u64", " [ 1 ] \r", "[1]"),
    ("x u64", "[18446744073709551615]", "[18446744073709551615]"),
    ("x i64", "[-9223372036854775808]", "[-9223372036854775808]"),
    ("x i64", "[9223372036854775807]", "[9223372036854775807]"),
    ("x i8", "[-128]", "[-128]"),
    ("c char", "[255]", "[255]"),
    ("b byte", "[0]", "[0]"),
    ("a u8\nb bool", "[1,true]", "[1,true]"),
    ("a u8\nb bool", "[1, false]", "[1,false]"),
    ("t string", r#"[""]"#, r#"[""]"#),
    ("t string", r#"[{"hex":"FF00"}]"#, r#"[{"hex":"ff00"}]"#),
    ("t string", r#"[{"hex":"6869"}]"#, r#"["hi"]"#),
    ("t string", r#"[{"\u0068ex":"41"}]"#, r#"["A"]"#),
    ("t string", r#"[{"hex":"41","hex":"42"}]"#, r#"["B"]"#),
    (
        "t string",
        r#"["\"\\\/\b\f\n\r\t"]"#,
        r#"["\"\\/\b\f\n\r\t"]"#,
    ),
    (
        "t string",
        r#"["\u0000\u001F\u007f"]"#,
        "[\"\\u0000\\u001f\u{7f}\"]",
    ),
    ("t string", r#"["\u00e9\u20AC\ud83d\ude00"]"#, "[\"é€😀\"]"),
    ("t string", "[\"é€😀\"]", "[\"é€😀\"]"),
    ("w vec<string>", r#"[["",""]]"#, r#"[["",""]]"#),
    ("w vec<string>", "[[]]", "[[]]"),
    ("w vec<i16>", "[[1,\t-2 ,3]]", "[[1,-2,3]]"),
    ("v var<u8,string>", "[null]", "[null]"),
    ("v var<u8,string>", r#"[[2,"a"]]"#, r#"[[2,"a"]]"#),
    ("v var<u8,string>", "[[1,7]]", "[[1,7]]"),
    ("v var<u8,string>", "[ [ 1 , 7 ] ]", "[[1,7]]"),
    ("r rec{a:u8,b:vec<i8>}", "[[1,[-1,2]]]", "[[1,[-1,2]]]"),
    ("r rec{a:u8,b:vec<i8>}", "[[1, [-1, 2]]]", "[[1,[-1,2]]]"),
    ("p tuple<bool,u16>", "[[true,65535]]", "[[true,65535]]"),
    ("x u64\nw vec<u8>", "[1, [2,\t3]] \t\r", "[1,[2,3]]"),
    (
        "w vec<string>",
        r#"[["a\"b", "\\", "é\/€\n😀", "\ud83d\ude00x"]]"#,
        r#"[["a\"b","\\","é/€\n😀","😀x"]]"#,
    ),
    (
        "t string",
        r#"["\uD7FF\uE000\u0000"]"#,
        "[\"\u{d7ff}\u{e000}\\u0000\"]",
    ),
    (
        "x i64",
        "[-9223372036854775808]\r",
        "[-9223372036854775808]",
    ),
    ("x u64", "[10000000000000000000]", "[10000000000000000000]"),
];

/// The same of optionals.
const OPTIONAL: [(&str, &str, &str); 7] = [
    ("o opt<u16>", "[null]", "[null]"),
    ("o opt<u16>", "[7]", "[7]"),
    ("o opt<u16>", "[ null ]", "[null]"),
    ("o opt<u16>", "[ 7 ]", "[7]"),
    (
        "o opt<vec<opt<string>>>",
        r#"[[null,"a"]]"#,
        r#"[[null,"a"]]"#,
    ),
    ("o opt<tuple<u8,opt<i64>>>", "[[1, null]]", "[[1,null]]"),
    ("o opt<tuple<u8,opt<i64>>>", "[ null ]", "[null]"),
];

/// A schema text, lines, and their fault.
const REFUSED: [(&str, &[u8], TextKind); 52] = [
    ("x u64", b"", NotJson),
    ("x u64", b"[", NotJson),
    ("x u64", b"[01]", NotJson),
    ("x i64", b"[-01]", NotJson),
    ("x u64", b"[1]]", NotJson),
    ("x u64", b"[1e999]", NotJson),
    ("x u64", b"\xef\xbb\xbf[1]", NotJson),
    ("t string", b"[\"\xff\"]", NotJson),
    ("t string", b"[\"\x01\"]", NotJson),
    ("t string", b"[\"\\ud800\"]", NotJson),
    ("t string", b"[\"\\udc00\"]", NotJson),
    ("t string", b"[\"\\ud800\\ud800\"]", NotJson),
    ("t string", b"[\"\\ud800\\u0041\"]", NotJson),
    ("t string", b"[\"\\u00g0\"]", NotJson),
    ("t string", b"[\"\\u00", NotJson),
    ("t string", b"[\"\\x\"]", NotJson),
    ("x u64", b"[1] x", NotJson),
    ("x u64", b"[1, ]", NotJson),
    ("t string", b"[\"a\x00\"]", NotJson),
    ("x u64", b"{}", NotArray),
    ("x u64", b"null", NotArray),
    ("x u64", b"[]", Count),
    ("x u64", b"[1,2]", Count),
    ("x u64", b"[1.0,2]", Count),
    ("x u64", b"[1.0]", Misfit),
    ("x u64", b"[1e3]", Misfit),
    ("x i64", b"[-0]", Misfit),
    ("x u64", b"[-1]", Misfit),
    ("x u64", b"[18446744073709551616]", Misfit),
    ("x i64", b"[9223372036854775808]", Misfit),
    ("x i64", b"[-9223372036854775809]", Misfit),
    ("x u8", b"[256]", Misfit),
    ("x i8", b"[-129]", Misfit),
    ("c char", b"[-1]", Misfit),
    ("x u8", b"[true]", Misfit),
    ("t string", b"[{\"hex\":\"f\"}]", Misfit),
    ("t string", b"[{\"Hex\":\"41\"}]", Misfit),
    ("t string", b"[{\"hex\":\"41\",\"of\":1}]", Misfit),
    ("v var<u8,string>", b"[[0,1]]", Misfit),
    ("v var<u8,string>", b"[[3,1]]", Misfit),
    ("v var<u8,string>", b"[[1]]", Misfit),
    ("v var<u8,string>", b"[[1,2,3]]", Misfit),
    ("v var<u8,string>", b"[[4294967297,2]]", Misfit),
    ("r rec{a:u8,b:u8}", b"[[1]]", Misfit),
    ("r rec{a:u8,b:u8}", b"[{\"a\":1,\"b\":2}]", Misfit),
    ("p tuple<bool,u16>", b"[[1,true]]", Misfit),
    ("o opt<u16>", b"[nul]", NotJson),
    ("o opt<u16>", b"[]", Count),
    ("o opt<u16>", b"[\"x\"]", Misfit),
    ("o opt<u16>", b"[[7]]", Misfit),
    ("o opt<u16>", b"[70000]", Misfit),
    ("o opt<tuple<u8,opt<i64>>>", b"[[null,1]]", Misfit),
];

/// What is printed for the entry of a line.
fn printed(alloc: Global, schema: &str, line: &[u8]) -> Result<Vec<u8>, TextError> {
    let Ok(fields) = parse_schema(alloc, schema.as_bytes()) else {
        return Err(TextError::Memory);
    };
    let trees = read_line(alloc, line, &fields)?;
    let mut out = Vec::new(alloc);
    match write_line(alloc, &trees, &mut out) {
        Ok(()) => Ok(out),
        Err(AllocError) => Err(TextError::Memory),
    }
}

/// Whether a text is this line and its LF.
fn is_line(text: &[u8], line: &str) -> bool {
    match text.split_last() {
        Some((last, front)) => *last == b'\n' && front == line.as_bytes(),
        None => false,
    }
}

/// Whether a line has this fault.
fn has_fault(alloc: Global, schema: &str, line: &[u8], kind: TextKind) -> bool {
    printed(alloc, schema, line).err() == Some(TextError::Kind(kind))
}

/// Whether a line has the entry that is printed so.
fn has_entry(alloc: Global, schema: &str, line: &str, expected: &str) -> bool {
    match printed(alloc, schema, line.as_bytes()) {
        Ok(text) => is_line(text.as_slice(), expected),
        Err(_) => false,
    }
}

/// Whether lines have these entries.
fn lines_have_entries(alloc: Global) -> bool {
    for (schema, line, expected) in READ {
        if !has_entry(alloc, schema, line, expected) {
            return false;
        }
    }
    for (schema, line, expected) in OPTIONAL {
        if !has_entry(alloc, schema, line, expected) {
            return false;
        }
    }
    true
}

/// Whether lines have these faults.
fn lines_have_faults(alloc: Global) -> bool {
    for (schema, line, kind) in REFUSED {
        if !has_fault(alloc, schema, line, kind) {
            return false;
        }
    }
    true
}

/// Whether arrays nest no deeper than JSON is read.
fn arrays_nest_so_deep(alloc: Global) -> Result<bool, AllocError> {
    for (depth, kind) in [(127, Misfit), (128, NotJson)] {
        let mut line = vec![in alloc; b'['; depth]?;
        line.extend_from_slice(vec![in alloc; b']'; depth]?.as_slice())?;
        if !has_fault(alloc, "x u64", line.as_slice(), kind) {
            return Ok(false);
        }
    }
    Ok(true)
}

/// Whether a line has at most 2^24 bytes.
fn a_line_has_so_many_bytes(alloc: Global) -> Result<bool, AllocError> {
    let mut line = vec![in alloc; b' '; (1 << 24) - 3]?;
    line.extend_from_slice(b"[1]")?;
    if printed(alloc, "x u64", line.as_slice()).is_err() {
        return Ok(false);
    }
    line.push(b' ')?;
    Ok(has_fault(alloc, "x u64", line.as_slice(), TextKind::TooLong))
}

#[test]
fn entries(rt: HostRuntime) {
    let alloc = rt.alloc();
    for (holds, name) in [
        (Ok(lines_have_entries(alloc)), "lines have entries"),
        (Ok(lines_have_faults(alloc)), "lines have faults"),
        (arrays_nest_so_deep(alloc), "arrays nest so deep"),
        (a_line_has_so_many_bytes(alloc), "a line has so many bytes"),
    ] {
        assert!(rt; holds == Ok(true), "{name}");
    }
}
