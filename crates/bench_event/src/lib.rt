//! Event text as C functions, which the benchmark `bench/event.sh` calls. Of what they answer only a bound is proved; what they
//! call is proved in `nt_event`, and the benchmark compares the lines that come back.
#![tactic(auto)]

ghost use Rattle.std.specs.Prelude.{◌≤◌, length};

use memchr::memchr;
use nt_event::{read_line, write_line};
use nt_types::{Fields, Trees, parse_schema};
use std::alloc::{AllocError, Global};

/// How many lines of a text have entries.
fn count(alloc: Global, fields: &Fields, text: &[u8]) -> usize
    ensures { result ≤ length text.now }
{
    let mut at = 0;
    let mut count = 0;
    while let Some(len) = memchr(b'\n', &text[at..]) {
        if read_line(alloc, &text[at..at + len], fields).is_ok() {
            count += 1;
        }
        at += len + 1;
    }
    count
}

/// The entries of a text.
fn entries(alloc: Global, fields: &Fields, text: &[u8]) -> Result<Vec<Trees>, AllocError> {
    let mut list = Vec::new(alloc);
    let mut at = 0;
    while let Some(len) = memchr(b'\n', &text[at..]) {
        if let Ok(trees) = read_line(alloc, &text[at..at + len], fields) {
            list.push(trees)?;
        }
        at += len + 1;
    }
    Ok(list)
}

/// The lines of entries, in place of what was there.
fn print(alloc: Global, list: &[Trees], out: &mut Vec<u8>) -> Result<(), AllocError> {
    out.clear();
    for trees in list {
        write_line(alloc, trees, out)?;
    }
    Ok(())
}

/// The lines of the entries of a text, printed so many times.
fn print_again(
    alloc: Global,
    fields: &Fields,
    text: &[u8],
    times: u32,
) -> Result<Vec<u8>, AllocError> {
    let list = entries(alloc, fields, text)?;
    let mut out = Vec::new(alloc);
    for _ in 0..times {
        print(alloc, list.as_slice(), &mut out)?;
    }
    Ok(out)
}

/// Reads the lines of a text by the fields of a schema, so many times; how many entries there were.
#[unsafe(no_mangle)]
pub extern "C" fn nt_event_read(alloc: Global, schema: &[u8], text: &[u8], times: u32) -> usize
    ensures { result ≤ length text.now }
{
    let Ok(fields) = parse_schema(alloc, schema) else {
        return 0;
    };
    let mut found = 0;
    for _ in 0..times {
        found = count(alloc, &fields, text);
    }
    found
}

/// Reads the lines of a text once, and prints their entries so many times; how many bytes that was, which stand in `out`.
#[unsafe(no_mangle)]
pub extern "C" fn nt_event_write(
    alloc: Global,
    schema: &[u8],
    text: &[u8],
    times: u32,
    out: &mut [u8],
) -> usize
    ensures { result ≤ length out.new }
{
    let Ok(fields) = parse_schema(alloc, schema) else {
        return 0;
    };
    match print_again(alloc, &fields, text, times) {
        Ok(lines) if lines.len() <= out.len() => {
            out[..lines.len()].copy_from_slice(lines.as_slice());
            lines.len()
        }
        _ => 0,
    }
}
