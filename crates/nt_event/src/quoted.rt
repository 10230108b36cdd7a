//! Strings as they stand in JSON.

ghost use Rattle.std.specs.Prelude.{◌≡◌, ◌++◌, ◌+◌, ◌≤◌, length, take, IfOk, IfSome, IsTrue, OnOk};
ghost use Rattle.std.specs.List.{slice_range};
ghost use Rattle.std.specs.Char.{encode_utf8};
ghost use Rattle.hex.specs.Hex.{IsBytes};
ghost use Rattle.json.specs.Json as json;
ghost use Rattle.nt_event.specs.Plain.{AllPlain, Plain, EndsString};
ghost use Rattle.nt_event.specs.Standing.{ValueStands};

use crate::escapes::escape;
use crate::marks::after;
use std::alloc::{AllocError, Global};
use std::simd::prelude::*;

/// Each item of a slice of bytes is one.
fn are_bytes(bytes: &[u8])
    ensures { IsBytes bytes.now }
{}

fn is_plain(byte: u8) -> bool
    ensures { IsTrue result → Plain byte }
{
    byte >= 32 && byte != b'"' && byte != b'\\'
}

/// How many of eight bytes stand for themselves before the first that doesn't.
#[inline(always)]
fn plain_of(bytes: u8x8) -> usize
    ensures few { result ≤ 8 }
    ensures plain { AllPlain (take result bytes) }
{
    let stops = (bytes.simd_eq(u8x8::splat(b'"'))
        | bytes.simd_eq(u8x8::splat(b'\\'))
        | bytes.simd_lt(u8x8::splat(32))).to_bitmask();
    if stops == 0 {
        8
    } else {
        stops.trailing_zeros() as usize
    }
}

/// The end of bytes that stand for themselves, behind those that are known.
fn plain_last(text: &[u8], at: usize, from: usize) -> usize
    requires order { (at ≤ from) × (from ≤ length text.now) }
    requires known { AllPlain (slice_range text.now at from) }
    ensures low { at ≤ result }
    ensures high { result ≤ length text.now }
    ensures plain { AllPlain (slice_range text.now at result) }
{
    let mut i = from;
    while i < text.len() && is_plain(text[i]) {
        i += 1;
    }
    i
}

/// The end of bytes that stand for themselves.
pub(crate) fn plain_end(text: &[u8], at: usize) -> usize
    requires { at ≤ length text.now }
    ensures low { at ≤ result }
    ensures high { result ≤ length text.now }
    ensures plain { AllPlain (slice_range text.now at result) }
{
    let mut i = at;
    while text.len() - i >= 8 {
        let count = plain_of(u8x8::from_slice(&text[i..]));
        i += count;
        if count < 8 {
            return i;
        }
    }
    plain_last(text, at, i)
}

/// Appends the bytes of a character.
fn put_char(c: char, bytes: &mut Vec<u8>) -> Result<(), AllocError>
    ensures { OnOk result (bytes.new.items ≡ bytes.old.items ++ encode_utf8 c) }
{
    let mut buffer = [0; 4];
    bytes.extend_from_slice(c.encode_utf8(&mut buffer).as_bytes())
}

/// The inside of a string that has escapes, and the place behind its closing quote.
fn escaped(alloc: Global, text: &[u8], at: usize) -> Result<Option<(Vec<u8>, usize)>, AllocError>
    requires { at ≤ length text.now }
    ensures { IfOk result (λ found. IfSome found (λ r. EndsString r.0.items text.now at r.1)) }
{
    let mut bytes = Vec::new(alloc);
    let mut i = at;
    while i < text.len() {
        let stop = plain_end(text, i);
        bytes.extend_from_slice(&text[i..stop])?;
        if let Some(end) = after(text, stop, b'"') {
            return Ok(Some((bytes, end)));
        }
        let Some(next) = after(text, stop, b'\\') else {
            return Ok(None);
        };
        let Some((c, end)) = escape(text, next) else {
            return Ok(None);
        };
        put_char(c, &mut bytes)?;
        i = end;
    }
    Ok(None)
}

/// The inside of a string, and the place behind its closing quote.
pub(crate) fn inside(
    alloc: Global,
    text: &[u8],
    at: usize,
) -> Result<Option<(Vec<u8>, usize)>, AllocError>
    requires { at ≤ length text.now }
    ensures { IfOk result (λ found. IfSome found (λ r. EndsString r.0.items text.now at r.1)) }
{
    let last = plain_end(text, at);
    match after(text, last, b'"') {
        Some(end) => Ok(Some((Vec::from_slice(alloc, &text[at..last])?, end))),
        None => escaped(alloc, text, at),
    }
}

/// A string.
pub(crate) fn string(
    alloc: Global,
    text: &[u8],
    at: usize,
) -> Result<Option<(Vec<u8>, usize)>, AllocError>
    requires { at ≤ length text.now }
    ensures stands { IfOk result (λ found. IfSome found
        (λ r. ValueStands (json.string r.0.items) text.now at r.1)) }
    ensures bytes { IfOk result (λ found. IfSome found (λ r. IsBytes r.0.items)) }
{
    let Some(first) = after(text, at, b'"') else {
        return Ok(None);
    };
    let Some((bytes, end)) = inside(alloc, text, first)? else {
        return Ok(None);
    };
    are_bytes(bytes.as_slice());
    Ok(Some((bytes, end)))
}

/// The bytes of a string without escapes, as they stand there.
pub fn plain_string(text: &[u8], at: usize) -> Option<(&[u8], usize)>
    requires { at ≤ length text.now }
    ensures stands { IfSome result (λ r. ValueStands (json.string r.0.now) text.now at r.1) }
    ensures bytes { IfSome result (λ r. IsBytes r.0.now) }
    ensures short { IfSome result (λ r. at + length r.0.now + 2 ≤ r.1) }
{
    let first = after(text, at, b'"')?;
    let last = plain_end(text, first);
    let end = after(text, last, b'"')?;
    let bytes = &text[first..last];
    are_bytes(bytes);
    Some((bytes, end))
}
