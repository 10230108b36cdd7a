//! Integers in their compact form.

ghost use Rattle.std.specs.Prelude.{◌≡◌, ◌≢◌, ◌∷◌, [], ◌≤◌, ◌<◌, ◌+◌, ◌-◌, ◌*◌, ◌^◌, length, decimal, true, false, IfSome, IsTrue, pos, if◌then◌else◌};
ghost use Rattle.std.specs.Char.{digit_value, is_ascii_digit};
ghost use Rattle.serde_json.specs.Written.{compact_text};
ghost use Rattle.nt_types.specs.TreeData.{num};
ghost use Rattle.nt_types.specs.Fits.{is_int};
ghost use Rattle.nt_event.specs.Json.{data_of, InWord};
ghost use Rattle.nt_event.specs.Standing.{StandsFrom, CommaStands};
ghost use Rattle.nt_digits.specs.Digits.{DigitsStand};

use crate::marks::after;
use nt_digits::{digits_behind, digits_behind_eight, has_no_zeros, up_to_eight};

/// A number of 64 bits and one digit more, where 64 bits hold it.
fn then_digit(n: u64, byte: u8) -> Option<u64>
    ensures { IfSome result (λ m. (m ≡ n * 10 + digit_value byte) × (m < 2 ^ 64) ×
        (is_ascii_digit byte ≡ true)) }
{
    if !byte.is_ascii_digit() {
        return None;
    }
    n.checked_mul(10)?.checked_add(u64::from(byte - b'0'))
}

/// The number whose first digits are known, at most 19 and all of those if fewer.
fn ended(text: &[u8], at: usize, end: usize, n: u64) -> Option<(u64, usize)>
    requires { DigitsStand text.now at end n }
    ensures { IfSome result (λ r. StandsFrom (decimal r.0) text.now at r.1) }
{
    if end == at || !has_no_zeros(text, at, end) {
        return None;
    }
    if end - at < 19 || end == text.len() || !text[end].is_ascii_digit() {
        return Some((n, end));
    }
    let all = then_digit(n, text[end])?;
    Some((all, end + 1))
}

/// The number whose first digits are known, or nothing, which ends where it begins. So it is given in registers.
fn ended_or_none(text: &[u8], at: usize, end: usize, n: u64) -> (u64, usize)
    requires { DigitsStand text.now at end n }
    ensures { result.1 ≢ at → StandsFrom (decimal result.0) text.now at result.1 }
{
    match ended(text, at, end, n) {
        Some(found) => found,
        None => (0, at),
    }
}

/// The number that stands near the end of a text, or nothing, which ends where it begins.
#[inline(never)]
fn last_number(text: &[u8], at: usize) -> (u64, usize)
    requires { at ≤ length text.now }
    ensures { result.1 ≢ at → StandsFrom (decimal result.0) text.now at result.1 }
{
    let (n, end) = digits_behind(text, at, at, 0);
    ended_or_none(text, at, end, n)
}

/// The number whose first eight digits are known, or nothing, which ends where it begins.
#[inline(never)]
fn long_number(text: &[u8], at: usize, first: u64) -> (u64, usize)
    requires { DigitsStand text.now at (at + 8) first }
    ensures { result.1 ≢ at → StandsFrom (decimal result.0) text.now at result.1 }
{
    let (n, end) = digits_behind_eight(text, at, first);
    ended_or_none(text, at, end, n)
}

/// What was found, where it doesn't end where it begins.
#[inline(always)]
fn some_found(text: &[u8], at: usize, found: (u64, usize)) -> Option<(u64, usize)>
    requires { found.1 ≢ at → StandsFrom (decimal found.0) text.now at found.1 }
    ensures { IfSome result (λ r. StandsFrom (decimal r.0) text.now at r.1) }
{
    if found.1 == at {
        return None;
    }
    Some(found)
}

/// A number of fewer than eight digits.
#[inline(always)]
fn short_number(text: &[u8], at: usize) -> Option<(u64, usize)>
    requires { at + 8 ≤ length text.now }
    ensures { IfSome result (λ r. StandsFrom (decimal r.0) text.now at r.1) }
{
    let (n, few) = up_to_eight(text, at);
    if few == 8 || few == 0 || !has_no_zeros(text, at, at + few) {
        return None;
    }
    Some((n, at + few))
}

/// A number of 64 bits, as it is printed. Mostly it has fewer than eight digits, and then no call is made.
#[inline(always)]
pub fn number(text: &[u8], at: usize) -> Option<(u64, usize)>
    requires { at ≤ length text.now }
    ensures { IfSome result (λ r. StandsFrom (decimal r.0) text.now at r.1) }
{
    if text.len() - at < 8 {
        return some_found(text, at, last_number(text, at));
    }
    let (n, few) = up_to_eight(text, at);
    if few == 8 {
        return some_found(text, at, long_number(text, at, n));
    }
    if few == 0 || !has_no_zeros(text, at, at + few) {
        return None;
    }
    Some((n, at + few))
}

/// The largest integer of a width.
fn most(bits: u8, signed: bool) -> Option<u64>
    ensures { IfSome result (λ n. (n + 1 ≡ 2 ^ (if signed then bits - 1 else bits)) × (1 ≤ bits) ×
        (bits ≤ 64)) }
{
    match (bits, signed) {
        (8, false) => Some(0xff),
        (8, true) => Some(0x7f),
        (16, false) => Some(0xffff),
        (16, true) => Some(0x7fff),
        (32, false) => Some(0xffff_ffff),
        (32, true) => Some(0x7fff_ffff),
        (64, false) => Some(0xffff_ffff_ffff_ffff),
        (64, true) => Some(0x7fff_ffff_ffff_ffff),
        _ => None,
    }
}

/// An integer of a width without a sign, as it is printed.
#[inline(always)]
pub fn unsigned_integer(text: &[u8], at: usize, bits: u8) -> Option<(u64, usize)>
    requires { at ≤ length text.now }
    ensures spells { IfSome result
        (λ r. StandsFrom (compact_text (data_of (num (pos r.0)))) text.now at r.1) }
    ensures fits { IfSome result (λ r. is_int bits false (pos r.0) ≡ true) }
{
    let most = most(bits, false)?;
    let (n, end) = number(text, at)?;
    if n > most {
        return None;
    }
    Some((n, end))
}

/// Passes a comma.
#[inline(always)]
fn is_comma(text: &[u8], at: usize) -> bool
    requires { at < length text.now }
    ensures { IsTrue result → StandsFrom (44 ∷ []) text.now at (at + 1) }
{
    text[at] == b','
}

/// An integer of a width without a sign right behind a comma, of fewer than eight digits, which isn't near the end of the text.
/// Nearly every item of a list is one, and is found by one test of the text's length.
#[inline(always)]
pub fn quick_item(text: &[u8], at: usize, bits: u8) -> Option<(u64, usize)>
    requires { at ≤ length text.now }
    ensures comma { IfSome result (λ r. CommaStands text.now at (at + 1)) }
    ensures spells { IfSome result
        (λ r. StandsFrom (compact_text (data_of (num (pos r.0)))) text.now (at + 1) r.1) }
    ensures fits { IfSome result (λ r. is_int bits false (pos r.0) ≡ true) }
{
    if text.len() - at < 9 || !is_comma(text, at) {
        return None;
    }
    let most = most(bits, false)?;
    let (n, end) = short_number(text, at + 1)?;
    if n > most {
        return None;
    }
    Some((n, end))
}

/// An integer of a width with a sign, as it is printed.
pub fn signed_integer(text: &[u8], at: usize, bits: u8) -> Option<(i64, usize)>
    requires { at ≤ length text.now }
    ensures spells { IfSome result
        (λ r. StandsFrom (compact_text (data_of (num r.0))) text.now at r.1) }
    ensures fits { IfSome result (λ r. is_int bits true r.0 ≡ true) }
    ensures range { IfSome result (λ r. InWord r.0) }
{
    let most = most(bits, true)?;
    match after(text, at, b'-') {
        None => {
            let (n, end) = number(text, at)?;
            if n > most {
                return None;
            }
            Some((n as i64, end))
        }
        Some(digits) => {
            let (n, end) = number(text, digits)?;
            if n == 0 || n - 1 > most {
                return None;
            }
            Some((-1 - (n - 1) as i64, end))
        }
    }
}

/// An integer of a width, as it is printed.
pub fn integer(text: &[u8], at: usize, bits: u8, signed: bool) -> Option<(i128, usize)>
    requires { at ≤ length text.now }
    ensures spells { IfSome result
        (λ r. StandsFrom (compact_text (data_of (num r.0))) text.now at r.1) }
    ensures fits { IfSome result (λ r. is_int bits signed r.0 ≡ true) }
    ensures range { IfSome result (λ r. InWord r.0) }
{
    if signed {
        let (n, end) = signed_integer(text, at, bits)?;
        Some((i128::from(n), end))
    } else {
        let (n, end) = unsigned_integer(text, at, bits)?;
        Some((i128::from(n), end))
    }
}
