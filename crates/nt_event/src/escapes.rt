//! What the escapes of a JSON string stand for.

ghost use Rattle.std.specs.Prelude.{◌≡◌, ◌+◌, ◌≤◌, ◌<◌, length, get_or, IfSome};
ghost use Rattle.std.specs.Char.{digit_value, encode_utf8};
ghost use Rattle.json.specs.Text.{code_unit, short_escape, after_backslash, after_u, after_high};
ghost use Rattle.json.specs.Lex.{in_string, in_escape};
ghost use Rattle.nt_event.specs.Plain.{EscapeStands};

/// The value of a hex digit, and 16 or more of another byte.
fn digit(byte: u8) -> u32
    ensures { result ≡ digit_value byte }
{
    match byte {
        b'0'..=b'9' => (byte - b'0') as u32,
        b'A'..=b'Z' => (byte - b'A') as u32 + 10,
        b'a'..=b'z' => (byte - b'a') as u32 + 10,
        _ => 36,
    }
}

/// The code unit of four hex digits.
fn unit(text: &[u8], at: usize) -> Option<u32>
    requires { at + 4 ≤ length text.now }
    ensures value { result ≡ code_unit (get_or text.now at 0) (get_or text.now (at + 1) 0)
        (get_or text.now (at + 2) 0) (get_or text.now (at + 3) 0) }
    ensures bound { IfSome result (λ n. n < 65536) }
{
    let (a, b, c, d) = (
        digit(text[at]),
        digit(text[at + 1]),
        digit(text[at + 2]),
        digit(text[at + 3]),
    );
    if (a < 16) & (b < 16) & (c < 16) & (d < 16) {
        Some(a * 4096 + b * 256 + c * 16 + d)
    } else {
        None
    }
}

/// The character of two surrogates, behind the first.
fn pair(text: &[u8], at: usize, high: u32) -> Option<(char, usize)>
    requires { (at ≤ length text.now) × (0xd800 ≤ high) × (high < 0xdc00) }
    ensures { IfSome result (λ r. EscapeStands (after_high high) in_string (encode_utf8 r.0)
        text.now at r.1) }
{
    if text.len() - at < 6 || !((text[at] == b'\\') & (text[at + 1] == b'u')) {
        return None;
    }
    let low = unit(text, at + 2)?;
    if !((0xdc00 <= low) & (low < 0xe000)) {
        return None;
    }
    let c = char::from_u32(0x10000 + (high - 0xd800) * 1024 + (low - 0xdc00))?;
    Some((c, at + 6))
}

/// The character of `\u` and its digits, behind the `u`.
fn unicode(text: &[u8], at: usize) -> Option<(char, usize)>
    requires { at ≤ length text.now }
    ensures { IfSome result (λ r. EscapeStands after_u in_string (encode_utf8 r.0) text.now at
        r.1) }
{
    if text.len() - at < 4 {
        return None;
    }
    let unit = unit(text, at)?;
    if (0xd800 <= unit) & (unit < 0xdc00) {
        return pair(text, at + 4, unit);
    }
    let c = char::from_u32(unit)?;
    Some((c, at + 4))
}

/// The byte that a backslash and this one stand for, but for `u`.
fn short(byte: u8) -> Option<u8>
    ensures value { result ≡ short_escape byte }
    ensures ascii { IfSome result (λ c. c < 128) }
{
    match byte {
        b'"' | b'\\' | b'/' => Some(byte),
        b'b' => Some(8),
        b'f' => Some(12),
        b'n' => Some(b'\n'),
        b'r' => Some(b'\r'),
        b't' => Some(b'\t'),
        _ => None,
    }
}

/// The character that an escape stands for, behind its backslash.
pub(crate) fn escape(text: &[u8], at: usize) -> Option<(char, usize)>
    requires { at ≤ length text.now }
    ensures { IfSome result (λ r. EscapeStands after_backslash in_escape (encode_utf8 r.0)
        text.now at r.1) }
{
    if at == text.len() {
        return None;
    }
    if text[at] == b'u' {
        return unicode(text, at + 1);
    }
    let c = short(text[at])?;
    Some((c as char, at + 1))
}
