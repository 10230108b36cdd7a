//! The marks, blanks and words of a line.

ghost use Rattle.std.specs.Prelude.{◌≡◌, ◌⊎◌, ◌∷◌, [], ◌≤◌, length, true, false, IfSome, IsTrue};
ghost use Rattle.serde_json.specs.Written.{compact_text};
ghost use Rattle.nt_types.specs.TreeData.{flag};
ghost use Rattle.nt_event.specs.Json.{data_of};
ghost use Rattle.nt_event.specs.Standing.{StandsFrom, BlanksStand, CommaStands, MayStand};

/// Passes a byte.
pub fn after(text: &[u8], at: usize, byte: u8) -> Option<usize>
    ensures { IfSome result (λ end. StandsFrom (byte ∷ []) text.now at end) }
{
    if at < text.len() && text[at] == byte {
        Some(at + 1)
    } else {
        None
    }
}

fn is_blank(byte: u8) -> bool
    ensures { IsTrue result → (byte ≡ 32) ⊎ ((byte ≡ 9) ⊎ (byte ≡ 13)) }
{
    byte == b' ' || byte == b'\t' || byte == b'\r'
}

/// Passes blanks.
pub fn after_blanks(text: &[u8], at: usize) -> usize
    requires { at ≤ length text.now }
    ensures { BlanksStand text.now at result }
{
    let mut i = at;
    while i < text.len() && is_blank(text[i]) {
        i += 1;
    }
    i
}

/// Passes a comma and the blanks behind it.
pub fn comma(text: &[u8], at: usize) -> Option<usize>
    ensures { IfSome result (λ end. CommaStands text.now at end) }
{
    let next = after(text, at, b',')?;
    Some(after_blanks(text, next))
}

/// Passes a comma and the blanks behind it, where something stands before.
pub fn comma_if(text: &[u8], at: usize, later: bool) -> Option<usize>
    ensures { IfSome result (λ end. MayStand later text.now at end) }
{
    if later { comma(text, at) } else { Some(at) }
}

/// Passes `null`.
pub fn null(text: &[u8], at: usize) -> Option<usize>
    ensures { IfSome result (λ end. StandsFrom (110 ∷ 117 ∷ 108 ∷ 108 ∷ []) text.now at end) }
{
    let second = after(text, at, b'n')?;
    let third = after(text, second, b'u')?;
    let fourth = after(text, third, b'l')?;
    after(text, fourth, b'l')
}

/// Passes `true`.
fn yes(text: &[u8], at: usize) -> Option<usize>
    ensures { IfSome result (λ end. StandsFrom (116 ∷ 114 ∷ 117 ∷ 101 ∷ []) text.now at end) }
{
    let second = after(text, at, b't')?;
    let third = after(text, second, b'r')?;
    let fourth = after(text, third, b'u')?;
    after(text, fourth, b'e')
}

/// Passes `false`.
fn no(text: &[u8], at: usize) -> Option<usize>
    ensures { IfSome result (λ end. StandsFrom (102 ∷ 97 ∷ 108 ∷ 115 ∷ 101 ∷ []) text.now at end) }
{
    let second = after(text, at, b'f')?;
    let third = after(text, second, b'a')?;
    let fourth = after(text, third, b'l')?;
    let fifth = after(text, fourth, b's')?;
    after(text, fifth, b'e')
}

/// Passes `true` or `false`.
pub fn truth(text: &[u8], at: usize) -> Option<(bool, usize)>
    ensures { IfSome result (λ r. StandsFrom (compact_text (data_of (flag r.0))) text.now at r.1) }
{
    if let Some(end) = yes(text, at) {
        return Some((true, end));
    }
    let end = no(text, at)?;
    Some((false, end))
}
