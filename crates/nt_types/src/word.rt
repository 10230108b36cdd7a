//! The bytes and words of a schema text.

ghost use Rattle.std.specs.Prelude.{◌≡◌, option_map};
ghost use Rattle.std.specs.List.{list_all};
ghost use Rattle.nt_types.specs.Words.{is_word_byte, is_blank, is_space, is_name, leaf, number, int_of, width};
ghost use Rattle.nt_types.specs.Views.{shape_view};

use crate::shape::Shape;

/// A byte of names and of the words of types.
pub(crate) fn is_word_byte(byte: u8) -> bool
    ensures { result ≡ is_word_byte byte }
{
    matches!(byte, b'a'..=b'z' | b'A'..=b'Z' | b'0'..=b'9' | b'_')
}

/// What parts a name from its type.
pub(crate) fn is_blank(byte: u8) -> bool
    ensures { result ≡ is_blank byte }
{
    byte == b' ' || byte == b'\t'
}

/// What may stand behind a type.
pub(crate) fn is_space(byte: u8) -> bool
    ensures { result ≡ is_space byte }
{
    byte == b' ' || byte == b'\t' || byte == b'\r'
}

/// Whether a word is a name.
pub(crate) fn is_name(word: &[u8]) -> bool
    ensures { result ≡ is_name word.now }
{
    match word {
        [] => false,
        [first, ..] => !matches!(*first, b'0'..=b'9') && word.len() <= 255 && all_word_bytes(word),
    }
}

fn all_word_bytes(word: &[u8]) -> bool
    ensures { result ≡ list_all is_word_byte word.now }
{
    word.iter().all(|byte| is_word_byte(*byte))
}

/// The shape of a type that has no parts.
pub(crate) fn leaf(word: &[u8]) -> Option<Shape>
    ensures { option_map shape_view result ≡ leaf word.now }
{
    if word == b"bool".as_slice() {
        Some(Shape::Bool)
    } else if word == b"char".as_slice() {
        Some(Shape::Char)
    } else if word == b"byte".as_slice() {
        Some(Shape::Byte)
    } else if word == b"string".as_slice() {
        Some(Shape::Text)
    } else {
        number(word)
    }
}

fn number(word: &[u8]) -> Option<Shape>
    ensures { option_map shape_view result ≡ number word.now }
{
    match word {
        [b'i', digits @ ..] => int(digits, true),
        [b'u', digits @ ..] => int(digits, false),
        _ => None,
    }
}

fn int(digits: &[u8], signed: bool) -> Option<Shape>
    ensures { option_map shape_view result ≡ int_of digits.now signed }
{
    width(digits).map(|bits| Shape::Int { bits, signed })
}

/// How many bits these digits stand for.
fn width(digits: &[u8]) -> Option<u8>
    ensures { result ≡ width digits.now }
{
    if digits == b"8".as_slice() {
        Some(8)
    } else if digits == b"16".as_slice() {
        Some(16)
    } else if digits == b"32".as_slice() {
        Some(32)
    } else if digits == b"64".as_slice() {
        Some(64)
    } else {
        None
    }
}
