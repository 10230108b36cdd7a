//! One line of a schema text: a name, blanks, a type, and spaces behind it.

ghost use Rattle.std.specs.Prelude.{◌≡◌, ◌≤◌, ◌+◌, length, reverse, option_map, max};
ghost use Rattle.std.specs.List.{prefix_len};
ghost use Rattle.nt_types.specs.Views.{shape_view};
ghost use Rattle.nt_types.specs.Words.{is_word_byte, is_blank, is_space};
ghost use Rattle.nt_types.specs.Lines.{most_open, type_of, is_blank_line, trimmed, begins_blank, type_text, split_line};
ghost use Rattle.nt_lists.specs.Answering.{Answers};
ghost use Rattle.nt_types.specs.FaultViews.{line_fault};

use crate::fault::{LineError, SchemaKind};
use crate::shape::Shape;
use crate::type_text::read_type;
use crate::word::{is_blank, is_name, is_space, is_word_byte};
use std::alloc::Global;

/// How deep a type may nest, with a leaf counted as 1.
const MAX_DEPTH: usize = 32;

/// The most constructs that are open at a place.
fn most_open(text: &[u8]) -> usize
    ensures value { result ≡ most_open 0 0 text.now }
    ensures small { result ≤ length text.now }
{
    let mut now = 0usize;
    let mut most = 0usize;
    for byte in text {
        match *byte {
            b'<' | b'{' => {
                now += 1;
                most = most.max(now);
            }
            b'>' | b'}' => now = now.saturating_sub(1),
            _ => {}
        }
    }
    most
}

/// The shape that a text spells. One that nests too deep is read without its parts.
#[tactic(auto, using(crate::proofs::Depth::type_shallow, crate::proofs::Depth::type_deep, crate::proofs::Depth::type_malformed))]
pub(crate) fn type_of(alloc: Global, text: &[u8]) -> Result<Shape, LineError>
    ensures { Answers shape_view line_fault result (type_of text.now) }
{
    if most_open(text) < MAX_DEPTH {
        return Ok(read_type(alloc, true, text)?);
    }
    let _unkept = read_type(alloc, false, text)?;
    Err(LineError::Kind(SchemaKind::TooDeep))
}

/// Whether a line is to be skipped.
pub(crate) fn is_blank_line(line: &[u8]) -> bool
    ensures { result ≡ is_blank_line line.now }
{
    line.iter().all(|byte| is_space(*byte))
}

fn word_len(line: &[u8]) -> usize
    ensures value { result ≡ prefix_len is_word_byte line.now }
    ensures within { result ≤ length line.now }
{
    line.iter().take_while(|byte| is_word_byte(**byte)).count()
}

fn blanks_len(rest: &[u8]) -> usize
    ensures value { result ≡ prefix_len is_blank rest.now }
    ensures within { result ≤ length rest.now }
{
    rest.iter().take_while(|byte| is_blank(**byte)).count()
}

fn spaces_len(text: &[u8]) -> usize
    ensures value { result ≡ prefix_len is_space (reverse text.now) }
    ensures within { result ≤ length text.now }
{
    text.iter()
        .rev()
        .take_while(|byte| is_space(**byte))
        .count()
}

/// What follows a name and its blanks, up to the spaces at the end.
fn type_text(rest: &[u8]) -> &[u8]
    ensures { result.now ≡ type_text rest.now }
{
    let text = &rest[blanks_len(rest)..];
    &text[..text.len() - spaces_len(text)]
}

fn begins_blank(rest: &[u8]) -> bool
    ensures { result ≡ begins_blank rest.now }
{
    match rest {
        [] => false,
        [first, ..] => is_blank(*first),
    }
}

/// The name and the text of the type, where a name and a blank come first.
pub(crate) fn split_line(line: &[u8]) -> Option<(&[u8], &[u8])>
    ensures { option_map (λ x. (x.0.now, x.1.now)) result ≡ split_line line.now }
{
    let (name, rest) = line.split_at(word_len(line));
    if is_name(name) && begins_blank(rest) {
        Some((name, type_text(rest)))
    } else {
        None
    }
}
