//! The next line, where it lies whole among the bytes that are ready.

ghost use Rattle.std.specs.Prelude.{◌≡◌, ◌≢◌, ◌+◌, ◌≤◌, length, take, IfSome};
ghost use Rattle.std.specs.Int.Count.{count_trailing_zeros};
ghost use Rattle.std.specs.Str.{IsUtf8};
ghost use Rattle.nt_event.specs.LineParts.{AllInner, IsStop};

use crate::lines::{LineReader, MAX_LINE, MAX_NUMBER};
use nt_outside::Source;
use std::simd::prelude::*;

/// A bit for each of sixteen bytes that is an LF or no ASCII.
#[inline(always)]
fn stops(bytes: u8x16) -> u64
    ensures none { result ≡ 0 → AllInner bytes }
    ensures first { result ≢ 0 → IsStop bytes (count_trailing_zeros 64 result) }
{
    (bytes.simd_eq(u8x16::splat(b'\n')) | bytes.simd_ge(u8x16::splat(128))).to_bitmask()
}

/// The end of bytes of ASCII that are no LF, behind those that are known.
fn inner_last(text: &[u8], from: usize) -> usize
    requires within { from ≤ length text.now }
    requires known { AllInner (take from text.now) }
    ensures high { result ≤ length text.now }
    ensures inner { AllInner (take result text.now) }
{
    let mut i = from;
    while i < text.len() && text[i] < 128 && text[i] != b'\n' {
        i += 1;
    }
    i
}

/// The end of such bytes at the front: of the line, where it is of ASCII and its LF stands there.
#[inline(always)]
fn inner_end(text: &[u8]) -> usize
    ensures high { result ≤ length text.now }
    ensures inner { AllInner (take result text.now) }
{
    let mut i = 0;
    while text.len() - i >= 16 {
        let found = stops(u8x16::from_slice(&text[i..]));
        if found != 0 {
            return i + found.trailing_zeros() as usize;
        }
        i += 16;
    }
    inner_last(text, i)
}

impl<S: Source> LineReader<S> {
    ghost use Rattle.nt_event.specs.Lines.{lines_state, HasReady, IsNextLine, ready_line};

    /// The next line, where it is ready: it lies whole with its LF among the bytes that were read, and is of ASCII, as nearly every line
    /// is. It isn't given yet: `pass` does that.
    #[inline(always)]
    pub fn ready(&self) -> Option<&[u8]>
        ensures ready { IfSome result (λ line. HasReady self.now (length line.now)) }
        ensures line { IfSome result (λ line. line.now ≡ ready_line self.now (length line.now)) }
        ensures utf8 { IfSome result (λ line. IsUtf8 line.now) }
    {
        let rest = &self.piece[self.at..self.end];
        let len = inner_end(rest);
        if len == rest.len() || rest[len] != b'\n' {
            return None;
        }
        if len > MAX_LINE || self.number >= MAX_NUMBER {
            return None;
        }
        Some(&rest[..len])
    }

    /// Gives the line that is ready and has this length.
    #[inline(always)]
    pub fn pass(&mut self, len: usize)
        requires { HasReady self.old len }
        ensures line { IsNextLine (lines_state (S.state self.old.source) self.old) (lines_state (S.state self.new.source) self.new)
            (record { number = self.old.number + 1; bytes = ready_line self.old len }) }
        ensures source { self.new.source ≡ self.old.source }
    {
        self.at += len + 1;
        self.number += 1;
    }
}
