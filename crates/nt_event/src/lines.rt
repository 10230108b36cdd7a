//! The lines of a text.

ghost use Rattle.std.specs.Prelude.{◌≡◌, ◌≤◌, ◌<◌, ◌+◌, ◌∷◌, [], ◌++◌, length, vec_len, true, false, IfOk, IfErr, MatchBool, IsErrOf, Ok, Err};
ghost use Rattle.std.specs.Io.KnownBytes.{Consumes, IsAtEnd, Keeps};
ghost use Rattle.nt_outside.specs.Faults.{HasCause};
ghost use Rattle.nt_event.specs.Limits.{max_line, max_number};

use memchr::memchr;
use nt_outside::{Failed, Source};
use nt_types::Bytes;
use std::alloc::{AllocError, Global};
use std::mem;

/// The bytes that are read at once.
const PIECE: usize = 1 << 16;

/// The most bytes of a line.
pub(crate) const MAX_LINE: usize = 1 << 24;

/// The largest number of a line.
pub(crate) const MAX_NUMBER: u64 = 1 << 48;

/// A line of a text, without its LF.
#[derive(Drop)]
pub struct Line {
    /// Lines count from 1.
    pub number: u64,
    pub bytes: Bytes,
}

/// Why no line was given.
#[derive(Clone, Copy, Debug, PartialEq, Eq)]
pub enum LineError {
    /// The source failed.
    Fault,
    /// The line of this number has more than 2^24 bytes, or the number is above 2^48.
    TooLong { line: u64 },
    Memory,
}

impl From<Failed> for LineError {
    ghost use Rattle.nt_event.specs.declared.lines.LineError.TheVariants.{Fault};

    ghost from_gives = { λ _ r. r ≡ Fault };

    fn from(_: Failed) -> Self {
        LineError::Fault
    }
}

impl From<AllocError> for LineError {
    ghost use Rattle.nt_event.specs.declared.lines.LineError.TheVariants.{Memory};

    ghost from_gives = { λ _ r. r ≡ Memory };

    fn from(_: AllocError) -> Self {
        LineError::Memory
    }
}

/// The lines of a source, one after the other.
#[derive(Drop)]
pub struct LineReader<S> {
    source: S,
    /// Bytes of the source; those from `at` to `end` are ready, still to be given.
    pub(crate) piece: Vec<u8>,
    pub(crate) at: usize,
    pub(crate) end: usize,
    /// The number of the last line that was given.
    pub(crate) number: u64,
    /// Memory for the next line.
    spare: Vec<u8>,
    ghost within: { (at ≤ end) × (end ≤ vec_len piece) × (0 < vec_len piece) },
    ghost numbers: { number ≤ max_number },
}

fn empty_piece(alloc: Global) -> Result<Vec<u8>, AllocError>
    ensures { IfOk result (λ piece. 0 < vec_len piece) }
{
    vec![in alloc; 0u8; PIECE]
}

impl<S: Source> LineReader<S> {
    ghost use Rattle.nt_event.specs.Lines.{lines_state, before_first_line, GivesLine};
    ghost use Rattle.nt_event.specs.LineParts.{TakesPart};

    /// Before the first line. Without memory the source comes back.
    pub fn new(alloc: Global, source: S) -> Result<LineReader<S>, (S, AllocError)>
        ensures ok { IfOk result (λ r. lines_state (S.state r.source) r ≡ before_first_line
            (S.state source)) }
        ensures err { IfErr result (λ e. e.0 ≡ source) }
    {
        match empty_piece(alloc) {
            Ok(piece) => Ok(LineReader {
                source,
                piece,
                at: 0,
                end: 0,
                number: 0,
                spare: Vec::new(alloc),
            }),
            Err(error) => Err((source, error)),
        }
    }

    /// The source; bytes that it gave for lines still to come are lost.
    pub fn into_source(self) -> S
        ensures { result ≡ self.source }
    {
        self.source
    }

    /// Makes a byte ready, and says whether there is one.
    fn fill(&mut self) -> Result<bool, Failed>
        ensures same { Keeps (lines_state (S.state self.old.source) self.old).left
            (lines_state (S.state self.new.source) self.new).left }
        ensures ready { IfOk result
            (λ more. MatchBool more (self.new.at < self.new.end)
            (IsAtEnd (lines_state (S.state self.new.source) self.new).left)) }
        ensures number { self.new.number ≡ self.old.number }
        ensures cause { HasCause (S.state self.old.source).faults (S.state self.new.source).faults
            result }
    {
        if self.at < self.end {
            return Ok(true);
        }
        let count = self.source.read(self.piece.as_mut_slice())?;
        self.at = 0;
        self.end = count;
        Ok(count > 0)
    }

    /// Takes what is ready, up to an LF, behind the beginning of a line. Says whether the line has ended.
    fn take_part(&mut self, line: &mut Vec<u8>) -> Result<bool, LineError>
        requires ready { self.old.at < self.old.end }
        requires few { length line.old.items ≤ max_line }
        ensures part { TakesPart (lines_state (S.state self.old.source) self.old)
            (lines_state (S.state self.new.source) self.new) line.old.items line.new.items result }
        ensures source { self.new.source ≡ self.old.source }
        ensures number { self.new.number ≡ self.old.number }
    {
        let rest = &self.piece[self.at..self.end];
        match memchr(b'\n', rest) {
            Some(count) => {
                if count > MAX_LINE - line.len() {
                    return Err(LineError::TooLong {
                        line: self.number + 1,
                    });
                }
                line.extend_from_slice(&rest[..count])?;
                self.at += count + 1;
                Ok(true)
            }
            None => {
                if rest.len() > MAX_LINE - line.len() {
                    return Err(LineError::TooLong {
                        line: self.number + 1,
                    });
                }
                line.extend_from_slice(rest)?;
                self.at = self.end;
                Ok(false)
            }
        }
    }

    /// The line of these bytes, which is the next one.
    fn numbered(&mut self, bytes: Vec<u8>) -> Line
        requires { self.old.number < max_number }
        ensures line { (result.number ≡ self.old.number + 1) × (result.bytes ≡ bytes.items) }
        ensures left { (lines_state (S.state self.new.source) self.new).left ≡
            (lines_state (S.state self.old.source) self.old).left }
        ensures number { self.new.number ≡ self.old.number + 1 }
        ensures source { self.new.source ≡ self.old.source }
    {
        self.number += 1;
        Line {
            number: self.number,
            bytes: Bytes::from_vec(bytes),
        }
    }

    /// The next line, in memory that holds nothing yet.
    fn next_in(&mut self, memory: Vec<u8>) -> Result<Option<Line>, LineError>
        requires empty { memory.items ≡ [] }
        ensures line { GivesLine (lines_state (S.state self.old.source) self.old)
            (lines_state (S.state self.new.source) self.new) result }
        ensures later { (S.state self.old.source).faults ≤ (S.state self.new.source).faults }
    {
        let mut bytes = memory;
        for _ in 0..=MAX_LINE {
            if !self.fill()? {
                if bytes.is_empty() {
                    return Ok(None);
                }
                return Ok(Some(self.numbered(bytes)));
            }
            if self.number >= MAX_NUMBER {
                return Err(LineError::TooLong {
                    line: self.number + 1,
                });
            }
            if self.take_part(&mut bytes)? {
                return Ok(Some(self.numbered(bytes)));
            }
        }
        unreachable!()
    }

    /// The next line, blank ones too; none at the end, however often it is asked there. After an error the reader is not asked again.
    pub fn next(&mut self, alloc: Global) -> Result<Option<Line>, LineError>
        ensures line { GivesLine (lines_state (S.state self.old.source) self.old)
            (lines_state (S.state self.new.source) self.new) result }
        ensures later { (S.state self.old.source).faults ≤ (S.state self.new.source).faults }
    {
        let mut memory = mem::replace(&mut self.spare, Vec::new(alloc));
        memory.clear();
        self.next_in(memory)
    }

    /// Takes a line back. The next one stands in its memory.
    pub fn reuse(&mut self, line: Line)
        ensures { lines_state (S.state self.new.source) self.new
            ≡ lines_state (S.state self.old.source) self.old }
    {
        self.spare = line.bytes.into_vec();
    }
}
