//! Texts and their lines.

use nt_event::{LineError, LineReader, blank};
use nt_lists::Bytes;
use nt_memory::{Calls, MemSource};
use nt_outside::{Failed, Source};
use std::alloc::{AllocError, Global};

/// A text, and its lines, each with a bar behind it.
const TEXTS: [(&str, &str); 7] = [
    ("", ""),
    ("a", "a|"),
    ("a\n", "a|"),
    ("\n", "|"),
    ("\n\nb", "||b|"),
    ("a\r\n \t\r\nb\n", "a\r| \t\r|b|"),
    ("ab\ncd\n\n", "ab|cd||"),
];

/// A text that comes a byte at a time.
#[derive(Drop)]
struct ByteByByte {
    bytes: Vec<u8>,
    at: usize,
}

impl Source for ByteByByte {
    ghost use Rattle.std.specs.Prelude.{None};

    ghost state = { λ _. record { left = None; faults = 0 } };

    fn read(&mut self, buf: &mut [u8]) -> Result<usize, Failed> {
        if self.at >= self.bytes.len() {
            return Ok(0);
        }
        buf[0] = self.bytes[self.at];
        self.at += 1;
        Ok(1)
    }
}

/// The lines of a source, each with a bar behind it, and their numbers in order.
fn barred<S: Source + Drop>(alloc: Global, source: S) -> Result<Vec<u8>, LineError> {
    let mut reader = match LineReader::new(alloc, source) {
        Ok(reader) => reader,
        Err(_) => return Err(LineError::Memory),
    };
    let mut out = Vec::new(alloc);
    for number in 1..1000u64 {
        let Some(line) = reader.next(alloc)? else {
            return Ok(out);
        };
        if line.number != number {
            return Err(LineError::Fault);
        }
        out.extend_from_slice(line.bytes.as_slice())?;
        out.extend_from_slice(b"|")?;
    }
    Ok(out)
}

fn mem(alloc: Global, bytes: Vec<u8>, fails: &[u64]) -> Result<MemSource, AllocError> {
    Ok(MemSource::new(
        Bytes::from_vec(bytes),
        Calls::from_vec(fails.to_vec(alloc)?),
    ))
}

/// Whether a source has these lines.
fn has_lines<S: Source + Drop>(alloc: Global, source: S, expected: &[u8]) -> bool {
    match barred(alloc, source) {
        Ok(lines) => lines.as_slice() == expected,
        Err(_) => false,
    }
}

/// Whether texts have these lines, in whatever pieces they come.
fn texts_have_lines(alloc: Global) -> Result<bool, AllocError> {
    for (text, expected) in TEXTS {
        let bytes = text.as_bytes().to_vec(alloc)?;
        let whole = mem(alloc, text.as_bytes().to_vec(alloc)?, &[])?;
        let expected = expected.as_bytes();
        if !has_lines(alloc, ByteByByte { bytes, at: 0 }, expected)
            || !has_lines(alloc, whole, expected)
        {
            return Ok(false);
        }
    }
    Ok(true)
}

/// Whether a line has at most 2^24 bytes.
fn a_line_may_be_so_long(alloc: Global) -> Result<bool, AllocError> {
    for (count, fits) in [(1 << 24, true), ((1 << 24) + 1, false)] {
        let mut bytes = vec![in alloc; b'\n'; 1]?;
        bytes.extend_from_slice(vec![in alloc; b' '; count]?.as_slice())?;
        let is_so = match barred(alloc, mem(alloc, bytes, &[])?) {
            Ok(lines) => fits && lines.len() == count + 2,
            Err(error) => !fits && error == LineError::TooLong { line: 2 },
        };
        if !is_so {
            return Ok(false);
        }
    }
    Ok(true)
}

/// Whether a read that fails is a fault: behind the last line the end is looked for once more.
fn a_failing_read_is_a_fault(alloc: Global) -> Result<bool, AllocError> {
    for (number, fails) in [(1, true), (2, true), (3, true), (4, false)] {
        let source = mem(alloc, b"a\nb".to_vec(alloc)?, &[number])?;
        let is_so = match barred(alloc, source) {
            Ok(lines) => !fails && lines.as_slice() == b"a|b|".as_slice(),
            Err(error) => fails && error == LineError::Fault,
        };
        if !is_so {
            return Ok(false);
        }
    }
    Ok(true)
}

/// Whether lines without an entry are told from others.
fn blank_lines_are_told() -> bool {
    for (line, is_blank) in [
        ("", true),
        (" \t\r", true),
        ("\u{b}", false),
        (" x ", false),
    ] {
        if blank(line.as_bytes()) != is_blank {
            return false;
        }
    }
    true
}

#[test]
fn texts(rt: HostRuntime) {
    let alloc = rt.alloc();
    for (holds, name) in [
        (texts_have_lines(alloc), "texts have lines"),
        (a_line_may_be_so_long(alloc), "a line may be so long"),
        (
            a_failing_read_is_a_fault(alloc),
            "a failing read is a fault",
        ),
        (Ok(blank_lines_are_told()), "blank lines are told"),
    ] {
        assert!(rt; holds == Ok(true), "{name}");
    }
}
