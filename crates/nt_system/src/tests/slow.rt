//! A file that takes and gives only some bytes at a time, or fails.

use std::cell::Cell;
use std::fs::{Metadata, OpenFile};
use std::io;
use std::io::{Error, ErrorKind, Read, Write};
use std::os::unix::fs::FileExt;

/// Eight bytes, of which a call takes or gives at most three. The first calls are interrupted by a signal, and after so many
/// others each fails.
#[derive(Drop)]
pub(super) struct Slow {
    pub(super) bytes: Cell<[u8; 8]>,
    pub(super) interrupted: Cell<u32>,
    pub(super) calls: Cell<u32>,
}

impl Slow {
    pub(super) fn failing_after(calls: u32) -> Self {
        Slow {
            bytes: Cell::new(*b"abcdefgh"),
            interrupted: Cell::new(0),
            calls: Cell::new(calls),
        }
    }

    fn call(&self) -> io::Result<()> {
        let interrupted = self.interrupted.get();
        if interrupted > 0 {
            self.interrupted.set(interrupted - 1);
            return Err(Error::from(ErrorKind::Interrupted));
        }
        let left = self.calls.get();
        self.calls.set(left.saturating_sub(1));
        if left == 0 {
            return Err(Error::from(ErrorKind::Other));
        }
        Ok(())
    }
}

impl Read for Slow {
    fn read(&mut self, buf: &mut [u8]) -> io::Result<usize> {
        self.read_at(buf, 0)
    }
}

impl Write for Slow {
    fn write(&mut self, buf: &[u8]) -> io::Result<usize> {
        self.write_at(buf, 0)
    }

    fn flush(&mut self) -> io::Result<()> {
        Ok(())
    }
}

impl FileExt for Slow {
    fn read_at(&self, buf: &mut [u8], offset: u64) -> io::Result<usize> {
        self.call()?;
        let bytes = self.bytes.get();
        let start = offset.min(8) as usize;
        let count = buf.len().min(3).min(8 - start);
        buf[..count].copy_from_slice(&bytes[start..start + count]);
        Ok(count)
    }

    fn write_at(&self, buf: &[u8], offset: u64) -> io::Result<usize> {
        self.call()?;
        let mut bytes = self.bytes.get();
        let start = offset.min(8) as usize;
        let count = buf.len().min(3).min(8 - start);
        bytes[start..start + count].copy_from_slice(&buf[..count]);
        self.bytes.set(bytes);
        Ok(count)
    }
}

impl OpenFile for Slow {
    fn metadata(&self) -> io::Result<Metadata> {
        Err(Error::from(ErrorKind::Other))
    }

    fn set_len(&self, _size: u64) -> io::Result<()> {
        self.call()
    }

    fn sync_all(&self) -> io::Result<()> {
        self.call()
    }

    fn sync_data(&self) -> io::Result<()> {
        self.call()
    }
}
