//! A file of the system that is written.

ghost use Rattle.nt_system.specs.Real.{disk_state, tells_nothing};

use crate::faults::Faults;
use crate::named::Named;
use crate::positioned::write_from;
use crate::range::{RealExt, RealPen};
use nt_outside::{Disk, Failed, Range, Refused, take_off};
use std::alloc::AllocError;
use std::fs::{File, OpenFile};
use std::io;
use std::os::unix::fs::FileExt;

/// A disk that is written to an opened file, whose pens open the file of its name. The system has the memory that a write takes.
#[derive(Drop)]
pub struct RealDisk<F> {
    pub(crate) named: Named,
    pub(crate) file: F,
    /// Whether the file is new, and its folder wasn't synced since.
    pub(crate) is_new: bool,
    pub(crate) end: u64,
    pub(crate) out: Vec<Range>,
    pub(crate) faults: Faults,
}

impl<F: FileExt + OpenFile> Disk for RealDisk<F> {
    type Ext = RealExt;

    type Pen = RealPen<File>;

    ghost state = { λ d. disk_state d.end d.out.items d.faults.count };

    ghost told = { λ d h is. tells_nothing d.end d.out.items d.faults.count h is };

    fn end(&self) -> u64 {
        self.end
    }

    fn faults(&self) -> u64 {
        self.faults.count
    }

    fn pen(&mut self) -> Result<RealPen<File>, Refused> {
        match self.named.open() {
            Ok(file) => Ok(RealPen {
                file,
                faults: Faults::NONE,
            }),
            Err(_) => Err(Refused::from(self.faults.failed())),
        }
    }

    fn return_pen(&mut self, pen: RealPen<File>) {
        self.faults.take_in(pen.faults);
    }

    fn room(&mut self, _steps: u32, _bytes: u64) -> Result<(), AllocError> {
        Ok(())
    }

    fn reserve(&mut self, len: u64) -> Result<RealExt, Refused> {
        let range = Range {
            start: self.end,
            len,
        };
        self.out.push(range)?;
        self.end += len;
        Ok(RealExt {
            range,
            filled: false,
        })
    }

    fn settle(&mut self, ext: RealExt) {
        take_off(&mut self.out, ext.range);
    }

    fn append(&mut self, bytes: &[u8]) -> Result<(), Failed> {
        let written = write_from(&self.file, self.end, bytes);
        self.end += written as u64;
        if written < bytes.len() {
            return Err(self.faults.failed());
        }
        Ok(())
    }

    fn write_at(&mut self, at: u64, bytes: &[u8]) -> Result<(), Failed> {
        if write_from(&self.file, at, bytes) < bytes.len() {
            return Err(self.faults.failed());
        }
        Ok(())
    }

    /// The first one of a new file also makes sure that its name stays.
    fn sync(&mut self) -> Result<(), Failed> {
        match sync_all(&self.named, &self.file, self.is_new) {
            Ok(()) => {
                self.is_new = false;
                Ok(())
            }
            Err(_) => Err(self.faults.failed()),
        }
    }
}

/// Syncs a file, and where it is new its folder.
fn sync_all<F: OpenFile>(named: &Named, file: &F, is_new: bool) -> io::Result<()> {
    file.sync_all()?;
    if is_new {
        named.sync_folder()?;
    }
    Ok(())
}
