//! Ranges of a file of the system, and the pens that fill them.

ghost use Rattle.nt_system.specs.Real.{ext_state, unsized, unshown};

use crate::faults::Faults;
use crate::positioned::write_from;
use nt_outside::{Ext, Failed, Pen, Range};
use std::os::unix::fs::FileExt;

/// The sole right to write a range of a file.
#[derive(Drop)]
pub struct RealExt {
    pub(crate) range: Range,
    pub(crate) filled: bool,
}

impl Ext for RealExt {
    ghost state = { λ e. ext_state e.range e.filled };

    ghost sized = { λ e bytes is. unsized e.range e.filled bytes is };

    ghost told = { λ e. unshown e.range e.filled };

    fn start(&self) -> u64 {
        self.range.start
    }

    fn len(&self) -> u64 {
        self.range.len
    }

    fn filled(&self) -> bool {
        self.filled
    }
}

/// A pen over a file that it opened for itself.
#[derive(Drop)]
pub struct RealPen<F> {
    pub(crate) file: F,
    pub(crate) faults: Faults,
}

impl<F: FileExt> Pen for RealPen<F> {
    type Ext = RealExt;

    ghost state = { λ p. record { faults = p.faults.count } };

    fn faults(&self) -> u64 {
        self.faults.count
    }

    fn fill(&mut self, ext: &mut RealExt, bytes: &[u8]) -> Result<(), Failed> {
        if write_from(&self.file, ext.range.start, bytes) < bytes.len() {
            return Err(self.faults.failed());
        }
        ext.filled = true;
        Ok(())
    }
}
