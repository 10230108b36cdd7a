//! Runs that were done, by which those are judged whose calls fail.

use crate::running::{Ran, add_named};
use crate::spelling::add_number;
use std::alloc::{AllocError, Global};

/// What a run printed, and its file `o`.
#[derive(Drop)]
pub struct Whole {
    pub out: Vec<u8>,
    pub file: Option<Vec<u8>>,
}

impl Whole {
    /// What a run left.
    pub fn of(alloc: Global, ran: &Ran) -> Result<Self, AllocError> {
        let file = match ran.host.file("o") {
            Some(file) => Some(file.to_vec(alloc)?),
            None => None,
        };
        let out = ran.host.out().to_vec(alloc)?;
        Ok(Whole { out, file })
    }

    /// The bytes of the file.
    pub fn file_bytes(&self) -> &[u8] {
        match &self.file {
            Some(file) => file,
            None => b"".as_slice(),
        }
    }

    /// Whether a run left this file.
    fn has_file(&self, file: Option<&[u8]>) -> bool {
        match (&self.file, file) {
            (Some(one), Some(other)) => one.as_slice() == other,
            (None, None) => true,
            _ => false,
        }
    }
}

/// Whether a run is done as one of these was.
pub fn is_done(wholes: &[Whole], ran: &Ran) -> bool {
    for whole in wholes {
        let is_same = whole.has_file(ran.host.file("o")) && whole.out.as_slice() == ran.host.out();
        if is_same && ran.code == 0 && ran.host.err().is_empty() {
            return true;
        }
    }
    false
}

/// Adds the status and the message; of the file `o` whether it is `whole` as one of these, or `open`, since its first byte isn't that
/// of a finished one; and of what was printed whether it was `told` as by that one, or by any of them where the file is open.
pub fn add_judged(
    alloc: Global,
    wholes: &[Whole],
    ran: &Ran,
    told: &mut Vec<u8>,
) -> Result<(), AllocError> {
    add_number(alloc, u64::from(ran.code), told)?;
    add_named(b" err ", ran.host.err(), told)?;
    let file = ran.host.file("o");
    let is_open = match file {
        Some(file) => file.first() != Some(&b'r'),
        None => false,
    };
    let mut is_whole = false;
    let mut is_told = ran.host.out().is_empty();
    for whole in wholes {
        let has_file = file.is_some() && whole.has_file(file);
        is_whole = is_whole || has_file;
        is_told = is_told || (has_file || is_open) && whole.out.as_slice() == ran.host.out();
    }
    told.extend_from_slice(match (file.is_some(), is_open, is_whole) {
        (false, _, _) => b"".as_slice(),
        (true, true, _) => b" open",
        (true, false, true) => b" whole",
        (true, false, false) => b" other",
    })?;
    if !is_told {
        add_named(b" out ", ran.host.out(), told)?;
    } else if !ran.host.out().is_empty() {
        told.extend_from_slice(b" told")?;
    }
    Ok(())
}
