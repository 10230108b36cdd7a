//! Files by name.

ghost use Rattle.std.specs.Prelude.{◌≡◌, ◌<◌, ◌^◌, ℕ, All};
ghost use Rattle.nt_memory.specs.Placed.{ArePlaced, ArePlaced-prop};

use nt_disk_log::{Log, pick_left};
use nt_lists::Bytes;
use std::alloc::{AllocError, Global};

/// A file, its name, and the steps of the disk that wrote it, if one did.
#[derive(Drop)]
pub struct NamedFile {
    pub name: String,
    pub bytes: Vec<u8>,
    pub log: Option<Log>,
    ghost fit: { All (λ (b : ℕ). b < 2 ^ 8) bytes.items },
    ghost placed: { ArePlaced log } by { ArePlaced-prop log },
}

impl NamedFile {
    ghost use Rattle.nt_memory.specs.Named.{kept};
    ghost use Rattle.nt_disk_log.specs.Left.{picked_under, MayBeLeft};
    ghost use Rattle.std.specs.Prelude.{Some, IfOk, IfSome};

    /// The file of a pick after the first so many steps of its disk.
    pub fn crash(&self, alloc: Global, count: usize, pick: u8) -> Result<Option<Bytes>, AllocError>
        ensures picked { IfOk result (λ found. found ≡ picked_under count pick (Some (kept self.now))) }
        ensures leaves { IfOk result (λ found. IfSome found (MayBeLeft (Some (kept self.now)) count)) }
    {
        match &self.log {
            Some(log) => {
                let bytes = pick_left(alloc, log, count, pick)?;
                Ok(Some(bytes))
            }
            None => Ok(None),
        }
    }
}
