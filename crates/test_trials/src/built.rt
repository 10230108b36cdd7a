//! A file that is written by the calls below the program, on a disk itself.

ghost use Rattle.std.specs.Prelude.{◌≡◌, false, IfSome};
ghost use Rattle.nt_types.specs.Rules.{AreFields};
ghost use Rattle.nt_types.specs.Views.{members_view};
ghost use Rattle.nt_store.specs.Writing.{IsEmptyDisk};
ghost use Rattle.nt_memory.specs.Disk.{state_of};

use crate::named::Named;
use crate::points::Points;
use crate::running::{Fails, host_of};
use nt_book::{Limits, Params};
use nt_memory::{MemDisk, MemSource};
use nt_outside::Host;
use nt_store::{Settings, close_file, fill_file, read_schema};
use nt_types::Fields;
use std::alloc::{AllocError, Global};
use std::sync::Wait;
use std::thread::Threads;

/// The parameters of a file, by the most entries of a cluster and the most clusters of a group.
pub fn groups_of(cluster: u32, group: u32) -> Option<Params>
    ensures { IfSome result (λ params. params.staged ≡ false) }
{
    let limits = Limits::new(1 << 30, 1 << 40, u32::MAX)?;
    Params::new(cluster, 4096, group, false, false, limits)
}

/// The disk of a file of this text, which was begun, filled by a context of a committer, and closed: `fill_file` is `begin` and the
/// committer, `close_file` is `close`.
fn write_on<R: Threads + Wait + Sync>(
    rt: &R,
    alloc: Global,
    disk: MemDisk,
    fields: &Fields,
    params: &Params,
    text: MemSource,
) -> Result<Option<MemDisk>, AllocError>
    requires fields { AreFields (members_view fields.now) }
    requires disk { IsEmptyDisk (state_of disk) }
    requires unstaged { params.now.staged ≡ false }
{
    let gate = Points::new(&[], 0);
    let texts = vec![in alloc; text]?;
    let settings = Settings {
        alloc,
        params,
        gate: &gate,
        workers: 1,
    };
    let (disk, _texts, filled) = fill_file(rt, disk, fields, texts, &settings);
    let Ok((book, schema)) = filled else {
        return Ok(None);
    };
    let mut disk = disk;
    match close_file(alloc, &mut disk, &book, &schema, params) {
        Ok(()) => Ok(Some(disk)),
        Err(_) => Ok(None),
    }
}

/// The disk of the file of the schema `s` and the text `a`, by the calls themselves.
pub fn build<R: Threads + Wait + Sync>(
    rt: &R,
    alloc: Global,
    files: &[Named],
    params: &Params,
) -> Result<Option<MemDisk>, AllocError>
    requires { params.now.staged ≡ false }
{
    let mut host = host_of(alloc, files, Fails::Nothing, 0)?;
    let Ok(fields) = read_schema(alloc, &mut host, "s") else {
        return Ok(None);
    };
    let Ok(text) = host.open_text("a") else {
        return Ok(None);
    };
    let Ok(disk) = host.create("o") else {
        return Ok(None);
    };
    write_on(rt, alloc, disk, &fields, params, text)
}
