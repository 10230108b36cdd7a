//! The files that are merged, opened in order and returned.

ghost use Rattle.std.specs.Prelude.{◌≡◌, length, map, IfOk, OnOk, OnErr, IfErr, IsErrOf};
ghost use Rattle.nt_outside.specs.Faults.{Rose};
ghost use Rattle.nt_outside.specs.World.{File as asked_file};
ghost use Rattle.nt_store.specs.Worlds.{AsksOnly, LeavesOut};
ghost use Rattle.nt_merge_files.specs.declared.error.MergeStoreError.TheVariants.{Outside};
ghost use Rattle.nt_merge_files.specs.Errors.{IsMergeRefusal, HasOpeningCause};
ghost use Rattle.nt_merge_files.specs.Files.{AreOpenFiles, ReturnsFiles};

use crate::error::MergeStoreError;
use nt_outside::Host;
use std::alloc::Global;

/// Returns files to the host.
pub(crate) fn return_files<H: Host>(host: &mut H, files: Vec<H::File>)
    ensures { ReturnsFiles H.File.state files.items (H.state host.old) (H.state host.new) }
{
    let mut files = files;
    while !files.is_empty() {
        host.return_file(files.remove(0));
    }
    files.destroy_empty();
}

/// Opens the files of these names, in order. Where one is refused, those before it are returned.
pub(crate) fn open_files<H: Host>(
    alloc: Global,
    host: &mut H,
    names: &[&str],
) -> Result<Vec<H::File>, MergeStoreError>
    ensures asks { AsksOnly (map asked_file (map (λ name. name.now) names.now))
        (H.state host.old) (H.state host.new) result }
    ensures files { IfOk result (λ files. AreOpenFiles H.File.state (H.state host.old).world
        (map (λ name. name.now) names.now) files.items) }
    ensures cause { HasOpeningCause (H.state host.old).faults (H.state host.new).faults result }
    ensures refused { IfErr result IsMergeRefusal }
    ensures rest { (OnOk result (LeavesOut (length names.now) (H.state host.old) (H.state host.new)))
        × OnErr result (LeavesOut 0 (H.state host.old) (H.state host.new)) }
{
    let mut files = Vec::with_capacity(alloc, names.len())?;
    for name in names {
        match host.open_file(name) {
            Ok(file) => files.push_reserved(file),
            Err(refused) => {
                return_files(host, files);
                return Err(MergeStoreError::from(refused));
            }
        }
    }
    Ok(files)
}
