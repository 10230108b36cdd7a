//! Files of a host, written as one.

ghost use Rattle.std.specs.Prelude.{◌≡◌, ◌<◌, ◌≤◌, false, length, map};
ghost use Rattle.nt_book.specs.Ranges.{IsFromTo};
ghost use Rattle.nt_merge_files.specs.Storing.{MergesPlanned, MergesOpen, MergesNamed, StoresMerged};

use crate::error::{MergeStoreError, counts_of_merge, error_of_merge};
use crate::opening::{open_files, return_files};
use nt_book::Params;
use nt_copied::{
    bare_schemas_are_described, copied_files_have_the_stored_pages, copied_files_mean_their_sources,
};
use nt_merge::{MergePlan, merge, plan, schemas_without_error_are_mergeable};
use nt_outside::Host;
use nt_script::{Counts, print_counts};
use std::alloc::Global;

/// The names of the file that is written and of those that are merged, in order.
#[derive(Clone, Copy)]
pub struct MergeNames<'a> {
    pub out: &'a str,
    pub files: &'a [&'a str],
}

/// Makes the disk of this name, merges the files of a plan into it, and returns the disk.
fn merge_planned<H: Host>(
    alloc: Global,
    host: &mut H,
    out: &str,
    plan: &MergePlan,
    files: &mut Vec<H::File>,
    params: &Params,
) -> Result<Counts, MergeStoreError>
    requires as_many { length files.old.items ≡ length plan.now }
    requires unstaged { params.now.staged ≡ false }
    ensures { MergesPlanned H.File.state out.now params.now plan.now files.old.items files.new.items
        (H.state host.old) (H.state host.new) result }
{
    match host.create(out) {
        Ok(disk) => {
            let mut disk = disk;
            let merged = merge(alloc, plan, files, &mut disk, params);
            host.return_disk(disk);
            counts_of_merge(params.limits.clusters, merged)
        }
        Err(refused) => Err(MergeStoreError::from(refused)),
    }
}

/// Plans the merge of open files, and writes them under this name.
fn merge_open<H: Host>(
    alloc: Global,
    host: &mut H,
    out: &str,
    files: &mut Vec<H::File>,
    params: &Params,
) -> Result<Counts, MergeStoreError>
    requires count { IsFromTo 1 64 (length files.old.items) }
    requires unstaged { params.now.staged ≡ false }
    ensures { MergesOpen H.File.state out.now params.now files.old.items files.new.items
        (H.state host.old) (H.state host.new) result }
{
    bare_schemas_are_described();
    copied_files_mean_their_sources();
    copied_files_have_the_stored_pages();
    schemas_without_error_are_mergeable();
    match plan(alloc, files) {
        Ok(plan) => merge_planned(alloc, host, out, &plan, files, params),
        Err(error) => Err(error_of_merge(params.limits.clusters, error)),
    }
}

/// Opens the files, writes them under one name, and returns them.
fn merge_named<H: Host>(
    alloc: Global,
    host: &mut H,
    names: MergeNames<'_>,
    params: &Params,
) -> Result<Counts, MergeStoreError>
    requires count { IsFromTo 1 64 (length names.files.now) }
    requires unstaged { params.now.staged ≡ false }
    ensures { MergesNamed names.entry.out.now (map (λ name. name.now) names.entry.files.now) params.now
        (H.state host.old) (H.state host.new) result }
{
    match open_files(alloc, host, names.files) {
        Ok(files) => {
            let mut files = files;
            let merged = merge_open(alloc, host, names.out, &mut files, params);
            return_files(host, files);
            merged
        }
        Err(error) => Err(error),
    }
}

/// Writes a new file with the clusters of 1 to 64 others, file by file, each page as it is stored: opens the files in order, attaches to
/// all and compares their schemas, and only then makes the disk; copies the clusters into it, closes it, returns disk and files, and tells
/// the numbers of clusters and entries on out. The schema is that of the first file without the flags of its fields.
///
/// # Errors
///
/// `Defect` is the first fault of the files, `Schema` the first place that stands against merging them, `Limit` a limit that the new file
/// would pass. A fault of a cluster comes only where no limit is passed before it, and a limit only where no cluster before it has a fault.
/// After these and after `Memory` the new file can't pass for finished. `Outside` comes only where the host's count rose.
pub fn store_merged<H: Host>(
    alloc: Global,
    host: &mut H,
    names: MergeNames<'_>,
    params: &Params,
) -> Result<(), MergeStoreError>
    requires count { IsFromTo 1 64 (length names.files.now) }
    requires unstaged { params.now.staged ≡ false }
    ensures { StoresMerged names.entry.out.now (map (λ name. name.now) names.entry.files.now) params.now
        (H.state host.old) (H.state host.new) result }
{
    let counts = merge_named(alloc, host, names, params)?;
    print_counts(host, counts)?;
    Ok(())
}
