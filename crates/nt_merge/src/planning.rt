//! The files that are merged, before anything is written.

ghost use Rattle.std.specs.Prelude.{◌≡◌, ◌<◌, ◌≤◌, ◌^◌, ℕ, List, Some, slice_get, length, IfOk, IfErr, IsErrOf};
ghost use Rattle.nt_file_meaning.specs.Outlines.{outline_of};
ghost use Rattle.nt_tfile.specs.declared.failure.ReadFailure.TheVariants as failure;
ghost use Rattle.nt_tfile.specs.Calls.{ReadsFile};
ghost use Rattle.nt_merge.specs.Files.{TellBytes, KeepFiles, OneRose};
ghost use Rattle.nt_merge.specs.Planning.{AreAttached, ArePlanned, BlamesFiles, IsPlanError};

use crate::comparing::schema_error;
use crate::error::{MergeError, merge_error};
use nt_outside::ReadAt;
use nt_reader::Reader;
use nt_tfile::ReadFailure;
use std::alloc::Global;
use std::marker::Model;

/// Files that were attached to and can be merged. Contracts see it as their outlines, whose schemas
/// are alike.
#[derive(Drop)]
pub struct MergePlan {
    pub(crate) readers: Vec<Reader>,
}

impl Model for MergePlan {
    ghost use Rattle.std.specs.Prelude.{List};
    ghost use Rattle.nt_file_meaning.specs.Outlines.{Outline};
    ghost use Rattle.nt_merge.specs.Planning.{IsPlan};

    ghost Value = { List Outline };

    ghost view = { λ p. p.readers.items };

    ghost invariant = { λ p. IsPlan p.readers.items };
}

/// Attaches to the file of this number.
fn attach_at<F: ReadAt>(alloc: Global, files: &mut Vec<F>, at: usize) -> Result<Reader, ReadFailure>
    requires { at < length files.old.items }
    ensures told { (f : F) → slice_get files.old.items at ≡ Some f
        → ReadsFile (λ r. r) outline_of (F.state f) result }
    ensures kept { KeepFiles F.state files.old.items files.new.items }
    ensures rose { IsErrOf result failure.Fault → OneRose F.state files.old.items files.new.items }
{
    Reader::attach(alloc, &mut files[at])
}

/// Attaches to all files.
fn attach_all<F: ReadAt>(alloc: Global, files: &mut Vec<F>) -> Result<Vec<Reader>, MergeError>
    requires { length files.old.items < 2 ^ 32 }
    ensures told { (bytes : List (List ℕ)) → TellBytes F.state files.old.items bytes
        → AreAttached bytes result }
    ensures all { IfOk result (λ readers. length readers.items ≡ length files.old.items) }
    ensures kept { KeepFiles F.state files.old.items files.new.items }
    ensures blamed { BlamesFiles F.state files.old.items files.new.items result }
{
    let mut readers = Vec::new(alloc);
    for at in 0..files.len() {
        match attach_at(alloc, files, at) {
            Ok(reader) => readers.push(reader)?,
            Err(failure) => return Err(merge_error(at as u32, failure)),
        }
    }
    Ok(readers)
}

/// Attaches to all files, which are from 1 to 64, and compares their schemas.
///
/// # Errors
///
/// A defect is the first fault of the first file that has no outline. Else `Schema` names the first
/// place of the schemas that stands against merging. `ReadFault` comes only where the count of faults
/// of one of the files rose, `Memory` where memory ran out.
pub fn plan<F: ReadAt>(alloc: Global, files: &mut Vec<F>) -> Result<MergePlan, MergeError>
    requires { (0 < length files.old.items) × (length files.old.items ≤ 64) }
    ensures told { (bytes : List (List ℕ)) → TellBytes F.state files.old.items bytes
        → IfOk result (ArePlanned bytes) × IfErr result (IsPlanError bytes) }
    ensures all { IfOk result (λ plan. length plan ≡ length files.old.items) }
    ensures kept { KeepFiles F.state files.old.items files.new.items }
    ensures blamed { BlamesFiles F.state files.old.items files.new.items result }
{
    let readers = attach_all(alloc, files)?;
    if let Some(place) = schema_error(&readers) {
        return Err(MergeError::Schema(place));
    }
    Ok(MergePlan { readers })
}
