//! What stands on whole files: the totals of their numbers, what is chosen of them, and whether they can be merged.

use crate::files::two_entries;
use nt_lists::Bytes;
use nt_memory::{Calls, MemFile};
use nt_merge::MergeError;
use nt_reader::Reader;
use nt_scan::{ScanError, scan_file};
use nt_skim::{PlanError, Test};
use std::alloc::{AllocError, Global};
use std::test::Fail;
use std::thread::Threads;

fn file_of(alloc: Global, file: &[u8]) -> Result<MemFile, AllocError> {
    let bytes = Bytes::from_vec(file.to_vec(alloc)?);
    Ok(MemFile::new(bytes, Calls::from_vec(Vec::new(alloc))))
}

/// The lines of the totals of a file, if it has no fault.
fn lines_of_totals(
    rt: &(impl Threads + Sync),
    alloc: Global,
    file: &[u8],
) -> Result<Option<Bytes>, AllocError> {
    let mut file = file_of(alloc, file)?;
    match scan_file(rt, alloc, &mut file) {
        Ok(lines) => Ok(Some(lines)),
        Err(ScanError::Memory) => Err(AllocError),
        Err(_) => Ok(None),
    }
}

/// How many fields stand in the plan of a selection by this name, with a test of a field of the same name; or what is against it.
fn fields_planned(
    alloc: Global,
    file: &[u8],
    name: &[u8],
) -> Result<Option<Result<usize, PlanError>>, AllocError> {
    let mut file = file_of(alloc, file)?;
    let Ok(reader) = Reader::attach(alloc, &mut file) else {
        return Ok(None);
    };
    let names = vec![in alloc; Bytes::from_vec(name.to_vec(alloc)?)]?;
    let test = Test {
        name: Bytes::from_vec(name.to_vec(alloc)?),
        least: 0,
        greatest: 1,
    };
    match nt_skim::plan(alloc, reader.schema(), &names, Some(&test)) {
        Ok(plan) => Ok(Some(Ok(plan.fields().as_slice().len()))),
        Err(error) => Ok(Some(Err(error))),
    }
}

/// Whether a file can be merged with itself; or what stands against it.
fn merges_with_itself(alloc: Global, file: &[u8]) -> Result<Result<(), MergeError>, AllocError> {
    let mut files = vec![in alloc; file_of(alloc, file)?, file_of(alloc, file)?]?;
    match nt_merge::plan(alloc, &mut files) {
        Ok(_) => Ok(Ok(())),
        Err(error) => Ok(Err(error)),
    }
}

#[test]
fn numbers_are_totalled(rt: HostRuntime) -> Result<(), Fail> {
    let alloc = rt.alloc();
    let lines = lines_of_totals(&rt, alloc, &two_entries(alloc)?)?;
    let wanted = b"[0,\"x\",2,18446744073709551616,1,18446744073709551615]\n".as_slice();
    assert!(rt; lines.is_some_and(|lines| lines.as_slice() == wanted));
    Ok(())
}

#[test]
fn fields_are_chosen(rt: HostRuntime) -> Result<(), Fail> {
    let alloc = rt.alloc();
    let file = two_entries(alloc)?;
    assert!(rt; matches!(fields_planned(alloc, &file, b"x")?, Some(Ok(1))));
    assert!(rt;
        matches!(
            fields_planned(alloc, &file, b"y")?,
            Some(Err(PlanError::UnknownField { .. }))
        )
    );
    Ok(())
}

#[test]
fn a_file_is_like_itself(rt: HostRuntime) -> Result<(), Fail> {
    let alloc = rt.alloc();
    assert_eq!(rt; merges_with_itself(alloc, &two_entries(alloc)?)?, Ok(()));
    Ok(())
}
