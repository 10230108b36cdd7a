//! Entries and first faults of whole files.

ghost use Rattle.std.specs.Prelude.{◌<◌, length};

use crate::bends::{BENT, BOTH, FIRST, Fault, SMALL};
use crate::files::{two_clusters, two_entries};
use crate::optionals::{OPTIONAL_LINES, TWO_VALUES, optionals};
use nt_decoded::decode_cluster;
use nt_event::write_line;
use nt_lists::Bytes;
use nt_memory::{Calls, MemFile};
use nt_reader::Reader;
use nt_tfile::ReadFailure;
use std::alloc::{AllocError, Global};
use std::test::Fail;

fn fault_of(failure: ReadFailure) -> Result<Fault, AllocError> {
    match failure {
        ReadFailure::Defect(e) => Ok((
            e.code, e.at, e.cluster, e.column, e.element, e.kept, e.found,
        )),
        ReadFailure::Fault => Ok((0, 0, 0, 0, 0, 0, 0)),
        ReadFailure::Memory => Err(AllocError),
    }
}

/// How clusters are read: their pages lent as they are stored, or decoded.
#[derive(Clone, Copy)]
enum Way {
    Lent,
    Decoded,
}

/// How many bytes of lines are made room for at once.
const ROOM: usize = 100;

const WAYS: [Way; 2] = [Way::Lent, Way::Decoded];

/// Appends the lines of the entries of a cluster, or gives its first fault.
fn read_cluster(
    alloc: Global,
    file: &mut MemFile,
    reader: &Reader,
    k: u32,
    way: Way,
    lines: &mut Vec<u8>,
) -> Result<Option<Fault>, AllocError>
    requires { k < length reader.now.clusters }
{
    match way {
        Way::Lent => match reader.cluster(alloc, file, k) {
            Ok(cluster) => {
                for i in 0..cluster.entries() {
                    let trees = cluster.entry(alloc, i)?;
                    write_line(alloc, &trees, lines)?;
                }
            }
            Err(failure) => return Ok(Some(fault_of(failure)?)),
        },
        Way::Decoded => match decode_cluster(alloc, file, reader, k, None) {
            Ok(cluster) => {
                for i in 0..cluster.entries() {
                    cluster.write_entries(alloc, (i, i + 1), ROOM, lines)?;
                }
            }
            Err(failure) => return Ok(Some(fault_of(failure)?)),
        },
    }
    Ok(None)
}

/// Appends the lines of a file's entries up to its first fault, and gives that fault. The calls with
/// these numbers fail.
fn read_lines(
    alloc: Global,
    file: &[u8],
    way: Way,
    fails: &[u64],
    lines: &mut Vec<u8>,
) -> Result<Option<Fault>, AllocError> {
    let bytes = Bytes::from_vec(file.to_vec(alloc)?);
    let mut file = MemFile::new(bytes, Calls::from_vec(fails.to_vec(alloc)?));
    let reader = match Reader::attach(alloc, &mut file) {
        Ok(reader) => reader,
        Err(failure) => return Ok(Some(fault_of(failure)?)),
    };
    for k in 0..reader.clusters() {
        let fault = read_cluster(alloc, &mut file, &reader, k, way, lines)?;
        if fault.is_some() {
            return Ok(fault);
        }
    }
    Ok(None)
}

/// Puts these bytes at their places of a file.
fn bend(file: &mut Vec<u8>, edits: &[(usize, u8)]) {
    for (place, byte) in edits {
        if let Some(at) = file.get_mut(*place) {
            *at = *byte;
        }
    }
}

/// The lines of a file's entries up to its first fault, and that fault, are these, whichever way it is read.
fn reads_as(
    alloc: Global,
    file: &[u8],
    want: &[u8],
    fault: Option<Fault>,
) -> Result<bool, AllocError> {
    for way in WAYS {
        let mut lines = Vec::new(alloc);
        let told = read_lines(alloc, file, way, &[], &mut lines)?;
        if told != fault || lines.as_slice() != want {
            return Ok(false);
        }
    }
    Ok(true)
}

#[test]
fn entries_are_read(rt: HostRuntime) -> Result<(), Fail> {
    let alloc = rt.alloc();
    let want = b"[1]\n[18446744073709551615]\n";
    assert!(rt; reads_as(alloc, &two_entries(alloc)?, want, None)?);
    assert!(rt; reads_as(alloc, &two_clusters(alloc)?, BOTH, None)?);
    Ok(())
}

#[test]
fn the_first_fault_is_told(rt: HostRuntime) -> Result<(), Fail> {
    let alloc = rt.alloc();
    for (edits, want, fault) in BENT {
        let mut file = two_clusters(alloc)?;
        bend(&mut file, edits);
        assert!(rt; reads_as(alloc, &file, want, fault)?);
    }
    Ok(())
}

#[test]
fn each_fault_has_its_place_in_the_file(rt: HostRuntime) -> Result<(), Fail> {
    let alloc = rt.alloc();
    for (edits, fault) in SMALL {
        let mut file = two_entries(alloc)?;
        bend(&mut file, edits);
        assert!(rt; reads_as(alloc, &file, b"", Some(fault))?);
    }
    Ok(())
}

#[test]
fn an_optional_has_one_value_at_most(rt: HostRuntime) -> Result<(), Fail> {
    let alloc = rt.alloc();
    assert!(rt; reads_as(alloc, &optionals(alloc)?, OPTIONAL_LINES, None)?);
    for (edits, fault) in TWO_VALUES {
        let mut file = optionals(alloc)?;
        bend(&mut file, edits);
        assert!(rt; reads_as(alloc, &file, b"", Some(fault))?);
    }
    Ok(())
}

#[test]
fn a_file_that_is_cut_is_no_file(rt: HostRuntime) -> Result<(), Fail> {
    let alloc = rt.alloc();
    for (len, fault) in [
        (1136, (3, 12, 0, 0, 0, 1137, 1136)),
        (1, (3, 0, 0, 0, 0, 0, 0)),
        (0, (1, 0, 0, 0, 0, 0, 0)),
    ] {
        let mut file = two_entries(alloc)?;
        file.truncate(len);
        assert!(rt; reads_as(alloc, &file, b"", Some(fault))?);
    }
    assert!(rt; reads_as(alloc, b"PK", b"", Some((2, 0, 0, 0, 0, 0, 0)))?);
    Ok(())
}

/// The calls of reading a file each fail: up to one of them in the first cluster, up to another in the second.
fn fails_in(
    alloc: Global,
    file: &[u8],
    way: Way,
    first: u64,
    second: u64,
) -> Result<bool, AllocError> {
    for call in 1..=second {
        let mut lines = Vec::new(alloc);
        let told = read_lines(alloc, file, way, &[call], &mut lines)?;
        let want = if call <= first { b"".as_slice() } else { FIRST };
        if told != Some((0, 0, 0, 0, 0, 0, 0)) || lines.as_slice() != want {
            return Ok(false);
        }
    }
    let mut lines = Vec::new(alloc);
    let told = read_lines(alloc, file, way, &[second.saturating_add(1)], &mut lines)?;
    Ok(told.is_none() && lines.as_slice() == BOTH)
}

#[test]
fn pages_that_follow_one_another_are_read_by_one_call(rt: HostRuntime) -> Result<(), Fail> {
    let alloc = rt.alloc();
    let file = two_clusters(alloc)?;
    // Attaching asks for two sizes, four windows of the container and three envelopes. Decoding the first
    // cluster asks for a size and three columns, the second for one column more. To lend them, each cluster asks
    // for a size and all pages.
    assert!(rt; fails_in(alloc, &file, Way::Decoded, 13, 18)?);
    assert!(rt; fails_in(alloc, &file, Way::Lent, 11, 13)?);
    Ok(())
}
