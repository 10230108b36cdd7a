//! Each fault of a container by its code, place and two values, at files that differ from a sound
//! one in a few bytes.

use crate::containers::{ANCHOR, FREE_LIST, FRONT, KEY_LIST, NARROW_BACK, NARROW_FRONT};
use nt_container::Anchor;
use nt_lists::Bytes;
use nt_memory::{Calls, MemFile};
use nt_tfile::{ReadFailure, read_tfile};
use std::alloc::{AllocError, Global};
use std::test::Fail;

/// What a sound file is read as.
pub const SOUND: Anchor = Anchor {
    header: 268,
    header_size: 177,
    header_len: 177,
    footer: 719,
    footer_size: 100,
    footer_len: 100,
};

/// A file of 1137 bytes, of which nothing between record and anchor is read.
fn sound(alloc: Global) -> Result<Vec<u8>, AllocError> {
    let mut file = FRONT.to_vec(alloc)?;
    file.resize(819, 0)?;
    for part in [ANCHOR.as_slice(), KEY_LIST.as_slice(), FREE_LIST.as_slice()] {
        file.extend_from_slice(part)?;
    }
    Ok(file)
}

/// What a file is read as: the anchor, or code, place and values of its fault.
fn answer(
    alloc: Global,
    file: &[u8],
    fails: &[u64],
) -> Result<Result<Anchor, (u8, u64, u64, u64)>, AllocError> {
    let bytes = Bytes::from_vec(file.to_vec(alloc)?);
    let mut file = MemFile::new(bytes, Calls::from_vec(fails.to_vec(alloc)?));
    match read_tfile(alloc, &mut file) {
        Ok(anchor) => Ok(Ok(anchor)),
        Err(ReadFailure::Defect(error)) => Ok(Err((error.code, error.at, error.kept, error.found))),
        Err(ReadFailure::Fault) => Ok(Err((0, 0, 0, 0))),
        Err(ReadFailure::Memory) => Err(AllocError),
    }
}

#[test]
fn a_file_that_is_cut_is_no_file(rt: HostRuntime) -> Result<(), Fail> {
    let alloc = rt.alloc();
    let file = sound(alloc)?;
    for len in 0..=file.len() {
        let want = match len {
            0 => Err((1, 0, 0, 0)),
            1..=74 => Err((3, 0, 0, 0)),
            75..=1136 => Err((3, 12, 1137, len as u64)),
            _ => Ok(SOUND),
        };
        assert_eq!(rt; answer(alloc, &file[..len], &[])?, want, "{len}");
    }
    Ok(())
}

/// Bytes that are changed at their places, and the fault's code, place and values.
const ROWS: [(&[(usize, u8)], (u8, u64, u64, u64)); 18] = [
    // epoch 0, with the checksum that belongs to it
    (
        &[
            (882, 0),
            (945, 114),
            (946, 104),
            (947, 184),
            (948, 229),
            (949, 112),
            (950, 98),
            (951, 223),
            (952, 162),
        ],
        (8, 819, 1, 0),
    ),
    // another last letter of the mark `root`
    (&[(3, 5)], (2, 0, 0, 0)),
    // another first byte than 0 and `r`
    (&[(0, 5)], (2, 0, 0, 0)),
    // unfinished
    (&[(0, 0)], (1, 0, 0, 0)),
    // fEND behind the file
    (&[(19, 114)], (3, 12, 1138, 1137)),
    // the directory outside of the file
    (&[(37, 9)], (4, 589990, 0, 0)),
    // the list of keys outside of the file
    (&[(178, 9)], (5, 953, 0, 0)),
    // a list shorter than its own key
    (&[(176, 0), (177, 0), (178, 0), (179, 52)], (5, 953, 0, 0)),
    // a list that ends in the anchor's key
    (&[(179, 112)], (5, 1010, 0, 0)),
    // one key more than there are
    (&[(1009, 2)], (5, 1066, 0, 0)),
    // a count of 2^32-1
    (
        &[(1006, 255), (1007, 255), (1008, 255), (1009, 255)],
        (5, 1066, 0, 0),
    ),
    // another class
    (&[(1045, 83)], (6, 953, 0, 0)),
    // ObjLen 77
    (&[(1019, 77), (1013, 133)], (7, 819, 78, 77)),
    // compressed
    (&[(1013, 135)], (9, 819, 78, 79)),
    // Nbytes below KeyLen
    (&[(1013, 16)], (9, 819, 78, 0)),
    // an anchor outside of the file
    (&[(1028, 9)], (10, 648518346341352243, 0, 0)),
    // an anchor that ends behind the file
    (&[(1034, 3), (1035, 236)], (10, 1004, 0, 0)),
    // a bent checksum
    (
        &[(952, 214)],
        (7, 819, 8618449676090684374, 8618449676090684375),
    ),
];

#[test]
fn each_fault_has_its_place_and_values(rt: HostRuntime) -> Result<(), Fail> {
    let alloc = rt.alloc();
    for (edits, want) in ROWS {
        let mut file = sound(alloc)?;
        for (place, byte) in edits {
            if let Some(at) = file.get_mut(*place) {
                *at = *byte;
            }
        }
        assert_eq!(rt; answer(alloc, &file, &[])?, Err(want));
    }
    Ok(())
}

#[test]
fn a_foreign_file_with_places_of_4_bytes_is_read(rt: HostRuntime) -> Result<(), Fail> {
    let alloc = rt.alloc();
    let mut file = NARROW_FRONT.to_vec(alloc)?;
    file.resize(771, b'x')?;
    file.extend_from_slice(&NARROW_BACK)?;
    assert_eq!(rt; answer(alloc, &file, &[])?, Ok(SOUND));
    file.truncate(63);
    assert_eq!(rt; answer(alloc, &file, &[])?, Err((3, 12, 935, 63)));
    file.truncate(62);
    assert_eq!(rt; answer(alloc, &file, &[])?, Err((3, 0, 0, 0)));
    Ok(())
}

#[test]
fn a_call_that_fails_is_a_fault(rt: HostRuntime) -> Result<(), Fail> {
    let alloc = rt.alloc();
    let file = sound(alloc)?;
    // the size, and four windows
    for call in 1..=5 {
        assert_eq!(rt; answer(alloc, &file, &[call])?, Err((0, 0, 0, 0)));
    }
    assert_eq!(rt; answer(alloc, &file, &[6])?, Ok(SOUND));
    Ok(())
}
