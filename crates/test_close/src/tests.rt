//! Files begun and closed.

use crate::files::{End, Shape, write_file};
use crate::staged::write_staged;
use nt_close::{BeginError, CloseError};
use nt_memory::{MemHost, Object};
use std::alloc::Global;
use std::test::*;

/// The page of 1 and the largest number, and its bytes sorted into planes.
const TWO: &[u8] = b"\x01\0\0\0\0\0\0\0\xff\xff\xff\xff\xff\xff\xff\xff";

const TWO_SPLIT: &[u8] = b"\x01\xff\0\xff\0\xff\0\xff\0\xff\0\xff\0\xff\0\xff";

/// The page of 7.
const ONE: &[u8] = b"\x07\0\0\0\0\0\0\0";

/// Plain columns, two clusters a group, and the largest limits.
const WIDE: Shape = Shape {
    plain: true,
    staged: false,
    group: 2,
    range: 1 << 30,
    file: 1 << 56,
};

/// Whether a file has so many bytes, and these at their places.
fn lies_so(host: &MemHost, len: usize, places: &[(usize, &[u8])]) -> bool {
    let Some(file) = host.file("o") else {
        return false;
    };
    file.len() == len
        && places.iter().all(|(place, bytes)| file
            .get(*place..)
            .is_some_and(|rest| rest.starts_with(bytes)))
}

#[test]
fn files_lie_as_they_are_laid_out(rt: HostRuntime) -> Result<(), Fail> {
    for (plain, pages, len, places) in [
        // the end and the list of free pieces, the list of keys, and the checksums of header, page,
        // page list, footer and anchor
        (
            true,
            [TWO].as_slice(),
            1137,
            [
                (0, b"root\0\x10\x39\xe8".as_slice()),
                (12, b"\0\0\0\0\0\0\x04\x71\0\0\0\0\0\0\x04\x2a"),
                (200, b"\0\0\0\0\0\0\x03\xb9"),
                (401, b"\x0a\0"),
                (437, b"\x09\xab\xfb\xb1\x20\x74\xa8\xce"),
                (503, b"\x57\x58\xde\xca\xb5\x7d\x9e\x78"),
                (669, b"\xef\xb6\x16\xd6\x81\xe5\x41\x7a"),
                (811, b"\xdd\x5c\x18\xa4\xb3\x84\x2c\x14"),
                (945, b"\x77\x9a\xe2\x51\x61\xf7\x33\xd7"),
            ]
            .as_slice(),
        ),
        (
            false,
            &[TWO_SPLIT],
            1137,
            &[(0, b"root"), (401, b"\x16\0"), (487, TWO_SPLIT)],
        ),
        (
            true,
            &[],
            857,
            &[
                (12, b"\0\0\0\0\0\0\x03\x59"),
                (487, b"\x02\0\x34\0"),
                (503, b"\x09\xab\xfb\xb1\x20\x74\xa8\xce"),
            ],
        ),
        // a page list of two clusters behind them, one of the third behind it, and the footer with
        // their groups; the first is written before the third cluster, and noted
        (
            true,
            &[ONE, ONE, ONE],
            1535,
            &[
                (487, ONE),
                (545, ONE),
                (603, b"\x03\0\xc8\0"),
                (845, ONE),
                (903, b"\x03\0\x7c\0"),
                (1069, b"\x02\0\x94\0"),
            ],
        ),
        // the list of a last group that is full is written by the closing
        (
            true,
            &[ONE, ONE],
            1263,
            &[
                (487, ONE),
                (545, ONE),
                (603, b"\x03\0\xc8\0"),
                (845, b"\x02\0\x64\0"),
            ],
        ),
    ] {
        let mut host = MemHost::new(rt.alloc());
        let shape = Shape { plain, ..WIDE };
        let end = write_file(rt.alloc(), &mut host, &shape, pages, pages.len())?;
        assert_eq!(rt; end, End::Closed);
        assert!(rt; lies_so(&host, len, places), "of {len}");
    }
    Ok(())
}

#[test]
fn limits_are_told(rt: HostRuntime) -> Result<(), Fail> {
    let large = |len, limit| CloseError::RangeTooLarge { len, limit };
    for (group, range, file, pages, end) in [
        // the header, a page list of two clusters, and the footer with three groups
        (
            2,
            218,
            2000,
            [].as_slice(),
            End::NotBegun(BeginError::RangeTooLarge {
                len: 219,
                limit: 218,
            }),
        ),
        (2, 241, 2000, &[ONE, ONE], End::NotClosed(large(242, 241))),
        (
            1,
            237,
            2000,
            &[ONE, ONE, ONE],
            End::NotClosed(large(238, 237)),
        ),
        // the end behind the header, and behind all parts
        (
            2,
            2000,
            444,
            &[],
            End::NotBegun(BeginError::FileTooLarge {
                end: 445,
                limit: 444,
            }),
        ),
        (
            2,
            2000,
            1100,
            &[TWO],
            End::NotClosed(CloseError::FileTooLarge {
                end: 1137,
                limit: 1100,
            }),
        ),
        (2, 242, 1535, &[ONE, ONE, ONE], End::Closed),
    ] {
        let mut host = MemHost::new(rt.alloc());
        let shape = Shape {
            plain: true,
            staged: false,
            group,
            range,
            file,
        };
        let is = write_file(rt.alloc(), &mut host, &shape, pages, pages.len())?;
        assert_eq!(rt; is, end);
        let first = host.file("o").and_then(|f| f.first().copied());
        assert!(rt; first == Some(b'r') || is != End::Closed);
        assert!(rt; first != Some(b'r') || is == End::Closed);
    }
    Ok(())
}

#[test]
fn the_lowest_spoiled_range_is_told(rt: HostRuntime) -> Result<(), Fail> {
    let mut host = MemHost::new(rt.alloc());
    let pages = [ONE, ONE, ONE, ONE];
    let shape = Shape { group: 5, ..WIDE };
    let end = write_file(rt.alloc(), &mut host, &shape, &pages, 2)?;
    let told = CloseError::Spoiled {
        cluster: 2,
        faults: 2,
    };
    assert_eq!(rt; end, End::NotClosed(told));
    assert!(rt; lies_so(&host, 677, &[(0, b"\0oot")]));
    Ok(())
}

/// The file of these pages, with so many clusters a group, when this call of the disk fails, and its
/// first byte.
fn failing(
    alloc: Global,
    call: u64,
    group: u32,
    pages: &[&[u8]],
) -> Result<(End, Option<u8>), Fail> {
    let mut host = MemHost::new(alloc);
    host.fail(Object::Disk, call)?;
    let shape = Shape { group, ..WIDE };
    let end = write_file(alloc, &mut host, &shape, pages, pages.len())?;
    let first = host.file("o").and_then(|f| f.first().copied());
    Ok((end, first))
}

#[test]
fn a_torn_book_is_told(rt: HostRuntime) -> Result<(), Fail> {
    // three calls begin the file; then each cluster but the last has its page list in front of the next
    for (group, call, torn) in [(2, 6, 0), (1, 5, 0), (1, 7, 1)] {
        let (end, first) = failing(rt.alloc(), call, group, &[ONE, ONE, ONE])?;
        let told = CloseError::Torn {
            group: torn,
            faults: 1,
        };
        assert_eq!(rt; end, End::NotClosed(told));
        assert!(rt; first == Some(0));
    }
    Ok(())
}

#[test]
fn each_call_fails_in_turn(rt: HostRuntime) -> Result<(), Fail> {
    let begun = End::NotBegun(BeginError::Fault);
    let (end, _) = failing(rt.alloc(), 1, 2, &[TWO])?; // of such a file nothing is known
    assert_eq!(rt; end, begun);
    for call in [2, 3] {
        assert_eq!(rt; failing(rt.alloc(), call, 2, &[TWO])?, (begun, Some(0)));
    }
    // the fourth call appends the cluster; then the tail, the front, and the sync before the first byte
    let closed = End::NotClosed(CloseError::Fault);
    for call in [5, 6, 7] {
        assert_eq!(rt; failing(rt.alloc(), call, 2, &[TWO])?, (closed, Some(0)));
    }
    // that byte is the old one or the new one, and the new one when the sync behind it fails
    let (end, first) = failing(rt.alloc(), 8, 2, &[TWO])?;
    assert_eq!(rt; end, closed);
    assert!(rt; first == Some(0) || first == Some(b'r'));
    assert_eq!(rt; failing(rt.alloc(), 9, 2, &[TWO])?, (closed, Some(b'r')));
    assert_eq!(rt;
        failing(rt.alloc(), 10, 2, &[TWO])?,
        (End::Closed, Some(b'r'))
    );
    Ok(())
}

#[test]
fn staged_clusters_lie_in_the_order_of_their_commits(rt: HostRuntime) -> Result<(), Fail> {
    // the ranges of contexts 0, 1, 1 and 0 stand at 445, 503, 569 and 627, and end at 693
    let pages = [(0, ONE), (1, TWO), (1, ONE), (0, TWO)];
    for (group, len, places) in [
        // one page list behind them: of each cluster its first entry and its entries, and the page
        // with its elements, its place, and the elements before it; and the footer
        (
            1000,
            1547,
            [
                (487, ONE),
                (545, TWO),
                (611, ONE),
                (669, TWO),
                (735, b"\x03\0\x60\x01\0\0\0\0".as_slice()),
                (771, b"\0\0\0\0\0\0\0\0\x02\0\0\0\0\0\0\0"),
                (795, b"\x02\0\0\0\0\0\0\0\x01\0\0\0\0\0\0\0"),
                (819, b"\x03\0\0\0\0\0\0\0\x01\0\0\0\0\0\0\0"),
                (843, b"\x04\0\0\0\0\0\0\0\x02\0\0\0\0\0\0\0"),
                (903, b"\x21\x02\0\0\0\0\0\0\0\0\0\0\0\0\0\0"),
                (955, b"\x63\x02\0\0\0\0\0\0\x02\0\0\0\0\0\0\0"),
                (1007, b"\xe7\x01\0\0\0\0\0\0\x03\0\0\0\0\0\0\0"),
                (1059, b"\x9d\x02\0\0\0\0\0\0\x04\0\0\0\0\0\0\0"),
                (1129, b"\x02\0\x64\0"),
            ]
            .as_slice(),
        ),
        // a page list for each
        (
            1,
            1961,
            &[
                (735, b"\x03\0\x7c\0"),
                (831, b"\x21\x02\0\0\0\0\0\0\0"),
                (997, b"\x63\x02\0\0\0\0\0\0\x02"),
                (1163, b"\xe7\x01\0\0\0\0\0\0\x03"),
                (1329, b"\x9d\x02\0\0\0\0\0\0\x04"),
                (1399, b"\x02\0\xf4\0"),
            ],
        ),
    ] {
        let mut host = MemHost::new(rt.alloc());
        let shape = Shape {
            group,
            staged: true,
            ..WIDE
        };
        let end = write_staged(rt.alloc(), &mut host, &shape, &pages, false)?;
        let told = CloseError::Unpublished { range: 0 };
        assert_eq!(rt; end, End::NotClosed(told));
        assert!(rt; lies_so(&host, 693, &[(0, b"\0oot")]));
        let end = write_staged(rt.alloc(), &mut host, &shape, &pages, true)?;
        assert_eq!(rt; end, End::Closed);
        assert!(rt; lies_so(&host, len, places), "of {len}");
        assert!(rt; lies_so(&host, len, &[(0, b"root")]));
    }
    Ok(())
}
