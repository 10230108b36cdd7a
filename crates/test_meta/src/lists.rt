//! Page lists, whole, bent and cut.

use crate::payloads::{LONGER, ONE, SUM, TWO};
use nt_format::{Link, Locator};
use nt_meta::{KnownColumns, MetaError, Progress, read_page_list};
use nt_num::ReadError;
use nt_pagelists::{ClusterLists, Group, KnownColumn};
use std::alloc::{AllocError, Global};

/// What is known of the one column: whether it is open, and its first element.
type Known = (bool, u64);

fn column(is_open: bool, first: u64) -> KnownColumn {
    KnownColumn {
        is_open,
        is_principal: true,
        first,
    }
}

fn one_known(alloc: Global, known: Known) -> Result<KnownColumns, AllocError> {
    KnownColumns::from_vec(alloc, vec![in alloc; column(known.0, known.1)]?)
}

fn two_known(alloc: Global, first: u64) -> Result<KnownColumns, AllocError> {
    KnownColumns::from_vec(alloc, vec![in alloc; column(true, 0), column(true, first)]?)
}

fn read(
    alloc: Global,
    bytes: &[u8],
    span: u64,
    clusters: u32,
    known: &KnownColumns,
) -> Result<(ClusterLists, Progress), MetaError> {
    let group = Group {
        first: 0,
        span,
        clusters,
        link: Link {
            length: 124,
            at: Locator {
                size: 124,
                place: 553,
            },
        },
    };
    let mut so_far = Progress::new(alloc, known.len() as u32)?;
    let lists = read_page_list(alloc, bytes, SUM, &group, known, &mut so_far)?;
    Ok((lists, so_far))
}

/// Clusters, entries and elements read; of the last page its count, size and place, and its
/// column's offset.
type Told = (u32, u64, u64, u32, u32, u64, i64);

fn told(lists: &ClusterLists, so_far: &Progress) -> Told {
    let mut told = (so_far.clusters(), so_far.entries(), 0, 0, 0, 0, -1);
    for count in so_far.elements() {
        told.2 = *count;
    }
    for list in lists.as_slice() {
        for column in list.columns.as_slice() {
            told.6 = column.offset;
            for page in column.pages.as_slice() {
                told.3 = page.count;
                told.4 = page.size;
                told.5 = page.place;
            }
        }
    }
    told
}

fn fault(code: u8, at: u64, kept: u64, found: u64) -> Option<MetaError> {
    Some(MetaError::Defect(ReadError {
        code,
        at,
        cluster: 0,
        column: 0,
        element: 0,
        kept,
        found,
    }))
}

fn fault_in(code: u8, at: u64, cluster: u32, column: u32) -> Option<MetaError> {
    Some(MetaError::Defect(ReadError {
        code,
        at,
        cluster,
        column,
        element: 0,
        kept: 0,
        found: 0,
    }))
}

/// Whether the page list of one cluster with some bytes changed has this fault.
fn has_fault(
    alloc: Global,
    changes: &[(usize, u8)],
    known: Known,
    fault: Option<MetaError>,
) -> Result<bool, AllocError> {
    let mut bytes = ONE.to_vec(alloc)?;
    for (at, to) in changes {
        if let Some(byte) = bytes.get_mut(*at) {
            *byte = *to;
        }
    }
    let columns = one_known(alloc, known)?;
    Ok(read(alloc, &bytes, 2, 1, &columns).err() == fault)
}

/// Whether this is told of a page list.
fn is_told(
    alloc: Global,
    bytes: &[u8],
    numbers: (u64, u32),
    known: &KnownColumns,
    want: Told,
) -> bool {
    match read(alloc, bytes, numbers.0, numbers.1, known) {
        Ok((lists, so_far)) => told(&lists, &so_far) == want,
        Err(_) => false,
    }
}

/// Whether one page is read, and what is behind the known contents skipped.
fn one_page_is_read(alloc: Global) -> Result<bool, AllocError> {
    let known = one_known(alloc, (true, 0))?;
    let want = (1, 2, 2, 2, 16, 487, 0);
    let is_read = is_told(alloc, &ONE, (2, 1), &known, want);
    Ok(is_read && is_told(alloc, &LONGER, (2, 1), &known, want))
}

/// A byte, what it is changed to, and the code and place of the fault.
const FAULTS: [(usize, u8, u8, u64); 15] = [
    (15, 0x00, 12, 8), // no list frame of summaries
    (16, 2, 17, 8), // two summaries
    (20, 0x17, 12, 36), // a short summary
    (28, 1, 18, 20), // the first entry is 1
    (36, 3, 17, 8), // three entries
    (43, 1, 18, 20), // a flag
    (52, 2, 17, 44), // two clusters
    (64, 2, 19, 56), // two columns
    (64, 0, 18, 56), // none
    (68, 0xd9, 12, 104), // a short list of pages
    (80, 0xfd, 18, 68), // three elements
    (87, 0x80, 19, 80), // another type of locator
    (68, 0xe5, 12, 88), // a short locator
    (96, 1, 18, 68), // the offset is 1
    (103, 0x80, 19, 68), // a negative offset
];

/// Whether each byte that is changed makes its fault.
fn each_fault_stands_where_it_shows(alloc: Global) -> Result<bool, AllocError> {
    for (byte, to, code, at) in FAULTS {
        if !has_fault(alloc, &[(byte, to)], (true, 0), fault(code, at, 0, 0))? {
            return Ok(false);
        }
    }
    let least = [(80, 0), (81, 0), (82, 0), (83, 0x80)];
    let is_least = has_fault(alloc, &least, (true, 0), fault(19, 80, 0, 0))?;
    let other = fault(16, 0, SUM + 8, SUM);
    Ok(is_least && has_fault(alloc, &[(0, 9)], (true, 0), other)?)
}

/// A change, if any, what is known of the column, and the code and place of the fault, if there is one.
const JUDGED: [(&[(usize, u8)], Known, Option<(u8, u64)>); 8] = [
    // a closed column is not judged
    (&[(103, 0x80)], (false, 1), None),
    (&[(80, 0xfd)], (false, 1), None),
    (&[(64, 0)], (false, 1), None),
    (&[(96, 1)], (false, 1), None),
    // a column may begin behind a cluster, and not inside
    (&[], (true, 1), Some((20, 68))),
    (&[(64, 0)], (true, 1), Some((20, 56))),
    (&[], (true, 2), Some((18, 68))),
    (&[(64, 0)], (true, 2), None),
];

/// Whether columns are judged so by what is known of them.
fn columns_are_judged(alloc: Global) -> Result<bool, AllocError> {
    for (changes, known, wrong) in JUDGED {
        let fault = match wrong {
            Some((code, at)) => fault(code, at, 0, 0),
            None => None,
        };
        if !has_fault(alloc, changes, known, fault)? {
            return Ok(false);
        }
    }
    Ok(true)
}

/// Where the second column begins, and the fault of two clusters then.
const DEFERRED: [(u64, u8, u64, u32); 3] = [(1, 20, 80, 0), (0, 18, 80, 0), (3, 20, 184, 1)];

/// Whether a deferred column has its elements from its first cluster on.
fn a_deferred_column_has_its_elements(alloc: Global) -> Result<bool, AllocError> {
    for (first, code, at, cluster) in DEFERRED {
        let known = two_known(alloc, first)?;
        if read(alloc, &TWO, 4, 2, &known).err() != fault_in(code, at, cluster, 1) {
            return Ok(false);
        }
    }
    let known = two_known(alloc, 2)?;
    Ok(is_told(alloc, &TWO, (4, 2), &known, (2, 4, 2, 2, 16, 700, 2)))
}

/// Whether a list that is cut is short in its outermost part.
fn a_cut_list_is_short(alloc: Global) -> Result<bool, AllocError> {
    let known = one_known(alloc, (true, 0))?;
    for len in 0..ONE.len() {
        let at = if len < 8 {
            0
        } else if len < 44 {
            8
        } else {
            44
        };
        if read(alloc, &ONE[..len], 2, 1, &known).err() != fault(12, at, 0, 0) {
            return Ok(false);
        }
    }
    Ok(true)
}

#[test]
fn lists(rt: HostRuntime) {
    let alloc = rt.alloc();
    for (holds, name) in [
        (one_page_is_read(alloc), "one page is read"),
        (each_fault_stands_where_it_shows(alloc), "each fault"),
        (columns_are_judged(alloc), "columns are judged"),
        (
            a_deferred_column_has_its_elements(alloc),
            "a deferred column",
        ),
        (a_cut_list_is_short(alloc), "a cut list"),
    ] {
        assert!(rt; holds == Ok(true), "{name}");
    }
}
