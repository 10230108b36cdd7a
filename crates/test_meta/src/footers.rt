//! Footers, whole, bent and cut.

use crate::payloads::{EXTENDED, FOOTER, LONGER_FOOTER, MANY, NO_GROUP, SUM, WIDE};
use nt_meta::{MetaError, read_footer};
use nt_num::ReadError;
use nt_schema::Schema;
use std::alloc::{AllocError, Global};

/// Groups, and of the last one its first entry, span, clusters and link; fields and columns.
type Told = (usize, u64, u64, u32, u64, u32, u64, u32, u32);

fn read(alloc: Global, bytes: &[u8]) -> Result<Told, MetaError> {
    let mut schema = Schema::new(alloc);
    let groups = read_footer(alloc, bytes, SUM, &mut schema)?;
    let mut told = (groups.as_slice().len(), 0, 0, 0, 0, 0, 0, 0, 0);
    for group in groups.as_slice() {
        told.1 = group.first;
        told.2 = group.span;
        told.3 = group.clusters;
        told.4 = group.link.length;
        told.5 = group.link.at.size;
        told.6 = group.link.at.place;
    }
    told.7 = schema.fields();
    told.8 = schema.columns();
    Ok(told)
}

fn fault(code: u8, at: u64, kept: u64, found: u64) -> Option<MetaError> {
    Some(MetaError::Defect(ReadError {
        code,
        at,
        cluster: 0,
        column: 0,
        element: 0,
        kept,
        found,
    }))
}

/// Footers, and what is read of them.
const READ: [(&[u8], Told); 4] = [
    (&FOOTER, (1, 0, 2, 1, 124, 124, 553, 0, 0)),
    (&LONGER_FOOTER, (1, 0, 2, 1, 124, 124, 553, 0, 0)),
    (&NO_GROUP, (0, 0, 0, 0, 0, 0, 0, 0, 0)),
    (&EXTENDED, (1, 0, 2, 1, 124, 124, 553, 1, 1)),
];

/// Whether groups are read.
fn groups_are_read(alloc: Global) -> bool {
    for (bytes, told) in READ {
        if read(alloc, bytes).ok() != Some(told) {
            return false;
        }
    }
    true
}

/// A byte, what it is changed to, and the code, place, kept and found value of the fault.
const FAULTS: [(usize, u8, u8, u64, u64, u64); 9] = [
    (0, 1, 13, 0, 0, 1), // a feature flag
    (8, 9, 16, 8, SUM + 8, SUM), // another header
    (16, 7, 12, 16, 0, 0), // no record frame of an extension
    (31, 0, 12, 24, 0, 0), // no list frame of groups
    (32, 2, 12, 84, 0, 0), // two groups
    (36, 0x2f, 12, 76, 0, 0), // a short record, and so a short locator
    (44, 1, 17, 36, 0, 0), // the first entry is 1
    (75, 0x80, 17, 36, 0, 0), // another type of locator
    (36, 0x17, 12, 52, 0, 0), // a short span
];

/// Whether each byte that is changed makes its fault.
fn each_fault_stands_where_it_shows(alloc: Global) -> Result<bool, AllocError> {
    for (byte, to, code, at, kept, found) in FAULTS {
        let mut bytes = FOOTER.to_vec(alloc)?;
        if let Some(place) = bytes.get_mut(byte) {
            *place = to;
        }
        if read(alloc, &bytes).err() != fault(code, at, kept, found) {
            return Ok(false);
        }
    }
    Ok(true)
}

/// Whether the sums of groups that pass their numbers are refused.
fn sums_of_groups_fit_their_numbers(alloc: Global) -> bool {
    read(alloc, &WIDE).err() == fault(17, 84, 0, 0)
        && read(alloc, &MANY).err() == fault(17, 84, 0, 0)
}

/// Whether a footer that is cut is short in its outermost part.
fn a_cut_footer_is_short(alloc: Global) -> bool {
    for len in 0..FOOTER.len() {
        let at = if len < 8 {
            0
        } else if len < 16 {
            8
        } else if len < 24 {
            16
        } else {
            24
        };
        if read(alloc, &FOOTER[..len]).err() != fault(12, at, 0, 0) {
            return false;
        }
    }
    true
}

#[test]
fn footers(rt: HostRuntime) {
    let alloc = rt.alloc();
    for (holds, name) in [
        (Ok(groups_are_read(alloc)), "groups are read"),
        (each_fault_stands_where_it_shows(alloc), "each fault"),
        (
            Ok(sums_of_groups_fit_their_numbers(alloc)),
            "sums of groups",
        ),
        (Ok(a_cut_footer_is_short(alloc)), "a cut footer"),
    ] {
        assert!(rt; holds == Ok(true), "{name}");
    }
}
