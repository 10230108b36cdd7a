//! Frames, envelopes and locators, written and read.

use nt_frame::{
    EnvelopeFault, FrameFault, FrameOut, Locator, LocatorFault, read_envelope, read_list,
    read_locator, read_record, seal_envelope,
};
use nt_num::Cur;
use std::alloc::{AllocError, Global};
use std::test::*;

/// A list frame of two items, a record frame with a number and a string and a number of two bytes.
const ITEMS: [u8; 32] = [
    0xe0, 0xff, 0xff, 0xff, 0xff, 0xff, 0xff, 0xff, 2, 0, 0, 0, 0x12, 0, 0, 0, 0, 0, 0, 0, 7, 0, 0,
    0, 2, 0, 0, 0, b'h', b'i', 1, 2,
];

/// Bytes that begin no record frame.
const NO_RECORDS: [&[u8]; 6] = [
    b"\x08\0\0\0\0\0\0",
    b"\0\0\0\0\0\0\0\0",
    b"\x07\0\0\0\0\0\0\0",
    b"\x09\0\0\0\0\0\0\0",
    b"\0\0\0\0\0\0\0\x80",
    b"\xf4\xff\xff\xff\xff\xff\xff\xff\0\0\0\0",
];

/// Bytes that begin no list frame.
const NO_LISTS: [&[u8]; 6] = [
    b"\xf4\xff\xff\xff\xff\xff\xff\xff\0\0\0",
    b"\0\0\0\0\0\0\0\0\0\0\0\0",
    b"\x0c\0\0\0\0\0\0\0\0\0\0\0",
    b"\xf5\xff\xff\xff\xff\xff\xff\xff\0\0\0\0",
    b"\xf3\xff\xff\xff\xff\xff\xff\xff\0\0\0\0",
    b"\0\0\0\0\0\0\0\x80\0\0\0\0",
];

/// The bytes `abc` in an envelope of kind 1.
const SEALED: [u8; 19] = [
    1, 0, 0x13, 0, 0, 0, 0, 0, b'a', b'b', b'c', 0x37, 0x93, 0xd1, 0xd5, 0xe7, 0xf2, 0x36, 0x09,
];

/// Whether a record frame in a list frame is written.
fn frames_inside_frames(alloc: Global) -> Result<bool, AllocError> {
    let mut out = FrameOut::new(Vec::new(alloc));
    out.begin_list(2)?;
    out.begin_record()?;
    out.put_u32le(7)?;
    out.text(b"hi")?;
    out.finish();
    out.put_u16be(0x0102)?;
    out.finish();
    Ok(out.into_bytes().as_slice() == ITEMS.as_slice())
}

/// Whether numbers are written in either order.
fn numbers_in_either_order(alloc: Global) -> Result<bool, AllocError> {
    let mut out = FrameOut::new(Vec::from_slice(alloc, &[9])?);
    out.put_u16le(0x0102)?;
    out.put_u64le(0x0102_0304_0506_0708)?;
    out.put_u32be(0x0102_0304)?;
    out.put_u64be(0x0102_0304_0506_0708)?;
    let expected = [
        9, 2, 1, 8, 7, 6, 5, 4, 3, 2, 1, 1, 2, 3, 4, 1, 2, 3, 4, 5, 6, 7, 8u8,
    ];
    Ok(out.into_bytes().as_slice() == expected.as_slice())
}

/// Whether a record frame in a list frame is read.
fn frames_are_read() -> bool {
    let mut cur = Cur::new(&ITEMS);
    let Ok((count, mut items)) = read_list(&mut cur) else {
        return false;
    };
    let Ok(inside) = read_record(&mut items) else {
        return false;
    };
    (count, cur.place(), cur.left()) == (2, 32, 0)
        && (inside.place(), inside.left()) == (20, 10)
        && (items.place(), items.left()) == (30, 2)
}

/// Whether frames that are none are refused, and nothing is read of them.
fn malformed_frames() -> bool {
    for bytes in NO_RECORDS {
        let mut cur = Cur::new(bytes);
        let is_refused = matches!(read_record(&mut cur), Err(FrameFault { at: 0 }));
        if !is_refused || (cur.place(), cur.left()) != (0, bytes.len()) {
            return false;
        }
    }
    for bytes in NO_LISTS {
        let mut cur = Cur::new(bytes);
        let is_refused = matches!(read_list(&mut cur), Err(FrameFault { at: 0 }));
        if !is_refused || (cur.place(), cur.left()) != (0, bytes.len()) {
            return false;
        }
    }
    true
}

/// Whether an envelope is sealed and read.
fn envelopes(alloc: Global) -> Result<bool, AllocError> {
    let sealed = seal_envelope(alloc, 1, b"abc")?;
    let is_read = matches!(read_envelope(&SEALED, 1), Ok(inside) if inside == b"abc".as_slice());
    let is_other = matches!(
        read_envelope(&SEALED, 2),
        Err(EnvelopeFault::Kind { kept: 1 })
    );
    Ok(sealed.as_slice() == SEALED.as_slice() && is_read && is_other)
}

/// Whether an envelope of another length or with another byte is refused.
fn spoiled_envelopes(alloc: Global) -> Result<bool, AllocError> {
    let mut longer = Vec::from_slice(alloc, &SEALED)?;
    longer.push(0)?;
    for bytes in [longer.as_slice(), &SEALED[..18], &SEALED[..15]] {
        if !matches!(read_envelope(bytes, 1), Err(EnvelopeFault::Size)) {
            return Ok(false);
        }
    }
    let mut other = SEALED;
    other[10] = b'd';
    let fault = EnvelopeFault::Checksum {
        kept: 0x0936_f2e7_d5d1_9337,
        found: 0xede6_7c31_5129_9449,
    };
    Ok(read_envelope(&other, 1).err() == Some(fault))
}

/// Whether locators are read, and others refused.
fn locators() -> bool {
    let bytes = [0, 0, 0, 0x80, 5, 0, 0, 0, 1, 2, 0, 0, 0, 0, 0, 0u8];
    let found = Locator {
        size: 5,
        place: 0x0201,
    };
    let rows = [
        (&bytes[4..], Ok(found), 12),
        (
            &bytes[..5],
            Err(LocatorFault::NotSimple { word: 0x8000_0000 }),
            0,
        ),
        (&bytes[4..15], Err(LocatorFault::Short), 0),
        (&bytes[..3], Err(LocatorFault::Short), 0),
    ];
    for (bytes, read, place) in rows {
        let mut cur = Cur::new(bytes);
        if read_locator(&mut cur) != read || cur.place() != place {
            return false;
        }
    }
    true
}

#[test]
fn frames(rt: HostRuntime) {
    let alloc = rt.alloc();
    for (holds, name) in [
        (frames_inside_frames(alloc), "frames inside frames"),
        (numbers_in_either_order(alloc), "numbers in either order"),
        (Ok(frames_are_read()), "frames are read"),
        (Ok(malformed_frames()), "malformed frames"),
        (envelopes(alloc), "envelopes"),
        (spoiled_envelopes(alloc), "spoiled envelopes"),
        (Ok(locators()), "locators"),
    ] {
        assert!(rt; holds == Ok(true), "{name}");
    }
}
