use super::*;
use std::test::*;

const BYTES: [u8; 8] = [0x01, 0x02, 0x03, 0x04, 0xfd, 0xff, 0xff, 0xff];

#[test]
fn short_stays(rt: HostRuntime) -> Result<(), Fail> {
    let mut cur = Cur::new(&BYTES[..3]);
    assert_eq!(rt; cur.u32le(), Err(Short));
    assert_eq!(rt; (cur.place(), cur.left()), (0, 3));
    assert_eq!(rt; cur.u16le(), Ok(0x0201));
    assert_eq!(rt; (cur.place(), cur.left()), (2, 1));
    assert_eq!(rt; cur.rest(), [3u8].as_slice());
    assert_eq!(rt; cur.fork().u8(), Ok(3));
    assert_eq!(rt; cur.place(), 2);
    Ok(())
}

#[test]
fn orders_and_signs(rt: HostRuntime) -> Result<(), Fail> {
    assert_eq!(rt; Cur::new(&BYTES).u8(), Ok(1));
    assert_eq!(rt; Cur::new(&BYTES).u16be(), Ok(0x0102));
    assert_eq!(rt; Cur::new(&BYTES).u32be(), Ok(0x0102_0304));
    assert_eq!(rt; Cur::new(&BYTES).u32le(), Ok(0x0403_0201));
    assert_eq!(rt; Cur::new(&BYTES).u64be(), Ok(0x0102_0304_fdff_ffff));
    assert_eq!(rt; Cur::new(&BYTES).u64le(), Ok(0xffff_fffd_0403_0201));
    assert_eq!(rt; Cur::new(&BYTES).i64le(), Ok(-0x2_fbfc_fdff));
    assert_eq!(rt; Cur::new(&BYTES[4..]).i32le(), Ok(-3));
    Ok(())
}

#[test]
fn parts_keep_places(rt: HostRuntime) -> Result<(), Fail> {
    let mut cur = Cur::new(&BYTES);
    let skipped = cur.bytes(3).ok().ok_or("three bytes")?;
    assert_eq!(rt; skipped, [1u8, 2, 3].as_slice());
    let mut part = cur.part(2).ok().ok_or("two more")?;
    assert_eq!(rt; (part.place(), part.left()), (3, 2));
    assert_eq!(rt; part.u16le(), Ok(0xfd04));
    assert_eq!(rt; (part.place(), part.u8()), (5, Err(Short)));
    assert_eq!(rt; (cur.place(), cur.left()), (5, 3));
    assert_eq!(rt; cur.part(4).is_err(), true);
    Ok(())
}

#[test]
fn written(rt: HostRuntime) -> Result<(), Fail> {
    let mut out = Vec::new(rt.alloc());
    put_u16le(&mut out, 0x0102)?;
    put_u16be(&mut out, 0x0102)?;
    put_u32le(&mut out, 0x0304_0506)?;
    put_u32be(&mut out, 0x0304_0506)?;
    put_u64le(&mut out, 0x0708_090a_0b0c_0d0e)?;
    put_u64be(&mut out, 0x0708_090a_0b0c_0d0e)?;
    let expected = [
        2, 1, 1, 2, 6, 5, 4, 3, 3, 4, 5, 6, 14, 13, 12, 11, 10, 9, 8, 7, 7, 8, 9, 10, 11, 12, 13,
        14u8,
    ];
    assert_eq!(rt; out.as_slice(), expected.as_slice());
    Ok(())
}

#[test]
fn names(rt: HostRuntime) {
    let table = [
        (0, "Unknown"),
        (1, "Unfinished"),
        (12, "BadFrame"),
        (22, "BadValue"),
        (23, "Unknown"),
    ];
    for (code, name) in table {
        let fault = ReadError {
            code,
            at: 0,
            cluster: 0,
            column: 0,
            element: 0,
            kept: 0,
            found: 0,
        };
        assert_eq!(rt; fault.name(), name);
    }
}
