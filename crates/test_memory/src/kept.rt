//! What files, streams and disks keep, at calls that fail and at others.

use crate::tests::failing;
use nt_lists::Bytes;
use nt_memory::{MemDisk, MemFile, MemHost, Object};
use nt_outside::{Disk, Ext, Failed, Host, Pen, ReadAt, Stream, print_all};
use std::test::Fail;

#[test]
fn a_file_is_read_at_any_place(rt: HostRuntime) -> Result<(), Fail> {
    let alloc = rt.alloc();
    let mut file = MemFile::new(
        Bytes::from_vec(b"abcdef".to_vec(alloc)?),
        failing(alloc, &[3])?,
    );
    let mut buf = [0; 4];
    assert_eq!(rt; file.size(), Ok(6));
    assert_eq!(rt; file.read_at(1, &mut buf), Ok(4));
    assert_eq!(rt; buf, *b"bcde");
    assert_eq!(rt; file.read_at(0, &mut buf), Err(Failed));
    assert_eq!(rt; file.read_at(4, &mut buf), Ok(2));
    assert_eq!(rt; buf, *b"efde");
    assert_eq!(rt; file.read_at(9, &mut buf), Ok(0));
    Ok(())
}

#[test]
fn a_failed_print_leaves_its_stream(rt: HostRuntime) -> Result<(), Fail> {
    let mut host = MemHost::new(rt.alloc());
    host.fail(Object::Host, 2)?;
    assert_eq!(rt; print_all(&mut host, Stream::ToOut, b"one"), Ok(()));
    assert_eq!(rt; print_all(&mut host, Stream::ToErr, b"two"), Err(Failed));
    assert_eq!(rt; print_all(&mut host, Stream::ToErr, b"three"), Ok(()));
    assert_eq!(rt; host.out(), b"one".as_slice());
    assert_eq!(rt; host.err(), b"three".as_slice());
    Ok(())
}

#[test]
fn a_failed_append_leaves_nothing(rt: HostRuntime) -> Result<(), Fail> {
    let mut host = MemHost::new(rt.alloc());
    host.fail(Object::Disk, 2)?;
    let mut disk = host.create("out")?;
    disk.room(3, 9)?;
    assert_eq!(rt; disk.append(b"abc"), Ok(()));
    assert_eq!(rt; disk.append(b"def"), Err(Failed));
    host.return_disk(disk);
    assert!(rt; host.file("out") == Some(b"abc".as_slice()));
    Ok(())
}

#[test]
fn a_failed_write_leaves_what_was_there(rt: HostRuntime) -> Result<(), Fail> {
    let mut host = MemHost::new(rt.alloc());
    host.fail(Object::Disk, 3)?;
    let mut disk = host.create("out")?;
    disk.room(3, 9)?;
    assert_eq!(rt; disk.append(b"abcd"), Ok(()));
    assert_eq!(rt; disk.write_at(1, b"XY"), Ok(()));
    assert_eq!(rt; disk.write_at(0, b"Z"), Err(Failed));
    host.return_disk(disk);
    assert!(rt; host.file("out") == Some(b"aXYd".as_slice()));
    Ok(())
}

#[test]
fn a_failed_sync_is_a_fault(rt: HostRuntime) -> Result<(), Fail> {
    let alloc = rt.alloc();
    let mut disk = MemDisk::new(alloc, failing(alloc, &[1])?, Vec::new(alloc));
    disk.room(2, 0)?;
    assert_eq!(rt; disk.sync(), Err(Failed));
    assert_eq!(rt; disk.sync(), Ok(()));
    assert_eq!(rt; disk.faults(), 1);
    Ok(())
}

#[test]
fn ranges_are_settled_in_any_order(rt: HostRuntime) -> Result<(), Fail> {
    let alloc = rt.alloc();
    let mut host = MemHost::new(alloc);
    let mut disk = host.create("out")?;
    disk.room(2, 12)?;
    assert_eq!(rt; disk.append(b"0123456789"), Ok(()));
    let mut pen = disk.pen()?;
    let mut first = disk.reserve(4)?;
    let mut second = disk.reserve(3)?;
    assert_eq!(rt; (first.start(), second.start()), (10, 14));
    assert_eq!(rt; disk.append(b"\xaa\xbb"), Ok(()));
    assert_eq!(rt; disk.end(), 19);
    assert_eq!(rt; pen.fill(&mut second, &[1, 2, 3]), Ok(()));
    disk.settle(second);
    assert_eq!(rt; pen.fill(&mut first, &[5, 6, 7, 8]), Ok(()));
    disk.settle(first);
    disk.return_pen(pen);
    assert_eq!(rt; disk.faults(), 0);
    host.return_disk(disk);
    assert!(rt;
        host.file("out") == Some(b"0123456789\x05\x06\x07\x08\x01\x02\x03\xaa\xbb".as_slice())
    );
    Ok(())
}

#[test]
fn a_range_of_no_bytes_stands_in_nobodys_way(rt: HostRuntime) -> Result<(), Fail> {
    let alloc = rt.alloc();
    let mut disk = MemDisk::new(alloc, failing(alloc, &[])?, Vec::new(alloc));
    let one = disk.reserve(0)?;
    let other = disk.reserve(0)?;
    assert_eq!(rt; (one.start(), other.start()), (0, 0));
    disk.settle(other);
    disk.settle(one);
    assert_eq!(rt; disk.end(), 0);
    Ok(())
}

#[test]
fn a_disk_replaces_the_older_file(rt: HostRuntime) -> Result<(), Fail> {
    let mut host = MemHost::new(rt.alloc());
    host.add("out", b"oldest")?;
    host.add("out", b"older")?;
    assert!(rt; host.file("out") == Some(b"older".as_slice()));
    let disk = host.create("out")?;
    assert!(rt; host.file("out") == Some(b"older".as_slice()));
    host.return_disk(disk);
    assert!(rt; host.file("out") == Some(b"".as_slice()));
    Ok(())
}

#[test]
fn a_file_fails_by_its_number(rt: HostRuntime) -> Result<(), Fail> {
    let mut host = MemHost::new(rt.alloc());
    host.add("in", b"text")?;
    host.fail(Object::File(0), 2)?;
    let mut file = host.open_file("in")?;
    assert_eq!(rt; file.size(), Ok(4));
    assert_eq!(rt; file.size(), Err(Failed));
    host.return_file(file);
    Ok(())
}
