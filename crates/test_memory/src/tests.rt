//! What is read, printed and kept at calls that fail.

use nt_lists::Bytes;
use nt_memory::{Calls, MemDisk, MemExt, MemFile, MemHost, MemSource, Object};
use nt_outside::{Disk, Ext, Failed, Host, Pen, Refused, read_front};
use std::alloc::{AllocError, Global};
use std::test::Fail;

pub fn failing(alloc: Global, numbers: &[u64]) -> Result<Calls, AllocError> {
    Ok(Calls::from_vec(numbers.to_vec(alloc)?))
}

#[test]
fn a_text_is_read_in_pieces(rt: HostRuntime) -> Result<(), Fail> {
    let alloc = rt.alloc();
    let text = vec![in alloc; 7u8; 150_000]?;
    // two whole pieces, a shorter one and the end are four reads
    for (number, fails) in [(1, true), (2, true), (4, true), (5, false)] {
        let bytes = Bytes::from_vec(text.to_vec(alloc)?);
        let mut source = MemSource::new(bytes, failing(alloc, &[number])?);
        match read_front(alloc, &mut source, 200_000) {
            Ok(front) => assert!(rt;
                !fails && front.as_slice() == text.as_slice(),
                "at {number}"
            ),
            Err(error) => assert!(rt; fails && error == Refused::Failed, "at {number}"),
        }
    }
    Ok(())
}

/// Appends twice and syncs between, on a disk of its own, and says how many of these calls failed.
fn appended(host: &mut MemHost) -> Result<u64, Refused> {
    let mut disk = host.create("out")?;
    disk.room(3, 8)?;
    let _ = disk.append(b"abcd");
    let _ = disk.sync();
    let _ = disk.append(b"efgh");
    let faults = disk.faults();
    host.return_disk(disk);
    Ok(faults)
}

#[test]
fn calls_fail_by_their_number_over_all_objects(rt: HostRuntime) -> Result<(), Fail> {
    let mut host = MemHost::new(rt.alloc());
    host.fail_call(3)?;
    assert!(rt; appended(&mut host) == Ok(1) && host.calls() == 4);
    assert!(rt; host.file("out") == Some(b"abcdefgh".as_slice()));
    host.stop_after(2)?;
    assert!(rt; appended(&mut host) == Ok(1) && host.calls() == 3);
    assert!(rt; host.file("out") == Some(b"abcdef".as_slice()));
    Ok(())
}

#[test]
fn a_crash_leaves_what_was_synced(rt: HostRuntime) -> Result<(), Fail> {
    let mut host = MemHost::new(rt.alloc());
    assert!(rt; appended(&mut host) == Ok(0));
    let mut files = Vec::new(rt.alloc());
    for pick in 0..3u8 {
        if let Some(bytes) = host.crash("out", 3, pick)? {
            files.extend_from_slice(bytes.as_slice())?;
        }
    }
    assert!(rt; files.as_slice() == b"abcdabcdefghabcd\xff\xff\xff\xff".as_slice());
    Ok(())
}

#[test]
fn a_pen_fails_by_its_number(rt: HostRuntime) -> Result<(), Fail> {
    let alloc = rt.alloc();
    let mut host = MemHost::new(alloc);
    host.fail(Object::Pen(1), 1)?;
    let mut disk = host.create("out")?;
    let mut first = disk.pen()?;
    let mut second = disk.pen()?;
    let mut whole = disk.reserve(2)?;
    let mut torn = disk.reserve(2)?;
    assert_eq!(rt; first.fill(&mut whole, b"ab"), Ok(()));
    assert_eq!(rt; second.fill(&mut torn, b"cd"), Err(Failed));
    assert_eq!(rt; (torn.filled(), second.faults()), (false, 1));
    disk.return_pen(second);
    assert_eq!(rt; disk.faults(), 1);
    disk.settle(torn);
    disk.settle(whole);
    disk.return_pen(first);
    host.return_disk(disk);
    assert!(rt; host.file("out") == Some(b"ab\0\0".as_slice()));
    Ok(())
}

/// Reads the text of a name.
fn text_of(alloc: Global, host: &mut MemHost, name: &str) -> Result<Vec<u8>, Refused> {
    let mut text = host.open_text(name)?;
    let front = read_front(alloc, &mut text, 9);
    host.return_text(text);
    front
}

#[test]
fn a_name_that_is_not_there_fails(rt: HostRuntime) -> Result<(), Fail> {
    let alloc = rt.alloc();
    let mut host = MemHost::new(alloc);
    host.add("in", b"text")?;
    host.fail(Object::Host, 3)?;
    host.fail(Object::Text(1), 1)?;
    assert_eq!(rt;
        text_of(alloc, &mut host, "none").err(),
        Some(Refused::Failed)
    );
    assert_eq!(rt;
        text_of(alloc, &mut host, "in")?.as_slice(),
        b"text".as_slice()
    );
    assert_eq!(rt;
        text_of(alloc, &mut host, "in").err(),
        Some(Refused::Failed),
        "the third open"
    );
    assert_eq!(rt;
        text_of(alloc, &mut host, "in").err(),
        Some(Refused::Failed),
        "the second text"
    );
    assert_eq!(rt;
        text_of(alloc, &mut host, "in")?.as_slice(),
        b"text".as_slice()
    );
    Ok(())
}

fn crosses<T: Send>(value: T) -> T {
    value
}

fn extents_cross(ext: MemExt) -> MemExt {
    crosses(ext)
}

#[test]
fn each_object_crosses_to_another_thread(rt: HostRuntime) -> Result<(), Fail> {
    let alloc = rt.alloc();
    let _host = crosses(MemHost::new(alloc));
    let mut disk = crosses(MemDisk::new(alloc, failing(alloc, &[])?, Vec::new(alloc)));
    let _pen = crosses(disk.pen()?);
    let _text = crosses(MemSource::new(Bytes::from_vec(Vec::new(alloc)), failing(alloc, &[])?));
    let _file = crosses(MemFile::new(Bytes::from_vec(Vec::new(alloc)), failing(alloc, &[])?));
    Ok(())
}
