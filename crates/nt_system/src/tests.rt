//! The real outside over files that take and give only some bytes at a time, or fail.

mod names;
mod slow;

ghost use Rattle.std.specs.Prelude.{◌≡◌, [], IfOk};

use crate::disk::RealDisk;
use crate::faults::Faults;
use crate::file::RealFile;
use crate::host::{RealHost, print_on};
use crate::named::{FileId, Named};
use crate::range::{RealExt, RealPen};
use crate::text::RealText;
use nt_outside::{Disk, Ext, Failed, Host, Pen, Range, ReadAt, Refused, Source};
use slow::Slow;
use std::alloc::AllocError;
use std::fs::File;
use std::process::Abort;
use std::test::Fail;

/// A disk over such a file, of this name.
fn new_disk(rt: &HostRuntime, name: &str, calls: u32) -> Result<RealDisk<Slow>, AllocError>
    ensures end { IfOk result (λ d. d.end ≡ 0) }
    ensures out { IfOk result (λ d. d.out.items ≡ []) }
{
    let name = String::from_str(rt.alloc(), name)?;
    Ok(RealDisk {
        named: Named {
            rt: *rt,
            name,
            id: FileId {
                device: 0,
                number: 0,
            },
        },
        file: Slow::failing_after(calls),
        is_new: true,
        end: 0,
        out: Vec::new(rt.alloc()),
        faults: Faults::NONE,
    })
}

#[test]
fn short_reads_go_on_to_the_end(rt: HostRuntime) {
    // a read of six bytes from place 3 gives three, two and none
    for (calls, want) in [(1, Err(Failed)), (2, Err(Failed)), (3, Ok(5))] {
        let mut file = RealFile {
            file: Slow::failing_after(calls),
            faults: Faults::NONE,
        };
        let mut buf = [0; 6];
        file.file.interrupted.set(2);
        assert_eq!(rt; file.read_at(3, &mut buf), want, "after {calls}");
        assert_eq!(rt;
            file.faults.count,
            u64::from(want.is_err()),
            "after {calls}"
        );
        assert!(rt; want.is_err() || buf == *b"defgh\0", "after {calls}");
        assert_eq!(rt; file.size(), Err(Failed));
    }
}

/// An append of five bytes that fails after so many calls, and one of a single byte after it.
fn append_twice(rt: &impl Abort, disk: RealDisk<Slow>, calls: u32) -> (u64, [u8; 8])
    requires { disk.end ≡ 0 }
{
    let mut disk = disk;
    assert_eq!(rt; disk.append(b"VWXYZ").is_ok(), calls >= 2, "after {calls}");
    disk.file.calls.set(1);
    assert_eq!(rt; disk.append(b"."), Ok(()), "after {calls}");
    assert_eq!(rt; disk.faults() == 0, calls >= 2, "after {calls}");
    (disk.end(), disk.file.bytes.get())
}

#[test]
fn a_failed_append_ends_where_its_bytes_end(rt: HostRuntime) -> Result<(), Fail> {
    assert_eq!(rt;
        append_twice(&rt, new_disk(&rt, ".", 0)?, 0),
        (1, *b".bcdefgh")
    );
    assert_eq!(rt;
        append_twice(&rt, new_disk(&rt, ".", 1)?, 1),
        (4, *b"VWX.efgh")
    );
    assert_eq!(rt;
        append_twice(&rt, new_disk(&rt, ".", 2)?, 2),
        (6, *b"VWXYZ.gh")
    );
    Ok(())
}

#[test]
fn a_full_disk_counts_each_failure(rt: HostRuntime) -> Result<(), Fail> {
    let mut disk = new_disk(&rt, ".", 9)?;
    assert_eq!(rt; disk.append(b"abcdefghi"), Err(Failed));
    assert_eq!(rt; (disk.end(), disk.faults()), (8, 1));
    assert_eq!(rt; disk.file.bytes.get(), *b"abcdefgh");
    disk.file.calls.set(1);
    assert_eq!(rt; disk.sync(), Ok(()));
    assert_eq!(rt; disk.sync(), Err(Failed));
    assert_eq!(rt; (disk.end(), disk.faults()), (8, 2));
    Ok(())
}

#[test]
fn an_interrupted_append_goes_on(rt: HostRuntime) -> Result<(), Fail> {
    let mut disk = new_disk(&rt, ".", 2)?;
    disk.file.interrupted.set(3);
    assert_eq!(rt; disk.append(b"VWXYZ"), Ok(()));
    assert_eq!(rt; disk.file.bytes.get(), *b"VWXYZfgh");
    assert_eq!(rt; (disk.end(), disk.faults()), (5, 0));
    Ok(())
}

#[test]
fn the_folder_of_a_new_file_is_synced_once(rt: HostRuntime) -> Result<(), Fail> {
    let mut disk = new_disk(&rt, ".", 9)?;
    assert_eq!(rt; disk.sync(), Ok(()));
    assert!(rt; !disk.is_new);
    let mut lost = new_disk(&rt, "no/such/folder", 9)?;
    assert_eq!(rt; lost.sync(), Err(Failed));
    assert_eq!(rt; lost.pen().err(), Some(Refused::Failed));
    lost.is_new = false;
    assert_eq!(rt; lost.sync(), Ok(()));
    assert_eq!(rt; lost.faults(), 2);
    Ok(())
}

#[test]
fn an_interrupted_print_goes_on(rt: HostRuntime) {
    let mut slow = Slow::failing_after(1);
    slow.interrupted.set(2);
    assert_eq!(rt; print_on(&mut slow, b"VWXYZ").ok(), Some(3));
    assert_eq!(rt; slow.bytes.get(), *b"VWXdefgh");
    assert!(rt; print_on(&mut slow, b"YZ").is_err());
}

#[test]
fn a_pen_fills_its_own_file(rt: HostRuntime) {
    let mut pen = RealPen {
        file: Slow::failing_after(4),
        faults: Faults::NONE,
    };
    let mut ext = RealExt {
        range: Range { start: 2, len: 5 },
        filled: false,
    };
    pen.file.interrupted.set(1);
    assert_eq!(rt; pen.fill(&mut ext, b"VWXYZ"), Ok(()));
    assert_eq!(rt; (ext.start(), ext.len(), ext.filled()), (2, 5, true));
    assert_eq!(rt; pen.file.bytes.get(), *b"abVWXYZh");
    let mut other = RealExt {
        range: Range { start: 7, len: 2 },
        filled: false,
    };
    assert_eq!(rt; pen.fill(&mut other, b"12"), Err(Failed));
    assert_eq!(rt; (other.filled(), pen.faults()), (false, 1));
}

#[test]
fn a_text_counts_its_failures(rt: HostRuntime) {
    let mut text = RealText {
        file: Slow::failing_after(1),
        faults: Faults::NONE,
    };
    let mut buf = [0; 8];
    text.file.interrupted.set(2);
    assert_eq!(rt; text.read(&mut buf), Ok(3));
    assert_eq!(rt; text.read(&mut buf), Err(Failed));
    assert_eq!(rt; text.faults.count, 1);
}

#[test]
fn a_name_that_is_not_there_is_a_fault(rt: HostRuntime) {
    let mut host = RealHost::new(rt);
    assert_eq!(rt; host.open_text("no/such").err(), Some(Refused::Failed));
    assert_eq!(rt; host.open_file("no/such").err(), Some(Refused::Failed));
    assert_eq!(rt; host.create("no/such").err(), Some(Refused::Failed));
}

fn crosses<T: Send>(value: T) -> T {
    value
}

fn hosts_cross(host: RealHost) -> RealHost {
    crosses(host)
}

fn disks_cross(disk: RealDisk<File>) -> RealDisk<File> {
    crosses(disk)
}

fn pens_cross(pen: RealPen<File>) -> RealPen<File> {
    crosses(pen)
}

fn extents_cross(ext: RealExt) -> RealExt {
    crosses(ext)
}

fn texts_cross(text: RealText<File>) -> RealText<File> {
    crosses(text)
}

fn files_cross(file: RealFile<File>) -> RealFile<File> {
    crosses(file)
}
