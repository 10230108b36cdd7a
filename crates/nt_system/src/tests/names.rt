//! Names that are links, or lead to another file than before.

use crate::host::RealHost;
use crate::named::{Named, make};
use nt_outside::{Disk, Host, Refused};
use std::fs::{create_dir, remove_dir, remove_file, rename};
use std::os::unix::fs::symlink;
use std::test::Fail;

#[test]
fn a_link_to_no_file_makes_a_new_one(rt: HostRuntime) {
    for name in ["made", "link"] {
        let _ = remove_file(&rt, name);
    }
    assert!(rt; symlink(&rt, "made", "link").is_ok());
    for (turn, is_new) in [true, false].into_iter().enumerate() {
        let made = make(&rt, "link", &[]);
        assert!(rt; made.is_ok_and(|made| made.is_new == is_new), "turn {turn}");
    }
}

#[test]
fn the_folder_of_a_file_is_synced_and_not_that_of_a_link_to_it(
    rt: HostRuntime,
) -> Result<(), Fail> {
    let _ = remove_file(&rt, "far");
    let _ = create_dir(&rt, "folder");
    assert!(rt; symlink(&rt, "folder/made", "far").is_ok());
    let made = make(&rt, "far", &[])?;
    let named = Named {
        rt,
        name: String::from_str(rt.alloc(), "far")?,
        id: made.id,
    };
    assert!(rt; named.sync_folder().is_ok());
    // once the folder of the file is gone nothing can be synced, though that of the link is there
    assert!(rt; remove_file(&rt, "folder/made").is_ok());
    assert!(rt; remove_dir(&rt, "folder").is_ok());
    assert!(rt; named.sync_folder().is_err());
    Ok(())
}

#[test]
fn a_pen_is_of_the_disks_own_file(rt: HostRuntime) -> Result<(), Fail> {
    let mut host = RealHost::new(rt);
    let mut disk = host.create("own")?;
    assert!(rt; disk.pen().is_ok());
    assert!(rt; rename(&rt, "own", "away").is_ok());
    assert_eq!(rt; disk.pen().err(), Some(Refused::Failed));
    let mut other = RealHost::new(rt);
    assert!(rt; other.create("own").is_ok());
    assert_eq!(rt; disk.pen().err(), Some(Refused::Failed));
    assert_eq!(rt; disk.faults(), 2);
    Ok(())
}
