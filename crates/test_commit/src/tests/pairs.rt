//! Two contexts that write a cluster each.

use crate::pairs::{Way, file_written, limits};
use nt_book::RangeState;
use nt_commit::CommitError;
use nt_memory::{MemHost, Object};
use std::test::Fail;

const WAYS: [Way; 3] = [Way::InTurn, Way::FirstBackFirst, Way::FirstBackLast];

#[test]
fn each_order_leaves_both_clusters(rt: HostRuntime) -> Result<(), Fail> {
    let alloc = rt.alloc();
    let wide = limits(1000, 1000, 1000)?;
    for way in WAYS {
        for b_leads in [false, true] {
            let mut host = MemHost::new(alloc);
            let (book, refusals) = file_written(&rt, alloc, &mut host, wide, way, b_leads)?;
            assert_eq!(rt; refusals.a, None);
            assert_eq!(rt; refusals.b, None);
            let order = book.order(alloc)?;
            let Some(file) = host.file("f") else {
                return Err(Fail::new("no file"));
            };
            assert_eq!(rt; file.len(), 114);
            if b_leads {
                assert_eq!(rt; order.as_slice(), [1, 0].as_slice());
                assert!(rt; file[42..62].iter().all(|byte| *byte == b'b'));
                assert!(rt; file[104..].iter().all(|byte| *byte == b'a'));
            } else {
                assert_eq!(rt; order.as_slice(), [0, 1].as_slice());
                assert!(rt; file[42..52].iter().all(|byte| *byte == b'a'));
                assert!(rt; file[94..].iter().all(|byte| *byte == b'b'));
            }
        }
    }
    Ok(())
}

#[test]
fn a_pen_that_fails_spoils_its_range_alone(rt: HostRuntime) -> Result<(), Fail> {
    let alloc = rt.alloc();
    let wide = limits(1000, 1000, 1000)?;
    for way in WAYS {
        for b_leads in [false, true] {
            let mut host = MemHost::new(alloc);
            host.fail(Object::Pen(1), 1)?;
            let (book, refusals) = file_written(&rt, alloc, &mut host, wide, way, b_leads)?;
            assert_eq!(rt; refusals.a, None);
            assert_eq!(rt; refusals.b, None);
            assert_eq!(rt; book.clusters(), 2);
            assert_eq!(rt; book.ranges(), 2);
            let (a, b) = if b_leads { (1, 0) } else { (0, 1) };
            assert_eq!(rt; book.state(a), RangeState::Settled);
            assert_eq!(rt; book.state(b), RangeState::Spoiled { faults: 1 });
        }
    }
    Ok(())
}

#[test]
fn a_call_of_the_disk_that_fails_refuses_one_context(rt: HostRuntime) -> Result<(), Fail> {
    let alloc = rt.alloc();
    let wide = limits(1000, 1000, 1000)?;
    let fault = Some(CommitError::Fault);
    // two pens are made, and then a range is reserved for each
    for (call, a, b, clusters) in [
        (1, fault, None, 0),
        (2, None, fault, 1),
        (3, fault, None, 1),
        (4, None, fault, 1),
        (5, None, None, 2),
    ] {
        let mut host = MemHost::new(alloc);
        host.fail(Object::Disk, call)?;
        let way = Way::FirstBackFirst;
        let (book, refusals) = file_written(&rt, alloc, &mut host, wide, way, false)?;
        assert_eq!(rt; refusals.a, a, "at {call}");
        assert_eq!(rt; refusals.b, b, "at {call}");
        assert_eq!(rt; book.clusters(), clusters, "at {call}");
    }
    Ok(())
}

#[test]
fn each_limit_refuses_the_cluster_that_passes_it(rt: HostRuntime) -> Result<(), Fail> {
    let alloc = rt.alloc();
    // ranges of 52 and 62 bytes
    for (range, file, clusters, refused) in [
        (62, 114, 2, None),
        (
            61,
            114,
            2,
            Some(CommitError::RangeTooLarge { len: 62, limit: 61 }),
        ),
        (
            62,
            113,
            2,
            Some(CommitError::FileTooLarge {
                end: 114,
                limit: 113,
            }),
        ),
        (62, 114, 1, Some(CommitError::TooManyClusters)),
        (
            61,
            113,
            1,
            Some(CommitError::RangeTooLarge { len: 62, limit: 61 }),
        ),
    ] {
        let mut host = MemHost::new(alloc);
        let limits = limits(range, file, clusters)?;
        let way = Way::FirstBackLast;
        let (book, refusals) = file_written(&rt, alloc, &mut host, limits, way, false)?;
        assert_eq!(rt; refusals.a, None);
        assert_eq!(rt; refusals.b, refused);
        assert_eq!(rt; book.clusters(), if refused.is_some() { 1 } else { 2 });
    }
    Ok(())
}
