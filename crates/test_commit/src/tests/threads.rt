//! As many threads as there are seats.

ghost use Rattle.std.specs.Prelude.{◌≡◌, ◌+◌, ◌≤◌, false, []};
ghost use Rattle.std.specs.Thread.{IsSync};
ghost use Rattle.nt_memory.specs.Disk.{state_of};
ghost use Rattle.nt_commit.specs.Holds.{IsPassOf, HasNoneOut};
ghost use Rattle.test_commit.specs.Joined.{HasNoRange, HasAllBack, MayLetIn};

use crate::contexts::{commit_one, enter_one, hand_back_any, image_of, leave_one};
use nt_book::{Book, Limits, RangeState};
use nt_commit::{Committer, Locked};
use nt_memory::{MemDisk, MemHost, MemPen};
use nt_outside::Host;
use nt_turn::Pass;
use std::alloc::Global;
use std::sync::Wait;
use std::test::Fail;
use std::thread::{Threads, join_mut};

/// Lets a context write so many clusters of its number, each a byte longer than the one before it. Without memory it stops.
fn write_many(
    rt: &impl Wait,
    alloc: Global,
    committer: &Committer<MemDisk>,
    pass: &mut Pass<Locked<MemDisk>>,
    pen: &mut Option<MemPen>,
    clusters: usize,
)
    requires pass { IsPassOf committer.now pass.old }
    requires back { HasNoneOut pass.old.own }
    requires birth { (committer.now.birth.columns ≡ 0) × (committer.now.birth.staged ≡ false) }
    requires few { clusters ≤ 100 }
    ensures { HasNoRange committer.now pass.old.number pass.new }
{
    for more in 0..clusters {
        let Ok(mut image) = image_of(alloc, pass.number(), (pass.number() % 256) as u8, more) else {
            return;
        };
        let Some(tip) = pen.take() else {
            return;
        };
        let answer = commit_one(rt, committer, pass, &mut image);
        let bytes = image.bytes.as_slice();
        let (back, _) = hand_back_any(rt, committer, pass, tip, answer, bytes);
        *pen = back;
    }
}

/// Lets so many contexts in, each with a thread of its own that writes so many clusters, and joins them.
fn write_beside_each_other<R: Threads + Wait + Sync>(
    rt: &R,
    alloc: Global,
    committer: &Committer<MemDisk>,
    first: &mut Pass<Locked<MemDisk>>,
    contexts: u32,
    clusters: usize,
)
    requires letting { MayLetIn committer.now contexts first.old }
    requires few { clusters ≤ 100 }
    ensures { HasAllBack committer.now first.old first.new }
{
    if contexts == 0 {
        return;
    }
    let rest = contexts - 1;
    let Ok((pass, pen)) = enter_one(rt, committer, first) else {
        return;
    };
    let (mut pass, mut pen) = (pass, Some(pen));
    join_mut(
        rt,
        &mut ||
            requires { IsSync R.row × IsPassOf committer.now pass × HasNoneOut pass.own
                × ((committer.now.birth.columns ≡ 0) × (committer.now.birth.staged ≡ false)) × (clusters ≤ 100) }
            ensures { HasNoRange committer.entry.now pass.entry.number pass.exit }
        { write_many(rt, alloc, committer, &mut pass, &mut pen, clusters) },
        &mut ||
            requires { IsSync R.row × MayLetIn committer.now rest first.now × (clusters ≤ 100) }
            ensures { HasAllBack committer.entry.now first.entry.now first.exit.now }
        { write_beside_each_other(rt, alloc, committer, first, rest, clusters) },
    );
    leave_one(rt, committer, first, pass, pen);
}

/// The book of a disk that so many contexts wrote to beside each other.
fn written<R: Threads + Wait + Sync>(
    rt: &R,
    alloc: Global,
    disk: MemDisk,
    limits: Limits,
    contexts: u32,
    clusters: usize,
) -> (MemDisk, Option<Book>)
    requires end { (state_of disk).end ≡ 0 }
    requires out { (state_of disk).out ≡ [] }
    requires some { (1 ≤ contexts) × (contexts ≤ 64) }
    requires few { clusters ≤ 100 }
{
    let Ok(book) = Book::new(alloc, 0, 0, limits) else {
        return (disk, None);
    };
    match Committer::new(alloc, disk, book, contexts) {
        Ok((committer, mut first)) => {
            write_beside_each_other(rt, alloc, &committer, &mut first, contexts, clusters);
            let (disk, book) = committer.finish(first);
            (disk, Some(book))
        }
        Err((disk, _, _)) => (disk, None),
    }
}

/// Whether the range from a place on has its context's number in each byte behind its key.
fn has_number(file: &[u8], start: u64, len: u64, context: u32) -> bool {
    let bytes = file
        .iter()
        .skip(start.saturating_add(42) as usize)
        .take(len.saturating_sub(42) as usize);
    bytes
        .map(|byte| u32::from(*byte))
        .all(|byte| byte == context)
}

/// What a book tells of a cluster and its range: its context, its start, its length, and whether it is settled.
fn told(book: &Book, cluster: u32) -> Option<(u32, u64, u64, bool)> {
    if cluster >= book.clusters() {
        return None;
    }
    let range = book.range_of(cluster);
    if range >= book.ranges() {
        return None;
    }
    let meta = book.meta(cluster);
    let settled = book.state(range) == RangeState::Settled;
    Some((meta.context, book.start(range), meta.len, settled))
}

#[test]
fn sixty_four_contexts_write_ten_clusters_each(rt: HostRuntime) -> Result<(), Fail> {
    let alloc = rt.alloc();
    let Some(limits) = Limits::new(1000, 1_000_000, 1000) else {
        return Err(Fail::new("limits that are too large"));
    };
    let mut host = MemHost::new(alloc);
    let disk = host.create("f")?;
    let (disk, left) = written(&rt, alloc, disk, limits, 64, 10);
    host.return_disk(disk);
    let Some(book) = left else {
        return Err(Fail::new("out of memory"));
    };
    let Some(file) = host.file("f") else {
        return Err(Fail::new("no file"));
    };
    assert_eq!(rt; book.clusters(), 640);
    assert_eq!(rt; book.end(), file.len() as u64);
    let mut counts = [0u64; 64];
    let mut end = 0u64;
    // ranges lie one behind the other, and each context's clusters are its own, in its order
    for k in 0..640 {
        let Some((context, start, len, settled)) = told(&book, k) else {
            return Err(Fail::new("fewer clusters"));
        };
        let Some(count) = counts.get_mut(context as usize) else {
            return Err(Fail::new("a context that did not enter"));
        };
        assert!(rt; settled, "cluster {k}");
        assert_eq!(rt; start, end, "cluster {k}");
        assert_eq!(rt; len, count.saturating_add(42), "cluster {k}");
        assert!(rt; has_number(file, start, len, context), "cluster {k}");
        *count = count.saturating_add(1);
        end = start.saturating_add(len);
    }
    assert!(rt; counts.iter().all(|count| *count == 10));
    Ok(())
}
