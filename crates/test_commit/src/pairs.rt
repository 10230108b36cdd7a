//! Two contexts that write a cluster each, in each way.

ghost use Rattle.std.specs.Prelude.{◌≡◌, []};
ghost use Rattle.nt_outside.specs.Disk.{DiskState};
ghost use Rattle.test_commit.specs.Joined.{IsReadyToWrite, HasNoRange, HasAllBack, MayLetIn};

use crate::contexts::{Context, Done, enter_one, image_of, leave_one, write_beside, write_one};
use nt_book::{Book, Limits};
use nt_commit::{CommitError, Committer, Locked};
use nt_memory::MemHost;
use nt_outside::{Disk, Host};
use nt_turn::Pass;
use std::alloc::Global;
use std::sync::Wait;
use std::test::Fail;

/// How two contexts write a cluster each: one behind the other, or both ranges out together, of which the first is handed back
/// first or last.
#[derive(Clone, Copy, Debug)]
pub enum Way {
    InTurn,
    FirstBackFirst,
    FirstBackLast,
}

/// Lets both contexts write.
fn write_both<D: Disk>(
    rt: &impl Wait,
    committer: &Committer<D>,
    one: Context<D>,
    other: Context<D>,
    way: Way,
) -> (Done<D>, Done<D>)
    requires one { IsReadyToWrite committer.now one.pass one.image }
    requires other { IsReadyToWrite committer.now other.pass other.image }
    ensures one { HasNoRange committer.now one.pass.number result.0.pass }
    ensures other { HasNoRange committer.now other.pass.number result.1.pass }
{
    match way {
        Way::InTurn => {
            let one = write_one(rt, committer, one);
            (one, write_one(rt, committer, other))
        }
        Way::FirstBackFirst => write_beside(rt, committer, one, other, false),
        Way::FirstBackLast => write_beside(rt, committer, one, other, true),
    }
}

/// Lets both contexts write, of which `b` may lead.
fn write_led<D: Disk>(
    rt: &impl Wait,
    committer: &Committer<D>,
    a: Context<D>,
    b: Context<D>,
    way: Way,
    b_leads: bool,
) -> (Done<D>, Done<D>)
    requires a { IsReadyToWrite committer.now a.pass a.image }
    requires b { IsReadyToWrite committer.now b.pass b.image }
    ensures a { HasNoRange committer.now a.pass.number result.0.pass }
    ensures b { HasNoRange committer.now b.pass.number result.1.pass }
{
    if b_leads {
        let (b, a) = write_both(rt, committer, b, a, way);
        (a, b)
    } else {
        write_both(rt, committer, a, b, way)
    }
}

/// Why the context of a name wasn't committed.
#[derive(Drop)]
pub struct Refusals {
    pub a: Option<CommitError>,
    pub b: Option<CommitError>,
}

/// In which way two contexts write, and whether `b` leads.
#[derive(Clone, Copy)]
struct Meeting {
    way: Way,
    b_leads: bool,
}

/// Lets `b` in beside `a`, and both write.
fn write_with_another<D: Disk>(
    rt: &impl Wait,
    alloc: Global,
    committer: &Committer<D>,
    first: &mut Pass<Locked<D>>,
    a: Context<D>,
    meeting: Meeting,
) -> (Done<D>, Option<CommitError>)
    requires letting { MayLetIn committer.now 1 first.old }
    requires ready { IsReadyToWrite committer.now a.pass a.image }
    ensures done { HasNoRange committer.now a.pass.number result.0.pass }
    ensures all { HasAllBack committer.now first.old first.new }
{
    let Ok((pass, pen)) = enter_one(rt, committer, first) else {
        return (write_one(rt, committer, a), Some(CommitError::Fault));
    };
    let Ok(image) = image_of(alloc, pass.number(), b'b', 20) else {
        leave_one(rt, committer, first, pass, Some(pen));
        return (write_one(rt, committer, a), Some(CommitError::Memory));
    };
    let b = Context { pass, pen, image };
    let (a, b) = write_led(rt, committer, a, b, meeting.way, meeting.b_leads);
    let Done { pass, pen, refused } = b;
    leave_one(rt, committer, first, pass, pen);
    (a, refused)
}

/// Lets `a` and `b` in, and both write.
fn write_two<D: Disk>(
    rt: &impl Wait,
    alloc: Global,
    committer: &Committer<D>,
    first: &mut Pass<Locked<D>>,
    way: Way,
    b_leads: bool,
) -> Refusals
    requires { MayLetIn committer.now 2 first.old }
    ensures { HasAllBack committer.now first.old first.new }
{
    let Ok((pass, pen)) = enter_one(rt, committer, first) else {
        return Refusals {
            a: Some(CommitError::Fault),
            b: None,
        };
    };
    let Ok(image) = image_of(alloc, pass.number(), b'a', 10) else {
        leave_one(rt, committer, first, pass, Some(pen));
        return Refusals {
            a: Some(CommitError::Memory),
            b: None,
        };
    };
    let a = Context { pass, pen, image };
    let meeting = Meeting { way, b_leads };
    let (a, b) = write_with_another(rt, alloc, committer, first, a, meeting);
    let Done { pass, pen, refused } = a;
    leave_one(rt, committer, first, pass, pen);
    Refusals { a: refused, b }
}

/// The book of a disk that two contexts wrote to, and why they were refused.
fn written<D: Disk>(
    rt: &impl Wait,
    alloc: Global,
    disk: D,
    limits: Limits,
    way: Way,
    b_leads: bool,
) -> (D, Option<(Book, Refusals)>)
    requires end { (D.state disk).end ≡ 0 }
    requires out { (D.state disk).out ≡ [] }
{
    let Ok(book) = Book::new(alloc, 0, 0, limits) else {
        return (disk, None);
    };
    match Committer::new(alloc, disk, book, 2) {
        Ok((committer, mut first)) => {
            let refusals = write_two(rt, alloc, &committer, &mut first, way, b_leads);
            let (disk, book) = committer.finish(first);
            (disk, Some((book, refusals)))
        }
        Err((disk, _, _)) => (disk, None),
    }
}

/// The book of the file `f` of a host that two contexts wrote to, and why they were refused.
pub fn file_written(
    rt: &impl Wait,
    alloc: Global,
    host: &mut MemHost,
    limits: Limits,
    way: Way,
    b_leads: bool,
) -> Result<(Book, Refusals), Fail> {
    let disk = host.create("f")?;
    let (disk, told) = written(rt, alloc, disk, limits, way, b_leads);
    host.return_disk(disk);
    let Some(told) = told else {
        return Err(Fail::new("out of memory"));
    };
    Ok(told)
}

/// Limits of a range, of the file and of its clusters.
pub fn limits(range: u64, file: u64, clusters: u32) -> Result<Limits, Fail> {
    let Some(limits) = Limits::new(range, file, clusters) else {
        return Err(Fail::new("limits that are too large"));
    };
    Ok(limits)
}
