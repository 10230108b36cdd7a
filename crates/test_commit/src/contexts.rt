//! What a context does with one cluster.

ghost use Rattle.std.specs.Prelude.{◌≡◌, ◌<◌, ◌≤◌, ◌+◌, length, IfOk, IfErr};
ghost use Rattle.nt_commit.specs.Holds.{IsPassOf, IsFirstOf, HasNoneOut};
ghost use Rattle.nt_commit.specs.Images.{IsImageFor};
ghost use Rattle.nt_pages.specs.Image.{key_room};
ghost use Rattle.test_commit.specs.Sole.{IsSoleClaim, LeavesAtMostOne};
ghost use Rattle.test_commit.specs.Joined.{IsReadyToWrite, HasNoRange, IsEntered, HasAllBack, HasLeft};

use nt_book::{ClusterMeta, PageLists};
use nt_commit::{Claim, CommitError, Committer, Locked};
use nt_lists::Bytes;
use nt_outside::{Disk, Pen, Refused};
use nt_pages::ClusterImage;
use nt_turn::Pass;
use std::alloc::{AllocError, Global};
use std::sync::Wait;

/// The image of a cluster of one entry and no column, with so many bytes behind its key.
pub fn image_of(
    alloc: Global,
    context: u32,
    byte: u8,
    len: usize,
) -> Result<ClusterImage, AllocError>
    requires { len ≤ 1000 }
    ensures { IfOk result (λ image. IsImageFor 0 context image × (length image.bytes ≡ key_room + len)) }
{
    let bytes = vec![in alloc; byte; 42 + len]?;
    let meta = ClusterMeta {
        context,
        entries: 1,
        len: bytes.len() as u64,
        pages: PageLists::from_vec(Vec::new(alloc)),
    };
    Ok(ClusterImage {
        bytes: Bytes::from_vec(bytes),
        meta,
    })
}

/// Commits a cluster, while no range of the context is out.
pub fn commit_one<D: Disk>(
    rt: &impl Wait,
    committer: &Committer<D>,
    pass: &mut Pass<Locked<D>>,
    image: &mut ClusterImage,
) -> Result<Claim<D::Ext>, CommitError>
    requires { IsReadyToWrite committer.now pass.old image.old }
    ensures pass { IsPassOf committer.now pass.new }
    ensures number { pass.new.number ≡ pass.old.number }
    ensures len { length image.new.bytes ≡ length image.old.bytes }
    ensures left { LeavesAtMostOne D.Ext.state (D.state committer.now.birth.begun).held pass.new.own pass.old.number
        (length image.old.bytes) result }
{
    committer.commit(rt, pass, image)
}

/// Fills the range of a claim and hands it back. A pen that fails goes back with it.
pub fn hand_back<D: Disk>(
    rt: &impl Wait,
    committer: &Committer<D>,
    pass: &mut Pass<Locked<D>>,
    pen: D::Pen,
    claim: Claim<D::Ext>,
    bytes: &[u8],
) -> Option<D::Pen>
    requires pass { IsPassOf committer.now pass.old }
    requires claim { IsSoleClaim D.Ext.state (D.state committer.now.birth.begun).held
        pass.old.own pass.old.number (length bytes.now) claim }
    ensures pass { IsPassOf committer.now pass.new }
    ensures number { pass.new.number ≡ pass.old.number }
    ensures back { HasNoneOut pass.new.own }
{
    let mut claim = claim;
    let mut pen = pen;
    match pen.fill(&mut claim.ext, bytes) {
        Ok(()) => {
            committer.settle(rt, pass, claim);
            Some(pen)
        }
        Err(_) => {
            committer.spoil(rt, pass, claim, pen);
            None
        }
    }
}

/// Fills and hands back what a commit gave, if it gave a claim.
pub fn hand_back_any<D: Disk>(
    rt: &impl Wait,
    committer: &Committer<D>,
    pass: &mut Pass<Locked<D>>,
    pen: D::Pen,
    answer: Result<Claim<D::Ext>, CommitError>,
    bytes: &[u8],
) -> (Option<D::Pen>, Option<CommitError>)
    requires pass { IsPassOf committer.now pass.old }
    requires left { LeavesAtMostOne D.Ext.state (D.state committer.now.birth.begun).held
        pass.old.own pass.old.number (length bytes.now) answer }
    ensures pass { IsPassOf committer.now pass.new }
    ensures number { pass.new.number ≡ pass.old.number }
    ensures back { HasNoneOut pass.new.own }
{
    match answer {
        Ok(claim) => (hand_back(rt, committer, pass, pen, claim, bytes), None),
        Err(error) => (Some(pen), Some(error)),
    }
}

/// A context that is to write a cluster.
pub struct Context<D: Disk> {
    pub pass: Pass<Locked<D>>,
    pub pen: D::Pen,
    pub image: ClusterImage,
}

/// A context that wrote it, or was refused. Its pen is gone if it failed.
pub struct Done<D: Disk> {
    pub pass: Pass<Locked<D>>,
    pub pen: Option<D::Pen>,
    pub refused: Option<CommitError>,
}

/// Fills the range of a context's cluster and hands it back, if it was committed.
fn finish_one<D: Disk>(
    rt: &impl Wait,
    committer: &Committer<D>,
    context: Context<D>,
    answer: Result<Claim<D::Ext>, CommitError>,
) -> Done<D>
    requires pass { IsPassOf committer.now context.pass }
    requires left { LeavesAtMostOne D.Ext.state (D.state committer.now.birth.begun).held context.pass.own context.pass.number
        (length context.image.bytes) answer }
    ensures { HasNoRange committer.now context.pass.number result.pass }
{
    let Context {
        mut pass,
        pen,
        image,
    } = context;
    let bytes = image.bytes.as_slice();
    let (pen, refused) = hand_back_any(rt, committer, &mut pass, pen, answer, bytes);
    Done { pass, pen, refused }
}

/// Commits a context's cluster, fills its range and hands it back.
pub fn write_one<D: Disk>(rt: &impl Wait, committer: &Committer<D>, context: Context<D>) -> Done<D>
    requires { IsReadyToWrite committer.now context.pass context.image }
    ensures { HasNoRange committer.now context.pass.number result.pass }
{
    let mut context = context;
    let answer = commit_one(rt, committer, &mut context.pass, &mut context.image);
    finish_one(rt, committer, context, answer)
}

/// Commits the clusters of both contexts before either range is handed back; the first one's is
/// handed back first, or last.
pub fn write_beside<D: Disk>(
    rt: &impl Wait,
    committer: &Committer<D>,
    one: Context<D>,
    other: Context<D>,
    last: bool,
) -> (Done<D>, Done<D>)
    requires one { IsReadyToWrite committer.now one.pass one.image }
    requires other { IsReadyToWrite committer.now other.pass other.image }
    ensures one { HasNoRange committer.now one.pass.number result.0.pass }
    ensures other { HasNoRange committer.now other.pass.number result.1.pass }
{
    let (mut one, mut other) = (one, other);
    let answer = commit_one(rt, committer, &mut one.pass, &mut one.image);
    let next = commit_one(rt, committer, &mut other.pass, &mut other.image);
    if last {
        let other = finish_one(rt, committer, other, next);
        (finish_one(rt, committer, one, answer), other)
    } else {
        let one = finish_one(rt, committer, one, answer);
        (one, finish_one(rt, committer, other, next))
    }
}

/// Lets a context in.
pub fn enter_one<D: Disk>(
    rt: &impl Wait,
    committer: &Committer<D>,
    first: &mut Pass<Locked<D>>,
) -> Result<(Pass<Locked<D>>, D::Pen), Refused>
    requires first { IsFirstOf committer.now first.old }
    requires room { first.old.splits < committer.now.birth.contexts }
    ensures ok { IfOk result (λ r. IsEntered committer.now first.old first.new r.0) }
    ensures err { IfErr result (λ e. HasAllBack committer.now first.old first.new) }
{
    committer.enter(rt, first)
}

/// Lets a context go whose ranges are back.
pub fn leave_one<D: Disk>(
    rt: &impl Wait,
    committer: &Committer<D>,
    first: &mut Pass<Locked<D>>,
    pass: Pass<Locked<D>>,
    pen: Option<D::Pen>,
)
    requires first { IsFirstOf committer.now first.old }
    requires pass { IsPassOf committer.now pass }
    requires back { HasNoneOut pass.own }
    ensures { HasLeft committer.now first.old pass first.new }
{
    committer.leave(rt, first, pass, pen);
}
