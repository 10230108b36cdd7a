//! How a context commits a cluster, and hands its range back.

ghost use Rattle.std.specs.Prelude.{◌≡◌, ◌≤◌, [], true, false, if◌then◌else◌, is_ok};
ghost use Rattle.nt_machine.specs.History.{ranges_of};
ghost use Rattle.nt_commit.specs.Claims.{IsClaimOf};
ghost use Rattle.nt_commit.specs.Images.{IsImageFor, image_after};
ghost use Rattle.nt_commit.specs.Holds.{IsPassOf, IsCommittable, HasNotPublished, MayPublish, CommitsInHold, PublishesInHold, RefusesBehindSeen};
ghost use Rattle.nt_commit.specs.Holds.{SettlesInHold, SpoilsInHold};

use crate::claim::Claim;
use crate::committer::CommitterOf;
use crate::error::CommitError;
use crate::key::write_key;
use crate::locked::Locked;
use nt_book::ClusterMeta;
use nt_outside::{Disk, Ext};
use nt_pages::ClusterImage;
use nt_turn::Pass;
use std::alloc::AllocError;
use std::sync::Wait;

impl<D: Disk> CommitterOf<Locked<D>> {
    /// Reserves the range of a cluster and enters it, as a staged one or not, in one hold of the turn.
    fn reserve(
        &self,
        rt: &impl Wait,
        pass: &mut Pass<Locked<D>>,
        meta: &mut ClusterMeta,
    ) -> Result<Claim<D::Ext>, CommitError>
        requires pass { IsPassOf self.now pass.old }
        requires meta { (meta.old.context ≡ pass.old.number) × IsCommittable self.now.birth meta.old }
        requires before { self.now.birth.staged ≡ true → HasNotPublished pass.old }
        ensures commits { CommitsInHold D.state self.now.birth.staged D.Ext.state self.now meta.old pass.old pass.new result }
        ensures meta { meta.new ≡ (if is_ok result then record meta.old { pages = [] } else meta.old) }
    {
        let mut locked = self.turn.take(rt, pass);
        let answer = locked.commit(meta);
        self.turn.give(pass, locked);
        answer
    }

    /// Reserves the range of an image's cluster, and writes the key of that place into the image.
    fn commit_as(
        &self,
        rt: &impl Wait,
        pass: &mut Pass<Locked<D>>,
        image: &mut ClusterImage,
    ) -> Result<Claim<D::Ext>, CommitError>
        requires pass { IsPassOf self.now pass.old }
        requires image { (self.now.birth.staged ≡ true → HasNotPublished pass.old)
            × IsImageFor self.now.birth.columns pass.old.number image.old }
        ensures commits { CommitsInHold D.state self.now.birth.staged D.Ext.state self.now image.old.meta pass.old pass.new result }
        ensures image { image.new ≡ image_after D.Ext.state image.old result }
        ensures limit { RefusesBehindSeen D.state self.now image.old.meta.len pass.new result }
    {
        let answer = self.reserve(rt, pass, &mut image.meta);
        if let Ok(claim) = &answer {
            write_key(image, claim.ext.start());
        }
        answer
    }

    /// Commits the cluster of an image: reserves its range, enters it in the book, and writes the key
    /// of that place into the image. After a refusal the image is as before, and so is the history,
    /// but for a fault of the disk. Clusters are not staged here.
    pub fn commit(
        &self,
        rt: &impl Wait,
        pass: &mut Pass<Locked<D>>,
        image: &mut ClusterImage,
    ) -> Result<Claim<D::Ext>, CommitError>
        requires pass { IsPassOf self.now pass.old }
        requires image { (self.now.birth.staged ≡ false) × IsImageFor self.now.birth.columns pass.old.number image.old }
        ensures commits { CommitsInHold D.state false D.Ext.state self.now image.old.meta pass.old pass.new result }
        ensures image { image.new ≡ image_after D.Ext.state image.old result }
        ensures limit { RefusesBehindSeen D.state self.now image.old.meta.len pass.new result }
    {
        self.commit_as(rt, pass, image)
    }

    /// Reserves the range of a staged cluster for an image, and writes the key of that place into the
    /// image. The claim's number is that of the range, which is no cluster yet. There are no page
    /// lists beside staged clusters; a refusal is as one of `commit`. Clusters are staged here, and
    /// the context has not published.
    pub fn stage(
        &self,
        rt: &impl Wait,
        pass: &mut Pass<Locked<D>>,
        image: &mut ClusterImage,
    ) -> Result<Claim<D::Ext>, CommitError>
        requires pass { IsPassOf self.now pass.old × HasNotPublished pass.old }
        requires image { (self.now.birth.staged ≡ true) × IsImageFor self.now.birth.columns pass.old.number image.old }
        ensures commits { CommitsInHold D.state true D.Ext.state self.now image.old.meta pass.old pass.new result }
        ensures image { image.new ≡ image_after D.Ext.state image.old result }
        ensures limit { RefusesBehindSeen D.state self.now image.old.meta.len pass.new result }
    {
        self.commit_as(rt, pass, image)
    }

    /// Makes all ranges of a context the next clusters, in the order in which they were reserved, in
    /// one hold of the turn. Each of them was settled, and the context publishes once. Without memory
    /// the book and its history are as before.
    pub fn publish(&self, rt: &impl Wait, pass: &mut Pass<Locked<D>>) -> Result<(), AllocError>
        requires pass { IsPassOf self.now pass.old }
        requires staged { self.now.birth.staged ≡ true }
        requires ready { MayPublish pass.old }
        ensures publishes { PublishesInHold D.state self.now pass.old pass.new result }
    {
        let context = pass.number();
        let mut locked = self.turn.take(rt, pass);
        let answer = locked.publish(context);
        self.turn.give(pass, locked);
        answer
    }

    /// Hands the range of a claim back filled. It takes no memory.
    pub fn settle(&self, rt: &impl Wait, pass: &mut Pass<Locked<D>>, claim: Claim<D::Ext>)
        requires pass { IsPassOf self.now pass.old }
        requires own { IsClaimOf D.Ext.state (D.state self.now.birth.begun).held (ranges_of pass.old.own)
            pass.old.number claim }
        requires filled { (D.Ext.state claim.ext).filled ≡ true }
        ensures settles { SettlesInHold D.state self.now claim.cluster (D.Ext.state claim.ext).content
            pass.old pass.new }
    {
        let context = pass.number();
        let mut locked = self.turn.take(rt, pass);
        locked.settle(context, claim);
        self.turn.give(pass, locked);
    }

    /// Hands the range of a claim back that couldn't be filled, and the pen that failed. It takes no
    /// memory.
    pub fn spoil(
        &self,
        rt: &impl Wait,
        pass: &mut Pass<Locked<D>>,
        claim: Claim<D::Ext>,
        pen: D::Pen,
    )
        requires pass { IsPassOf self.now pass.old }
        requires own { IsClaimOf D.Ext.state (D.state self.now.birth.begun).held (ranges_of pass.old.own)
            pass.old.number claim }
        requires failed { ((D.Ext.state claim.ext).filled ≡ false) × (1 ≤ (D.Pen.state pen).faults) }
        ensures spoils { SpoilsInHold D.state self.now claim.cluster pass.old pass.new }
    {
        let context = pass.number();
        let mut locked = self.turn.take(rt, pass);
        locked.spoil(context, claim, pen);
        self.turn.give(pass, locked);
    }
}
