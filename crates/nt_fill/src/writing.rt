//! How the image of a cluster gets to the disk.

ghost use Rattle.std.specs.Prelude.{◌≡◌, Some, None, IsSome, OnOk, IfErr};
ghost use Rattle.nt_commit.specs.Holds.{IsPassOf, CommitsInHold, SettlesInHold, SpoilsInHold};
ghost use Rattle.nt_commit.specs.Images.{IsImageFor, image_after};
ghost use Rattle.nt_commit.specs.declared.error.CommitError.TheVariants.{Fault};
ghost use Rattle.nt_fill.specs.Passes.{IsClaimFor, IsUnpublished, KeepsCount, LeavesPass, MayWrite};
ghost use Rattle.nt_fill.specs.Passes.{LeavesRefused, NamesLimit, WritesImage};

use nt_commit::{Claim, CommitError, Committer, Locked};
use nt_outside::{Disk, Gate, Pen, Point};
use nt_pages::ClusterImage;
use nt_turn::Pass;
use std::sync::Wait;

/// Where the clusters of a context go, and whether they are staged there.
#[derive(Clone, Copy)]
pub(crate) struct Target<'a, C> {
    pub(crate) committer: &'a C,
    pub(crate) staged: bool,
}

/// Fills the range of a claim outside the turn, and hands it back: settled, or spoiled with the pen
/// that failed.
fn fill_range<D: Disk>(
    rt: &impl Wait,
    committer: &Committer<D>,
    pass: &mut Pass<Locked<D>>,
    pen: &mut Option<D::Pen>,
    claim: Claim<D::Ext>,
    bytes: &[u8],
) -> Result<(), CommitError>
    requires pass { IsPassOf committer.now pass.old }
    requires alive { IsSome pen.old }
    requires claim { IsClaimFor D.state committer.now D.Ext.state pass.old bytes.now claim }
    ensures ok { OnOk result (SettlesInHold D.state committer.now claim.cluster (Some bytes.now)
        pass.old pass.new × IsSome pen.new × KeepsCount D.Pen.state pen.old pen.new) }
    ensures err { IfErr result (λ e. (e ≡ Fault)
        × SpoilsInHold D.state committer.now claim.cluster pass.old pass.new × (pen.new ≡ None)) }
{
    let mut claim = claim;
    let filled = match pen {
        Some(pen) => pen.fill(&mut claim.ext, bytes).is_ok(),
        None => unreachable!(),
    };
    if filled {
        committer.settle(rt, pass, claim);
        return Ok(());
    }
    match pen.take() {
        Some(pen) => committer.spoil(rt, pass, claim, pen),
        None => unreachable!(),
    }
    Err(CommitError::Fault)
}

/// Reserves the range of an image, as a staged cluster or the next one, and writes the key of that
/// place into the image.
fn claim_range<D: Disk>(
    rt: &impl Wait,
    to: &Target<'_, Committer<D>>,
    pass: &mut Pass<Locked<D>>,
    image: &mut ClusterImage,
) -> Result<Claim<D::Ext>, CommitError>
    requires pass { IsPassOf to.now.committer.now pass.old × IsUnpublished to.now.staged pass.old }
    requires image { (to.now.committer.now.birth.staged ≡ to.now.staged)
        × IsImageFor to.now.committer.now.birth.columns pass.old.number image.old }
    ensures commits { CommitsInHold D.state to.now.staged D.Ext.state to.now.committer.now image.old.meta pass.old pass.new result }
    ensures image { image.new ≡ image_after D.Ext.state image.old result }
{
    if to.staged {
        to.committer.stage(rt, pass, image)
    } else {
        to.committer.commit(rt, pass, image)
    }
}

/// Reserves the range of an image, fills it and hands it back, with the gate at each point between.
pub(crate) fn write_image<D: Disk, G: Gate>(
    rt: &impl Wait,
    gate: &G,
    to: &Target<'_, Committer<D>>,
    pass: &mut Pass<Locked<D>>,
    pen: &mut Option<D::Pen>,
    image: &mut ClusterImage,
) -> Result<(), CommitError>
    requires { MayWrite to.now.staged to.now.committer.now pass.old pen.old image.old }
    ensures pass { LeavesPass to.now.staged to.now.committer.now pass.old pass.new pen.new }
    ensures limits { NamesLimit D.state to.now.committer.now image.old.meta.len pass.old pass.new result }
    ensures ok { OnOk result
        (WritesImage D.state to.now.committer.now to.now.staged image.old pass.old pass.new × IsSome pen.new
        × KeepsCount D.Pen.state pen.old pen.new) }
    ensures refused { LeavesRefused to.now.staged image.old.meta pass.old pass.new pen.old pen.new result }
{
    let context = pass.number();
    gate.at(context, Point::BeforeCommit);
    let claim = claim_range(rt, to, pass, image)?;
    gate.at(context, Point::Filling);
    fill_range(rt, to.committer, pass, pen, claim, image.bytes.as_slice())?;
    gate.at(context, Point::Settled);
    Ok(())
}
