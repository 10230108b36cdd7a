//! What contexts do to their ranges while they hold the turn.

ghost use Rattle.std.specs.Prelude.{◌≡◌, ◌≤◌, true, false};
ghost use Rattle.std.specs.List.{AllByRecursion};
ghost use Rattle.nt_machine.specs.Deal.{times};
ghost use Rattle.nt_machine.specs.History.{own_of, publishers_of, ranges_of};
ghost use Rattle.nt_machine.specs.Legal.{IsFilledRange};
ghost use Rattle.nt_commit.specs.Claims.{IsClaimOf};
ghost use Rattle.nt_commit.specs.Holds.{IsLater, Publishes, SettlesRange, Spoils};
ghost use Rattle.nt_commit.specs.Locked.{history_of_locked};

use crate::claim::Claim;
use crate::locked::Locked;
use nt_outside::Disk;
use std::alloc::AllocError;

impl<D: Disk> Locked<D> {
    /// Hands the range of a cluster back filled. It takes no memory.
    pub(crate) fn settle(&mut self, context: u32, claim: Claim<D::Ext>)
        requires context { context ≤ self.old.birth.contexts }
        requires own { IsClaimOf D.Ext.state (D.state self.old.birth.begun).held
            (ranges_of (history_of_locked D.state self.old)) context claim }
        requires filled { (D.Ext.state claim.ext).filled ≡ true }
        ensures step { IsLater D.state self.old self.new }
        ensures settles { SettlesRange D.state context claim.cluster (D.Ext.state claim.ext) self.old self.new }
    {
        self.book.keeps();
        let Claim { cluster, ext } = claim;
        self.book.settle(cluster, context);
        self.disk.settle(ext);
    }

    /// Makes all ranges of a context clusters, each of which was settled. Without memory nothing
    /// changes.
    pub(crate) fn publish(&mut self, context: u32) -> Result<(), AllocError>
        requires staged { (self.old.birth.staged ≡ true) × (context ≤ self.old.birth.contexts) }
        requires before { times context (publishers_of (history_of_locked D.state self.old)) ≡ 0 }
        requires filled { AllByRecursion IsFilledRange (own_of (ranges_of (history_of_locked D.state self.old)) context) }
        ensures step { IsLater D.state self.old self.new }
        ensures publishes { Publishes D.state context self.old self.new result }
    {
        self.book.keeps();
        self.book.room_to_publish(context)?;
        self.book.publish(context);
        Ok(())
    }

    /// Hands the range of a cluster back after faults, and the pen that met them. It takes no memory.
    pub(crate) fn spoil(&mut self, context: u32, claim: Claim<D::Ext>, pen: D::Pen)
        requires context { context ≤ self.old.birth.contexts }
        requires own { IsClaimOf D.Ext.state (D.state self.old.birth.begun).held
            (ranges_of (history_of_locked D.state self.old)) context claim }
        requires failed { ((D.Ext.state claim.ext).filled ≡ false) × (1 ≤ (D.Pen.state pen).faults) }
        ensures step { IsLater D.state self.old self.new }
        ensures spoils { Spoils D.state context claim.cluster self.old self.new }
    {
        self.book.keeps();
        let Claim { cluster, ext } = claim;
        self.disk.settle(ext);
        self.disk.return_pen(pen);
        let faults = self.disk.faults();
        self.book.spoil(cluster, context, faults);
    }
}
