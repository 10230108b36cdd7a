//! Staged clusters that are published.

ghost use Rattle.std.specs.Prelude.{◌≡◌, [], true, IsSome};
ghost use Rattle.nt_commit.specs.Holds.{HasNotPublished, PublishesInHold};
ghost use Rattle.nt_fill.specs.Context.{gathered};

use crate::context::FillContext;
use nt_outside::{Disk, Gate, Point};
use std::alloc::AllocError;
use std::sync::Wait;

impl<'a, D: Disk> FillContext<'a, D> {
    /// Publishes all that it has written, in one hold of the turn: each of its ranges becomes a cluster,
    /// in the order in which they were reserved. Without memory it may try again.
    pub fn publish<G: Gate>(&mut self, rt: &impl Wait, gate: &G) -> Result<(), AllocError>
        requires alive { IsSome self.old.pen × (gathered self.old ≡ []) }
        requires staged { (self.old.staged ≡ true) × HasNotPublished self.old.pass }
        ensures publishes { PublishesInHold D.state self.old.committer self.old.pass self.new.pass result }
        ensures now { self.new ≡ record self.old { pass = self.new.pass } }
    {
        let context = self.pass.number();
        gate.at(context, Point::BeforePublish);
        let answer = self.committer.publish(rt, &mut self.pass);
        if answer.is_ok() {
            gate.at(context, Point::Published);
        }
        answer
    }
}
