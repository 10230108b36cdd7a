//! How contexts come and go.

ghost use Rattle.std.specs.Prelude.{◌≡◌, ◌+◌, ◌<◌, [], IfOk, IfErr};
ghost use Rattle.nt_commit.specs.Holds.{IsPassOf, IsFirstOf, AddsInHold, OpensInHold, RefusesPen, EntersAfter, LeavesAfter, HasNoneOut};

use crate::committer::CommitterOf;
use crate::locked::Locked;
use nt_outside::{Disk, Refused};
use nt_turn::Pass;
use std::sync::Wait;

impl<D: Disk> CommitterOf<Locked<D>> {
    /// Makes a pen in one hold of the turn.
    fn open_pen(&self, rt: &impl Wait, pass: &mut Pass<Locked<D>>) -> Result<D::Pen, Refused>
        requires pass { IsPassOf self.now pass.old }
        ensures opens { OpensInHold D.state self.now pass.old pass.new result }
        ensures new { IfOk result (λ p. (D.Pen.state p).faults ≡ 0) }
    {
        let context = pass.number();
        let mut locked = self.turn.take(rt, pass);
        let answer = locked.open_pen(context);
        self.turn.give(pass, locked);
        answer
    }

    /// Takes a pen back in one hold of the turn.
    fn take_pen(&self, rt: &impl Wait, pass: &mut Pass<Locked<D>>, pen: D::Pen)
        requires pass { IsPassOf self.now pass.old }
        ensures keeps { AddsInHold D.state self.now [] pass.old pass.new }
    {
        let mut locked = self.turn.take(rt, pass);
        locked.take_pen(pen);
        self.turn.give(pass, locked);
    }

    /// Lets one more context in: its pass, with the next number, and its pen. After a refusal no
    /// pass was split and no pen is out.
    pub fn enter(
        &self,
        rt: &impl Wait,
        first: &mut Pass<Locked<D>>,
    ) -> Result<(Pass<Locked<D>>, D::Pen), Refused>
        requires first { IsFirstOf self.now first.old }
        requires room { first.old.splits < self.now.birth.contexts }
        ensures ok { IfOk result (λ r. EntersAfter D.state D.Pen.state self.now first.old first.new r.0 r.1) }
        ensures err { IfErr result (λ e. RefusesPen D.state self.now first.old first.new e) }
    {
        match self.open_pen(rt, first) {
            Ok(pen) => {
                let pass = self.turn.split(first);
                Ok((pass, pen))
            }
            Err(refused) => Err(refused),
        }
    }

    /// Joins the pass of a context that is done, and takes its pen back where there is one.
    pub fn leave(
        &self,
        rt: &impl Wait,
        first: &mut Pass<Locked<D>>,
        pass: Pass<Locked<D>>,
        pen: Option<D::Pen>,
    )
        requires first { IsFirstOf self.now first.old }
        requires pass { IsPassOf self.now pass }
        requires none_out { HasNoneOut pass.own }
        ensures leaves { LeavesAfter first.old pass first.new }
    {
        match pen {
            Some(pen) => self.take_pen(rt, first, pen),
            None => {}
        }
        self.turn.join(first, pass);
    }
}
