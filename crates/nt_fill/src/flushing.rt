//! Gathered entries that are written.

ghost use Rattle.std.specs.Prelude.{◌≡◌, ◌≢◌, ◌<◌, [], length, Ok, Err, OnOk};
ghost use Rattle.nt_commit.specs.declared.error.CommitError.TheVariants.{Memory};
ghost use Rattle.nt_fill.specs.Context.{MayGather, gathered};
ghost use Rattle.nt_fill.specs.Flushes.{RefusesToFlush, WritesCluster, KeepsLimits};
ghost use Rattle.nt_fill.specs.Passes.{KeepsCount};

use crate::context::FillContext;
use crate::writing::{Target, write_image};
use nt_commit::CommitError;
use nt_outside::{Disk, Gate};
use nt_plans::columns_have_types;
use std::mem;
use std::sync::Wait;

impl<'a, D: Disk> FillContext<'a, D> {
    /// Writes all gathered entries as one cluster: reserves its range in a hold of the turn, fills it
    /// outside, and hands it back in another. A staged cluster is published later. With nothing
    /// gathered it does nothing.
    pub fn flush<G: Gate>(&mut self, rt: &impl Wait, gate: &G) -> Result<(), CommitError>
        requires alive { MayGather self.old }
        ensures nothing { gathered self.old ≡ [] → (result ≡ Ok tt) × (self.new ≡ self.old) }
        ensures ok { 0 < length (gathered self.old)
            → OnOk result (WritesCluster D.state self.old self.new × KeepsCount D.Pen.state self.old.pen self.new.pen) }
        ensures limits { 0 < length (gathered self.old) → result ≢ Err Memory
            → KeepsLimits D.state self.old self.new result }
        ensures refused { RefusesToFlush self.old self.new result }
    {
        if self.store.entries == 0 {
            return Ok(());
        }
        columns_have_types();
        let memory = mem::replace(&mut self.store.spare, Vec::new(self.store.alloc));
        let mut image = self.store.image(memory, self.schema, self.pass.number())?;
        let to = Target {
            committer: self.committer,
            staged: self.store.staged,
        };
        write_image(rt, gate, &to, &mut self.pass, &mut self.pen, &mut image)?;
        self.store.spare = image.bytes.into_vec();
        self.store.direct.forget();
        self.store.columns.clear();
        self.store.entries = 0;
        Ok(())
    }
}
