//! Entries that are gathered.

ghost use Rattle.std.specs.Prelude.{◌≡◌, ◌<◌, length, true, MatchBool, OnOk, OnErr};
ghost use Rattle.std.specs.Str.{IsUtf8};
ghost use Rattle.nt_types.specs.TreeData.{trees_of};
ghost use Rattle.nt_types.specs.TreeViews.{trees_view};
ghost use Rattle.nt_trees.specs.Fits.{fits_entry};
ghost use Rattle.nt_fill.specs.Context.{Gathers, GathersLine, MayGather, gathered};

use crate::context::FillContext;
use nt_column::Columns;
use nt_outside::Disk;
use nt_plans::columns_have_types;
use nt_shred::{is_utf8, shred};
use nt_types::Trees;
use std::alloc::AllocError;

impl<'a, D: Disk> FillContext<'a, D> {
    /// Gathers one entry, which has one tree for each open field. Without memory nothing changes.
    pub fn fill(&mut self, trees: &Trees) -> Result<(), AllocError>
        requires alive { MayGather self.old }
        requires room { length (gathered self.old) < self.old.cluster }
        requires fits { fits_entry self.old.table (trees_of (trees_view trees.now)) ≡ true }
        ensures ok { OnOk result (Gathers (trees_of (trees_view trees.now)) self.old self.new) }
        ensures err { OnErr result (self.new ≡ self.old) }
    {
        columns_have_types();
        self.store.direct.forget();
        shred(trees, self.schema, &mut self.store.columns)?;
        // A text that was added is of bytes, since its column is.
        self.store.columns.in_range();
        self.store.entries += 1;
        Ok(())
    }

    /// Gathers the entry of a line, its LF taken off, without a tree of it; and says whether it took the line. A line that it
    /// didn't take is to be read.
    pub fn fill_line(&mut self, line: &[u8]) -> bool
        requires alive { MayGather self.old }
        requires room { length (gathered self.old) < self.old.cluster }
        ensures { MatchBool result (GathersLine line.now self.old self.new) (self.new ≡ self.old) }
    {
        is_utf8(line) && self.fill_utf8(line)
    }

    /// The same of a line that is known to be UTF-8.
    pub fn fill_utf8(&mut self, line: &[u8]) -> bool
        requires alive { MayGather self.old }
        requires room { length (gathered self.old) < self.old.cluster }
        requires utf8 { IsUtf8 line.now }
        ensures { MatchBool result (GathersLine line.now self.old self.new) (self.new ≡ self.old) }
    {
        columns_have_types();
        if !self
            .store
            .direct
            .put_line(line, self.schema, &mut self.store.columns)
        {
            return false;
        }
        self.store.columns.in_range();
        self.store.entries += 1;
        true
    }
}
