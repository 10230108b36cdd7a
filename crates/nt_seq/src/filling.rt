//! Entries that are gathered.

ghost use Rattle.std.specs.Prelude.{◌≡◌, ◌<◌, length, true, MatchBool, OnOk, OnErr};
ghost use Rattle.std.specs.Str.{IsUtf8};
ghost use Rattle.nt_types.specs.TreeData.{trees_of};
ghost use Rattle.nt_types.specs.TreeViews.{trees_view};
ghost use Rattle.nt_trees.specs.Fits.{fits_entry};
ghost use Rattle.nt_seq.specs.Writer.{gathered_by, GathersEntry, GathersEntryOf};

use crate::writer::SeqWriter;
use nt_column::Columns;
use nt_outside::Disk;
use nt_plans::columns_have_types;
use nt_shred::{is_utf8, shred};
use nt_types::Trees;
use std::alloc::AllocError;

impl<D: Disk> SeqWriter<D> {
    /// Gathers one entry, which has one tree for each field as the schema is now. Without memory
    /// nothing changes.
    pub fn fill(&mut self, trees: &Trees) -> Result<(), AllocError>
        requires alive { self.old.alive ≡ true }
        requires room { length (gathered_by self.old) < self.old.params.cluster }
        requires fits { fits_entry self.old.table (trees_of (trees_view trees.now)) ≡ true }
        ensures ok { OnOk result (GathersEntry (trees_of (trees_view trees.now)) self.old self.new) }
        ensures err { OnErr result (self.new ≡ self.old) }
    {
        columns_have_types();
        self.direct.forget();
        shred(trees, &self.schema, &mut self.columns)?;
        // A text that was added is of bytes, since its column is.
        self.columns.in_range();
        self.entries += 1;
        Ok(())
    }

    /// Gathers the entry of a line, its LF taken off, without a tree of it; and says whether it took
    /// the line. A line that it didn't take is to be read.
    pub fn fill_line(&mut self, line: &[u8]) -> bool
        requires alive { self.old.alive ≡ true }
        requires room { length (gathered_by self.old) < self.old.params.cluster }
        ensures { MatchBool result (GathersEntryOf line.now self.old self.new) (self.new ≡ self.old) }
    {
        is_utf8(line) && self.fill_utf8(line)
    }

    /// The same of a line that is known to be UTF-8.
    fn fill_utf8(&mut self, line: &[u8]) -> bool
        requires alive { self.old.alive ≡ true }
        requires room { length (gathered_by self.old) < self.old.params.cluster }
        requires utf8 { IsUtf8 line.now }
        ensures { MatchBool result (GathersEntryOf line.now self.old self.new) (self.new ≡ self.old) }
    {
        columns_have_types();
        if !self.direct.put_line(line, &self.schema, &mut self.columns) {
            return false;
        }
        self.columns.in_range();
        self.entries += 1;
        true
    }
}
