//! Gathered entries that are written.

ghost use Rattle.std.specs.Prelude.{◌≡◌, true, IfOk, IfErr};
ghost use Rattle.nt_outside.specs.Held.{BecomesSome};
ghost use Rattle.nt_commit.specs.declared.error.CommitError.TheVariants.{Memory};
ghost use Rattle.nt_book.specs.Ranges.{IsFromTo, max_page};
ghost use Rattle.nt_column.specs.Column.{columns_of};
ghost use Rattle.nt_pages.specs.Image.{image};
ghost use Rattle.nt_pages.specs.Metas.{cluster_meta};
ghost use Rattle.nt_trees.specs.Described.{AreDescribed};
ghost use Rattle.nt_cuts.specs.Cuts.{LeavesUnfinished};
ghost use Rattle.nt_seq.specs.Changing.{FlushesNext};

use crate::appending::append_next;
use crate::crashing::crashes_leave_closed_or_unfinished;
use crate::writer::SeqWriter;
use nt_column::ColumnSet;
use nt_commit::CommitError;
use nt_outside::Disk;
use nt_pages::{ClusterImage, build_in};
use nt_plans::columns_have_types;
use nt_schema::Schema;
use std::alloc::AllocError;
use std::mem;

/// The image of the cluster of so many entries, in memory that an earlier image had.
fn image_in(
    memory: Vec<u8>,
    columns: &ColumnSet,
    schema: &Schema,
    page: u32,
    entries: u32,
) -> Result<ClusterImage, CommitError>
    requires page { IsFromTo 1 max_page page }
    requires columns { AreDescribed (columns_of columns.now) schema.now.columns }
    ensures bytes { IfOk result (λ i. i.bytes ≡ image page (columns_of columns.now)) }
    ensures meta { IfOk result (λ i. i.meta ≡ cluster_meta page 0 entries (columns_of columns.now)) }
    ensures err { IfErr result (λ e. e ≡ Memory) }
{
    match build_in(memory, columns, schema, page, 0, u64::from(entries)) {
        Ok(image) => Ok(image),
        Err(AllocError) => Err(CommitError::Memory),
    }
}

impl<D: Disk> SeqWriter<D> {
    /// Writes all gathered entries as the next cluster, if there are some.
    fn write_next(&mut self) -> Result<(), CommitError>
        requires alive { self.old.alive ≡ true }
        ensures { FlushesNext D.state self.old self.new result }
    {
        if self.entries == 0 {
            return Ok(());
        }
        columns_have_types();
        let memory = mem::replace(&mut self.spare, Vec::new(self.alloc));
        let mut image = image_in(
            memory,
            &self.columns,
            &self.schema,
            self.params.page,
            self.entries,
        )?;
        append_next(
            self.alloc,
            &mut self.disk,
            &mut self.book,
            &mut image,
            &mut self.alive,
        )?;
        self.spare = image.bytes.into_vec();
        self.direct.forget();
        self.columns.clear();
        self.entries = 0;
        Ok(())
    }

    /// Writes all gathered entries as the next cluster, in one step of the disk, and in one before it the
    /// page list that is due, if one is. With nothing gathered it does nothing. All memory is taken, and
    /// all limits are tested, before these steps. Whatever
    /// came of it, the file isn't closed yet: a crash at any step so far leaves it unfinished.
    pub fn flush(&mut self) -> Result<(), CommitError>
        requires alive { self.old.alive ≡ true }
        ensures flushes { FlushesNext D.state self.old self.new result }
        ensures crash { BecomesSome (D.state self.new.given).held (D.state self.new.disk).held
            (λ h h'. LeavesUnfinished h'.log) }
    {
        crashes_leave_closed_or_unfinished();
        let answer = self.write_next();
        self.keeps();
        answer
    }
}
