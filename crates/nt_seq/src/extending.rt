//! Fields that are added behind entries.

ghost use Rattle.std.specs.Prelude.{◌≡◌, [], true};
ghost use Rattle.nt_types.specs.Views.{member_view};
ghost use Rattle.nt_types.specs.Rules.{IsField};
ghost use Rattle.nt_seq.specs.Writer.{IsClear};
ghost use Rattle.nt_seq.specs.Changing.{ExtendsWriter};

use crate::widening::widen;
use crate::writer::SeqWriter;
use nt_finished::added_fields_are_left_out;
use nt_grammar::late_fields_are_described;
use nt_outside::Disk;
use nt_schema::{ExtendError, described_rows_are_whole};
use nt_types::Member;
use std::alloc::AllocError;

impl<D: Disk> SeqWriter<D> {
    /// Adds a field at the top level behind all others. The entries that are written have its zero.
    /// Where memory is wanting the writer isn't alive any more; another refusal leaves it as it was.
    pub fn extend(&mut self, member: &Member) -> Result<(), ExtendError>
        requires clear { IsClear self.old }
        requires rules { IsField (member_view member.now) }
        ensures { ExtendsWriter D.state (member_view member.now) self.old self.new result }
    {
        late_fields_are_described();
        added_fields_are_left_out();
        described_rows_are_whole();
        self.book.keeps();
        let before = self.schema.columns();
        let entries = self.book.entries();
        match self.schema.extend(member, self.params.plain, entries) {
            Ok(()) => {}
            Err(ExtendError::Memory) => {
                self.alive = false;
                return Err(ExtendError::Memory);
            }
            Err(error) => return Err(error),
        }
        match widen(self.alloc, &self.schema, before, &mut self.book) {
            Ok(columns) => {
                self.direct.forget();
                self.columns = columns;
                Ok(())
            }
            Err(AllocError) => {
                self.alive = false;
                Err(ExtendError::Memory)
            }
        }
    }
}
