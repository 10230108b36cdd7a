//! Fields that are added to a schema.

ghost use Rattle.std.specs.Prelude.{◌≡◌, ◌⊎◌, ◌<◌, ◌≤◌, ◌+◌, length, IfErr, OnOk, OnErr};
ghost use Rattle.nt_types.specs.Limits.{max_fields};
ghost use Rattle.nt_types.specs.Views.{member_view};
ghost use Rattle.nt_types.specs.Schema.{field_count};
ghost use Rattle.nt_types.specs.Rules.{IsField};
ghost use Rattle.nt_grammar.specs.Table.{IsFew, no_rows};
ghost use Rattle.nt_grammar.specs.Added.{Added};
ghost use Rattle.nt_schema.specs.Extending.{Extends};

use crate::describing::nodes::all_nodes;
use crate::describing::push_rows;
use crate::extend_error::ExtendError;
use crate::schema::Schema;
use nt_types::{MAX_FIELDS, Member, count_fields};
use std::alloc::AllocError;
use std::slice;

impl Schema {
    /// Puts the rows of one more field behind all others.
    fn add(&mut self, field: &Member, plain: bool, entries: u64) -> Result<(), AllocError>
        requires rules { IsField (member_view field.now) }
        requires few { IsFew self.old }
        requires count { length self.old.fields + field_count (member_view field.now).of ≤ max_fields }
        ensures ok { OnOk result (Added self.old (member_view field.now) plain entries self.new) }
        ensures err { OnErr result ((self.new ≡ self.old) ⊎ (self.new ≡ no_rows)) }
    {
        let alloc = *self.fields.allocator();
        let nodes = all_nodes(alloc, slice::from_ref(field), self.fields.len() as u32)?;
        let (header_fields, header_columns) = (self.header_fields, self.header_columns);
        let (mut fields, mut columns) = self.take_rows();
        push_rows(&nodes, plain, entries, &mut fields, &mut columns)?;
        *self = Schema::of_rows(alloc, fields, columns, header_fields, header_columns)?;
        Ok(())
    }

    /// Adds a field at the top level behind all others, whose rows stand in the extension (section
    /// Footer Envelope). So many entries were written without it: where there are any, its principal
    /// columns begin behind them. A schema for which there was no memory isn't to be used again: it
    /// may have no rows.
    pub fn extend(&mut self, field: &Member, plain: bool, entries: u64) -> Result<(), ExtendError>
        requires rules { IsField (member_view field.now) }
        requires few { IsFew self.old }
        ensures { Extends self.old (member_view field.now) plain entries result self.new }
    {
        if self.find(field.name.as_slice()).is_some() {
            return Err(ExtendError::Repeated);
        }
        if count_fields(&field.of, self.fields()) > MAX_FIELDS {
            return Err(ExtendError::TooMany);
        }
        Ok(self.add(field, plain, entries)?)
    }
}
