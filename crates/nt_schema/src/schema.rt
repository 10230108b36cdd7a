//! The rows of a schema, in tables by id.

ghost use Rattle.std.specs.Prelude.{◌≡◌, ◌<◌, length, Some, slice_get, option_map, option_and_then, IfOk};
ghost use Rattle.nt_types.specs.Views.{shape_view};
ghost use Rattle.nt_grammar.specs.Table.{no_rows, table_of};
ghost use Rattle.nt_schema.specs.ByName.{find_from};
ghost use Rattle.nt_grammar.specs.Open.{ids_inside, open_shape};
ghost use Rattle.nt_plans.specs.Plan.{has_any, plans_of};
ghost use Rattle.nt_plans.specs.PlanViews.{plans_view};
ghost use Rattle.nt_plans.specs.Place.{column_ids, open_plans};
ghost use Rattle.nt_plans.specs.Needs.{is_entries, need_of, top_of};
ghost use Rattle.nt_schema.specs.Schema.{IsTable};

use crate::by_name::{Names, names_of};
use nt_grammar::{ColumnRow, FieldRow};
use nt_open::{OpenFields, judge};
use nt_plans::Plans;
use nt_types::Shape;
use std::alloc::{AllocError, Global};
use std::marker::Model;
use std::mem;

/// The fields and columns of events. Ids of fields and columns count from 0, in the header and on
/// in its extension.
#[derive(Drop)]
pub struct Schema {
    pub(crate) fields: Vec<FieldRow>,
    pub(crate) columns: Vec<ColumnRow>,
    pub(crate) header_fields: u32,
    pub(crate) header_columns: u32,
    /// The first field at the top level of each name.
    names: Option<Names>,
    /// The shapes and plans of open fields, and what belongs to each field and column.
    kept: OpenFields,
}

impl Model for Schema {
    ghost use Rattle.nt_grammar.specs.Table.{Table, table_of};

    ghost Value = { Table };

    ghost use Rattle.nt_schema.specs.Schema.{IsKept};

    ghost view = { λ s. table_of s.fields.items s.columns.items s.header_fields s.header_columns };

    ghost invariant = { λ s. IsKept
        (table_of s.fields.items s.columns.items s.header_fields s.header_columns) s.names s.kept };
}

fn shape_at(shapes: &[Option<Shape>], id: usize) -> Option<&Shape>
    ensures { option_map (λ shape. shape_view shape.now) result
        ≡ option_and_then (option_map shape_view) (slice_get shapes.now id) }
{
    match shapes.get(id) {
        Some(shape) => shape.as_ref(),
        None => None,
    }
}

impl Schema {
    /// No row.
    pub fn new(alloc: Global) -> Schema
        ensures { result ≡ no_rows }
    {
        Schema {
            fields: Vec::new(alloc),
            columns: Vec::new(alloc),
            header_fields: 0,
            header_columns: 0,
            names: None,
            kept: OpenFields::new(alloc),
        }
    }

    /// A schema of these rows, of which so many stand in the header. Whoever adds rows makes the
    /// schema anew from all of them.
    pub(crate) fn of_rows(
        alloc: Global,
        fields: Vec<FieldRow>,
        columns: Vec<ColumnRow>,
        header_fields: u32,
        header_columns: u32,
    ) -> Result<Schema, AllocError>
        requires { IsTable (table_of fields.items columns.items header_fields header_columns) }
        ensures { IfOk result (λ schema. schema
            ≡ table_of fields.items columns.items header_fields header_columns) }
    {
        let names = Some(names_of(alloc, &fields)?);
        let kept = judge(alloc, &fields, &columns)?;
        Ok(Schema {
            fields,
            columns,
            header_fields,
            header_columns,
            names,
            kept,
        })
    }

    /// Takes all rows out, so that more can be put behind them; the schema has no row then.
    pub(crate) fn take_rows(&mut self) -> (Vec<FieldRow>, Vec<ColumnRow>)
        ensures fields { result.0.items ≡ self.old.fields }
        ensures columns { result.1.items ≡ self.old.columns }
        ensures table { IsTable self.old }
        ensures none { self.new ≡ no_rows }
    {
        let alloc = *self.fields.allocator();
        let taken = mem::replace(self, Schema::new(alloc));
        (taken.fields, taken.columns)
    }

    /// The first field at the top level of this name.
    pub fn find(&self, name: &[u8]) -> Option<u32>
        ensures { result ≡ find_from 0 self.now.fields name.now }
    {
        match &self.names {
            Some(names) => names.get(name).copied(),
            None => None,
        }
    }

    /// The shape of the values of an open field at the top level. A tuple has that of a record with
    /// members `_0`, `_1` and so on.
    pub fn shape(&self, field: u32) -> Option<&Shape>
        ensures { option_map (λ shape. shape_view shape.now) result ≡ open_shape self.now field }
    {
        shape_at(&self.kept.shapes, field as usize)
    }

    /// The plans of all open fields at the top level, in order.
    pub fn plans(&self) -> &Plans
        ensures { plans_of (plans_view result.now) ≡ open_plans self.now }
    {
        &self.kept.plans
    }

    /// Whether a column is of an open field.
    pub fn is_open_column(&self, column: u32) -> bool
        requires { column < length self.now.columns }
        ensures { result ≡ has_any (open_plans self.now) column }
    {
        self.kept.is_open(column)
    }

    /// Whether a column is principal: it is of an open field, and has one element an entry.
    pub fn is_principal(&self, column: u32) -> bool
        requires { column < length self.now.columns }
        ensures { result ≡ is_entries (need_of self.now column) }
    {
        self.kept.is_principal(column)
    }

    /// The open field at the top level that a column is of.
    pub fn top_field(&self, column: u32) -> Option<u32>
        requires { column < length self.now.columns }
        ensures { result ≡ top_of self.now column }
    {
        self.kept.top_field(column)
    }

    /// The ids of the fields directly inside a field, in order.
    pub fn children(&self, field: u32) -> &[u32]
        requires { field < length self.now.fields }
        ensures { result.now ≡ ids_inside field 0 self.now.fields }
    {
        self.kept.inside_of(field)
    }

    /// The ids of the columns of a field, in order.
    pub fn columns_of(&self, field: u32) -> &[u32]
        requires { field < length self.now.fields }
        ensures { result.now ≡ column_ids field 0 self.now.columns }
    {
        self.kept.columns_of(field)
    }

    /// The number of fields.
    pub fn fields(&self) -> u32
        ensures { result ≡ length self.now.fields }
    {
        self.fields.len() as u32
    }

    /// The number of columns.
    pub fn columns(&self) -> u32
        ensures { result ≡ length self.now.columns }
    {
        self.columns.len() as u32
    }

    /// How many fields stand in the header.
    pub fn header_fields(&self) -> u32
        ensures { result ≡ self.now.header_fields }
    {
        self.header_fields
    }

    /// How many columns stand in the header.
    pub fn header_columns(&self) -> u32
        ensures { result ≡ self.now.header_columns }
    {
        self.header_columns
    }

    /// The row of a field.
    pub fn field(&self, id: u32) -> &FieldRow
        requires { id < length self.now.fields }
        ensures { slice_get self.now.fields id ≡ Some result.now }
    {
        &self.fields[id as usize]
    }

    /// The row of a column.
    pub fn column(&self, id: u32) -> &ColumnRow
        requires { id < length self.now.columns }
        ensures { slice_get self.now.columns id ≡ Some result.now }
    {
        &self.columns[id as usize]
    }
}

/// Schemas can be handed to another thread, and be read by several.
pub fn schemas_can_be_shared() {
    is_shared::<Schema>();
}

/// What can be handed to another thread, and be read by several.
fn is_shared<T: Send + Sync>() {}
