//! What is kept of the rows of a schema.

ghost use Rattle.std.specs.Prelude.{◌≡◌, ◌<◌, ◌^◌, [], length, option_map, vec_len, IfOk};
ghost use Rattle.std.specs.Option.{is_some};
ghost use Rattle.nt_open.specs.Grouped.{items_at};
ghost use Rattle.nt_open.specs.Uses.{use_view, use_at, principal_of, top_field_of};
ghost use Rattle.nt_open.specs.Opened.{IsOpened};

use crate::grouped::Grouped;
use crate::placing::plans_of;
use crate::shapes::shapes_of;
use crate::uses::ColumnUse;
use nt_grammar::{ColumnRow, FieldRow};
use nt_plans::Plans;
use nt_types::Shape;
use std::alloc::{AllocError, Global};

/// What is kept of the rows of a schema, so that nobody walks over them again.
#[derive(Drop)]
pub struct OpenFields {
    /// The shape of each field, where it is at the top level and open.
    pub shapes: Vec<Option<Shape>>,
    /// The plans of these fields, in order.
    pub plans: Plans,
    /// What each column is of, where it is one of an open field.
    pub uses: Vec<Option<ColumnUse>>,
    /// The ids of the fields inside each field, in order.
    pub inside: Vec<Vec<u32>>,
    /// The ids of the columns of each field, in order.
    pub columns: Vec<Vec<u32>>,
}

impl OpenFields {
    /// That of no rows.
    pub fn new(alloc: Global) -> OpenFields
        ensures { IsOpened [] [] result }
    {
        OpenFields {
            shapes: Vec::new(alloc),
            plans: Plans::from_vec(Vec::new(alloc)),
            uses: Vec::new(alloc),
            inside: Vec::new(alloc),
            columns: Vec::new(alloc),
        }
    }

    #[tactic(auto, using(crate::proofs::Marking::use_at_there, crate::proofs::Marking::use_at_past))]
    fn use_of(&self, column: u32) -> Option<ColumnUse>
        ensures { option_map use_view result ≡ use_at self.now.uses.items column }
    {
        let at = column as usize;
        if at < self.uses.len() {
            self.uses[at]
        } else {
            None
        }
    }

    /// Whether something is kept of a column.
    pub fn is_open(&self, column: u32) -> bool
        ensures { result ≡ is_some (use_at self.now.uses.items column) }
    {
        self.use_of(column).is_some()
    }

    /// Whether it is kept of a column that it is principal.
    pub fn is_principal(&self, column: u32) -> bool
        ensures { result ≡ principal_of (use_at self.now.uses.items column) }
    {
        match self.use_of(column) {
            Some(found) => found.principal,
            None => false,
        }
    }

    /// The field at the top level that is kept of a column.
    pub fn top_field(&self, column: u32) -> Option<u32>
        ensures { result ≡ option_map top_field_of (use_at self.now.uses.items column) }
    {
        match self.use_of(column) {
            Some(found) => Some(found.top),
            None => None,
        }
    }

    /// The ids that are kept of a field.
    #[tactic(auto, using(crate::proofs::ByField::items_at_get))]
    pub fn inside_of(&self, field: u32) -> &[u32]
        requires { field < vec_len self.now.inside }
        ensures { result.now ≡ items_at self.now.inside.items field }
    {
        &self.inside[field as usize]
    }

    /// The ids of columns that are kept of a field.
    #[tactic(auto, using(crate::proofs::ByField::items_at_get))]
    pub fn columns_of(&self, field: u32) -> &[u32]
        requires { field < vec_len self.now.columns }
        ensures { result.now ≡ items_at self.now.columns.items field }
    {
        &self.columns[field as usize]
    }
}

/// Judges which fields at the top level are open. Each field is looked at once.
pub fn judge(
    alloc: Global,
    fields: &[FieldRow],
    columns: &[ColumnRow],
) -> Result<OpenFields, AllocError>
    requires few_fields { length fields.now < 2 ^ 32 }
    requires few_columns { length columns.now < 2 ^ 32 }
    ensures { IfOk result (λ kept. IsOpened fields.now columns.now kept) }
{
    let rows = Grouped::new(alloc, fields, columns)?;
    let shapes = shapes_of(alloc, &rows)?;
    let (plans, uses) = plans_of(alloc, &rows, &shapes)?;
    let (inside, columns) = rows.into_ids();
    Ok(OpenFields {
        shapes,
        plans,
        uses,
        inside,
        columns,
    })
}
