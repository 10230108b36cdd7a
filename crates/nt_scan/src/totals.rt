//! Totals, one for each column.

ghost use Rattle.std.specs.Prelude.{◌≡◌, length, IfOk};
ghost use Rattle.nt_scan.specs.Steps.{AreTotalled};

use crate::leaf::column_kind;
use nt_schema::Schema;
use nt_total::{Running, Total};
use std::alloc::{AllocError, Global};
use std::marker::Model;

/// The totals of columns, in the order in which the columns were given.
#[derive(Drop)]
pub struct Totals {
    items: Vec<Total>,
}

impl Model for Totals {
    ghost use Rattle.std.specs.Prelude.{List};
    ghost use Rattle.nt_total.specs.declared.total.Total.{Total};

    ghost Value = { List Total };

    ghost view = { λ t. t.items.items };
}

impl Totals {
    pub fn as_slice(&self) -> &[Total]
        ensures { result.now ≡ self.now }
    {
        &self.items
    }
}

/// The totals of what is kept of columns.
pub fn totals_of(
    alloc: Global,
    schema: &Schema,
    columns: &[u32],
    running: &[Running],
) -> Result<Totals, AllocError>
    requires { length running.now ≡ length columns.now }
    ensures { IfOk result (λ totals. AreTotalled schema.now columns.now running.now totals) }
{
    let mut items = Vec::new(alloc);
    for i in 0..columns.len() {
        items.push(running[i].total(column_kind(schema, columns[i])))?;
    }
    Ok(Totals { items })
}
