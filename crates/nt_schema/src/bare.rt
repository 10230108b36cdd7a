//! A schema without the flags of its fields.

ghost use Rattle.std.specs.Prelude.{◌≡◌, map, IfOk};
ghost use Rattle.nt_grammar.specs.declared.rows.FieldRow.{FieldRow};
ghost use Rattle.nt_grammar.specs.Table.{in_header};

use crate::schema::Schema;
use nt_grammar::FieldRow;
use nt_types::Bytes;
use std::alloc::{AllocError, Global};

/// A field without its flags.
fn bare_field(alloc: Global, row: &FieldRow) -> Result<FieldRow, AllocError>
    ensures { IfOk result (λ bare. bare ≡ record row.now { flags = 0 }) }
{
    Ok(FieldRow {
        parent: row.parent,
        role: row.role,
        flags: 0,
        name: Bytes::from_vec(row.name.as_slice().to_vec(alloc)?),
        type_name: Bytes::from_vec(row.type_name.as_slice().to_vec(alloc)?),
    })
}

/// Fields without their flags.
fn bare_fields(alloc: Global, rows: &[FieldRow]) -> Result<Vec<FieldRow>, AllocError>
    ensures { IfOk result (λ bare. bare.items ≡ map (λ (r : FieldRow). record r { flags = 0 }) rows.now) }
{
    let mut bare = Vec::new(alloc);
    for row in rows {
        bare.push(bare_field(alloc, row)?)?;
    }
    Ok(bare)
}

impl Schema {
    /// The schema of the same rows, all of them in the header, without the flags of fields: so a file begins that has the same
    /// fields, and whose columns all begin with its first entry.
    pub fn bare(&self, alloc: Global) -> Result<Schema, AllocError>
        ensures { IfOk result (λ schema. schema
            ≡ in_header (map (λ (r : FieldRow). record r { flags = 0 }) self.now.fields) self.now.columns) }
    {
        let fields = bare_fields(alloc, &self.fields)?;
        let mut columns = Vec::new(alloc);
        columns.extend_from_slice(&self.columns)?;
        let (in_header, columns_in_header) = (self.fields(), self.columns());
        Schema::of_rows(alloc, fields, columns, in_header, columns_in_header)
    }
}
