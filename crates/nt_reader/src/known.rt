//! What a schema tells of its columns.

ghost use Rattle.std.specs.Prelude.{◌≡◌, IfOk};
ghost use Rattle.nt_file_meaning.specs.Outlines.{known_columns};

use nt_listing::{Wanting, known_column};
use nt_meta::KnownColumns;
use nt_schema::Schema;
use std::alloc::Global;

/// What a schema tells of its columns, by id.
pub fn known_columns(alloc: Global, schema: &Schema) -> Result<KnownColumns, Wanting>
    ensures { IfOk result (λ known. known ≡ known_columns schema.now) }
{
    let mut columns = Vec::new(alloc);
    for id in 0..schema.columns() {
        columns.push(known_column(schema, id))?;
    }
    Ok(KnownColumns::from_vec(alloc, columns)?)
}
