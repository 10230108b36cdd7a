//! Columns of a schema that got a field.

ghost use Rattle.std.specs.Prelude.{◌≡◌, ◌≤◌, ◌++◌, [], drop, length, IfOk, OnOk, OnErr};
ghost use Rattle.nt_column.specs.Column.{columns_of};
ghost use Rattle.nt_layout.specs.Laid.{Gives};
ghost use Rattle.nt_seq.specs.Beside.{KeepsParts};
ghost use Rattle.nt_seq.specs.Widening.{first_elements, MayWiden};

use nt_append::added_columns_change_no_part;
use nt_book::Book;
use nt_column::ColumnSet;
use nt_fill::empty_columns;
use nt_schema::Schema;
use std::alloc::{AllocError, Global};

/// The indices of the first elements of the columns from this one on.
fn first_elements(alloc: Global, schema: &Schema, from: u32) -> Result<Vec<u64>, AllocError>
    requires { from ≤ length schema.now.columns }
    ensures { IfOk result (λ v. v.items ≡ first_elements (drop from schema.now.columns)) }
{
    let mut firsts = Vec::new(alloc);
    for k in from..schema.columns() {
        firsts.push(schema.column(k).first)?;
    }
    Ok(firsts)
}

/// Adds the columns from this one on to a book, and gives columns without elements for all. The parts of the file stay.
pub(crate) fn widen(
    alloc: Global,
    schema: &Schema,
    from: u32,
    book: &mut Book,
) -> Result<ColumnSet, AllocError>
    requires { MayWiden schema.now from book.old }
    ensures ok { IfOk result (λ set. Gives schema.now (columns_of set) [] × (book.new ≡ record book.old {
      firsts = book.old.firsts ++ first_elements (drop from schema.now.columns);
    })) }
    ensures parts { OnOk result (KeepsParts schema.now book.old book.new) }
    ensures err { OnErr result (book.new ≡ book.old) }
{
    added_columns_change_no_part();
    book.keeps();
    let firsts = first_elements(alloc, schema, from)?;
    let columns = empty_columns(alloc, schema)?;
    book.widen(&firsts)?;
    book.keeps();
    Ok(columns)
}
