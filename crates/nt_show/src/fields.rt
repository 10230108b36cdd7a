//! The fields of a file, printed as lines.

ghost use Rattle.std.specs.Prelude.{◌≡◌, ◌<◌, ℕ, length, map, pos, OnOk, IfOk};
ghost use Rattle.nt_types.specs.TreeData.{num, text, trees_of};
ghost use Rattle.nt_types.specs.TreeViews.{tree_view, trees_view};
ghost use Rattle.nt_grammar.specs.Open.{columns_of_field};
ghost use Rattle.nt_outside.specs.Faults.{RoseOnFailed};
ghost use Rattle.nt_show.specs.Ranges.{entry_lines};
ghost use Rattle.nt_show.specs.Fields.{code_tree, is_open_field, field_told, fields_told};
ghost use Rattle.nt_show.specs.Gathering.{PrintsSome, GathersPart, OnlyPrints};
ghost use Rattle.nt_show.specs.Shown.{fields_shown, ShowsFile};

use crate::lines::put_line;
use nt_outside::{Host, ReadAt, Refused, Stream, print_all};
use nt_reader::Reader;
use nt_schema::{FieldRow, Schema};
use nt_tfile::ReadFailure;
use nt_types::{Bytes, Tree, Trees};
use std::alloc::{AllocError, Global};

/// A number as a tree.
fn number_tree(number: u32) -> Tree
    ensures { tree_view result ≡ num (pos number) }
{
    Tree::Num(i128::from(number))
}

/// A copy of a text as a tree.
fn text_tree(alloc: Global, bytes: &Bytes) -> Result<Tree, AllocError>
    ensures { IfOk result (λ tree. tree_view tree ≡ text bytes.now) }
{
    let copy = bytes.as_slice().to_vec(alloc)?;
    Ok(Tree::Text(Bytes::from_vec(copy)))
}

/// The codes of the columns of a field.
fn codes_of(alloc: Global, schema: &Schema, id: u32) -> Result<Trees, AllocError>
    requires { id < length schema.now.fields }
    ensures { IfOk result (λ codes. trees_view codes ≡ map code_tree (columns_of_field id schema.now.columns)) }
{
    let mut codes = Vec::new(alloc);
    for column in schema.columns_of(id) {
        codes.push(number_tree(u32::from(schema.column(*column).code)))?;
    }
    Ok(Trees::from_vec(codes))
}

/// Whether a field lies in an open one at the top level, where that is known of the fields before it.
fn is_open_field(schema: &Schema, known: &[bool], id: u32, row: &FieldRow) -> bool
    requires { length known.now ≡ id }
    ensures { result ≡ is_open_field schema.now known.now row.now }
{
    if row.parent == id {
        return schema.shape(id).is_some();
    }
    match known.get(row.parent as usize) {
        Some(is_open) => *is_open,
        None => false,
    }
}

/// What is said of a field, as an entry is.
fn field_told(
    alloc: Global,
    schema: &Schema,
    id: u32,
    row: &FieldRow,
    is_open: bool,
) -> Result<Trees, AllocError>
    requires { id < length schema.now.fields }
    ensures { IfOk result (λ told. trees_of (trees_view told) ≡ field_told schema.now id row.now is_open) }
{
    let name = text_tree(alloc, &row.name)?;
    let type_name = text_tree(alloc, &row.type_name)?;
    let codes = codes_of(alloc, schema, id)?;
    let list = vec![in alloc;
        number_tree(id),
        number_tree(row.parent),
        name,
        type_name,
        number_tree(u32::from(row.role)),
        Tree::Items(codes),
        Tree::Flag(is_open),
    ]?;
    Ok(Trees::from_vec(list))
}

/// Gathers the lines of all fields.
fn put_fields<H: Host>(
    alloc: Global,
    host: &mut H,
    waiting: &mut Vec<u8>,
    schema: &Schema,
) -> Result<(), Refused>
    ensures ok { OnOk result (PrintsSome (entry_lines (fields_told schema.now))
        (H.state host.old).world waiting.old.items (H.state host.new).world waiting.new.items) }
    ensures part { GathersPart (entry_lines (fields_told schema.now))
        (H.state host.old).world waiting.old.items (H.state host.new).world }
    ensures cause { RoseOnFailed (H.state host.old).faults (H.state host.new).faults result }
    ensures rest { OnlyPrints (H.state host.old) (H.state host.new) }
{
    let mut known = Vec::new(alloc);
    for id in 0..schema.fields() {
        let row = schema.field(id);
        let is_open = is_open_field(schema, &known, id, row);
        let told = field_told(alloc, schema, id, row, is_open)?;
        put_line(alloc, host, waiting, &told)?;
        known.push(is_open)?;
    }
    Ok(())
}

/// Attaches to a file, and prints a line for each field of its schema, in the order of their ids: a
/// compact JSON array of id, id of the parent, name, name of the type, role, the codes of its columns,
/// and whether the field at the top level that it lies in is open. A name that isn't UTF-8 stands as
/// an object with its bytes as hex. Of a file with a fault before any page nothing is printed.
///
/// # Errors
///
/// A defect is the first fault of the file before any page. `Fault` comes only where the count of the
/// host or of the file rose, `Memory` where memory ran out; then some of the lines are printed.
pub fn show_fields<H: Host, F: ReadAt>(
    alloc: Global,
    host: &mut H,
    file: &mut F,
) -> Result<(), ReadFailure>
    ensures { ShowsFile fields_shown (H.state host.old) (H.state host.new)
        (F.state file.old) (F.state file.new) result }
{
    let reader = Reader::attach(alloc, file)?;
    let mut waiting = Vec::new(alloc);
    put_fields(alloc, host, &mut waiting, reader.schema())?;
    print_all(host, Stream::ToOut, &waiting)?;
    Ok(())
}
