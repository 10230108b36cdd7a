//! The totals of a file as lines.

ghost use Rattle.std.specs.Prelude.{◌≡◌, ◌<◌, pos, length, ℕ, List, Some, IfOk, OnOk};
ghost use Rattle.nt_types.specs.TreeData.{num, text, trees_of};
ghost use Rattle.nt_types.specs.TreeViews.{tree_view, trees_view};
ghost use Rattle.nt_file_meaning.specs.Outlines.{Outline};
ghost use Rattle.nt_total.specs.declared.total.Total.{Total};
ghost use Rattle.nt_scan.specs.Leaves.{leaves_of, leaf_columns};
ghost use Rattle.nt_scan.specs.Scans.{ServesScan, number_or_nothing, total_told, scan_lines, ScansAs};

use crate::error::ScanError;
use crate::leaf::{Leaf, leaves_of};
use crate::scanning::scan;
use nt_event::write_line;
use nt_outside::ReadAt;
use nt_reader::Reader;
use nt_schema::Schema;
use nt_total::Total;
use nt_types::{Bytes, Tree, Trees};
use std::alloc::{AllocError, Global};
use std::thread::Threads;

/// A count as a tree.
fn count_tree(count: u64) -> Tree
    ensures { tree_view result ≡ num (pos count) }
{
    Tree::Num(i128::from(count))
}

/// A sum as a tree.
fn sum_tree(sum: i128) -> Tree
    ensures { tree_view result ≡ num sum }
{
    Tree::Num(sum)
}

/// A number as a tree, and `null` where there is none.
fn number_or_nothing(number: Option<i128>) -> Tree
    ensures { tree_view result ≡ number_or_nothing number }
{
    match number {
        Some(number) => Tree::Num(number),
        None => Tree::Nothing,
    }
}

/// A copy of the name of a field.
fn name_tree(alloc: Global, name: &Bytes) -> Result<Tree, AllocError>
    ensures { IfOk result (λ tree. tree_view tree ≡ text name.now) }
{
    let copy = name.as_slice().to_vec(alloc)?;
    Ok(Tree::Text(Bytes::from_vec(copy)))
}

/// What is told of a leaf, as an entry is.
fn total_told(
    alloc: Global,
    schema: &Schema,
    leaf: Leaf,
    total: &Total,
) -> Result<Trees, AllocError>
    requires { leaf.field < length schema.now.fields }
    ensures { IfOk result (λ told. trees_of (trees_view told) ≡ total_told schema.now leaf total.now) }
{
    let name = name_tree(alloc, &schema.field(leaf.field).name)?;
    let list = vec![in alloc;
        count_tree(u64::from(leaf.field)),
        name,
        count_tree(total.count),
        sum_tree(total.sum),
        number_or_nothing(total.least),
        number_or_nothing(total.greatest),
    ]?;
    Ok(Trees::from_vec(list))
}

/// The columns of leaves.
fn columns_of(alloc: Global, leaves: &[Leaf]) -> Result<Vec<u32>, AllocError>
    ensures { IfOk result (λ columns. columns.items ≡ leaf_columns leaves.now) }
{
    let mut columns = Vec::new(alloc);
    for leaf in leaves {
        columns.push(leaf.column)?;
    }
    Ok(columns)
}

/// The lines of leaves with their totals.
fn lines_of(
    alloc: Global,
    schema: &Schema,
    leaves: &[Leaf],
    totals: &[Total],
) -> Result<Bytes, AllocError>
    requires leaves { leaves.now ≡ leaves_of schema.now }
    requires len { length totals.now ≡ length leaves.now }
    ensures { IfOk result (λ lines. lines ≡ scan_lines schema.now leaves.now totals.now) }
{
    let mut lines = Vec::new(alloc);
    for i in 0..leaves.len() {
        let told = total_told(alloc, schema, leaves[i], &totals[i])?;
        write_line(alloc, &told, &mut lines)?;
    }
    Ok(Bytes::from_vec(lines))
}

/// Attaches to a file, and gives a line for each number leaf of an open field, in the order of the fields' ids: a compact JSON array of
/// id, name, how many numbers there are, their sum, the least and the greatest, which are `null` where there is none. A name that
/// isn't UTF-8 stands as an object with its bytes as hex.
///
/// # Errors
///
/// `TooMany` where a column has more than 2^60 elements, before any page is read. A defect is the first fault of the file. `Fault`
/// comes only where the file's count of faults rose, `Memory` where memory ran out.
pub fn scan_file<F: ReadAt>(
    rt: &(impl Threads + Sync),
    alloc: Global,
    file: &mut F,
) -> Result<Bytes, ScanError>
    ensures file { ServesScan (F.state file.old) (F.state file.new) result }
    ensures scans { (told : List ℕ) → (F.state file.old).bytes ≡ Some told → ScansAs told result }
{
    let reader = Reader::attach(alloc, file)?;
    let leaves = leaves_of(alloc, reader.schema())?;
    let columns = columns_of(alloc, &leaves)?;
    let totals = scan(rt, alloc, &reader, file, &columns)?;
    Ok(lines_of(alloc, reader.schema(), &leaves, totals.as_slice())?)
}
