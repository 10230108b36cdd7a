//! The numbers of an entry, added to a sum, which stands still at the last number of its type.

ghost use Rattle.std.specs.Prelude.{◌≡◌, ◌+◌, map};
ghost use Rattle.nt_types.specs.TreeData.{num, trees_of};
ghost use Rattle.nt_types.specs.TreeViews.{tree_view, trees_view};
ghost use Rattle.nt_generate.specs.Numbers.{counted_number, numbers_sum, field_sum, entry_sum};
ghost use Rattle.nt_generate.specs.Totals.{counted_to};

use nt_types::{Tree, Trees};

/// A number as it is counted: 0 for one below 0, and the last number for one above.
fn counted(number: i128) -> u64
    ensures { result ≡ counted_to (counted_number (num number)) }
{
    if number < 0 {
        0
    } else if number > i128::from(u64::MAX) {
        u64::MAX
    } else {
        number as u64
    }
}

/// Adds a value that is a number.
fn add_number(sum: u64, tree: &Tree) -> u64
    ensures { result ≡ counted_to (sum + counted_number (tree_view tree.now)) }
{
    match tree {
        Tree::Num(number) => sum.saturating_add(counted(*number)),
        _ => sum,
    }
}

/// Adds the numbers of a list.
fn add_numbers(sum: u64, trees: &[Tree]) -> u64
    ensures { result ≡ counted_to (sum + numbers_sum (trees_of (map tree_view trees.now))) }
{
    let mut total = sum;
    for tree in trees {
        total = add_number(total, tree);
    }
    total
}

/// Adds the number of a field, or those in its list.
fn add_field(sum: u64, tree: &Tree) -> u64
    ensures { result ≡ counted_to (sum + field_sum (tree_view tree.now)) }
{
    match tree {
        Tree::Items(trees) => add_numbers(sum, trees.as_slice()),
        _ => add_number(sum, tree),
    }
}

/// Adds the numbers of fields.
fn add_fields(sum: u64, trees: &[Tree]) -> u64
    ensures { result ≡ counted_to (sum + entry_sum (trees_of (map tree_view trees.now))) }
{
    let mut total = sum;
    for tree in trees {
        total = add_field(total, tree);
    }
    total
}

/// Adds the numbers of an entry.
pub(crate) fn add_entry(sum: u64, entry: &Trees) -> u64
    ensures { result ≡ counted_to (sum + entry_sum (trees_of (trees_view entry.now))) }
{
    add_fields(sum, entry.as_slice())
}
