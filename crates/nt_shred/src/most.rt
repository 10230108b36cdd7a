//! How much room trees need.

ghost use Rattle.std.specs.Prelude.{◌≡◌, IfOk};
ghost use Rattle.nt_types.specs.TreeViews.{tree_view};
ghost use Rattle.nt_trees.specs.Views.{trees_in};
ghost use Rattle.nt_shred.specs.Most.{most, most_of_all, most_of_any};

use nt_types::Tree;
use std::alloc::AllocError;

/// How many elements a tree adds to one column at most. No memory holds more than a usize counts.
#[cycle(most)]
fn most(tree: &Tree) -> Result<usize, AllocError>
    ensures { IfOk result (λ n. n ≡ most (tree_view tree.now)) }
{
    match tree {
        Tree::Flag(_) => Ok(1),
        Tree::Num(_) => Ok(1),
        Tree::Text(text) => Ok(text.as_slice().len().max(1)),
        Tree::Items(items) => Ok(most_of_all(&items.list)?.max(1)),
        Tree::Parts(parts) => Ok(most_of_any(&parts.list)?.max(1)),
        Tree::Pick { value, .. } => Ok(most(value)?.max(1)),
        Tree::Nothing => Ok(1),
    }
}

/// Of all of these together.
#[cycle(most)]
fn most_of_all(trees: &[Tree]) -> Result<usize, AllocError>
    ensures { IfOk result (λ n. n ≡ most_of_all (trees_in trees.now)) }
{
    let mut total: usize = 0;
    for tree in trees {
        let more = most(tree)?;
        total = total.checked_add(more).ok_or(AllocError)?;
    }
    Ok(total)
}

/// Of the one of these that adds most.
#[cycle(most)]
pub fn most_of_any(trees: &[Tree]) -> Result<usize, AllocError>
    ensures { IfOk result (λ n. n ≡ most_of_any (trees_in trees.now)) }
{
    let mut highest: usize = 0;
    for tree in trees {
        highest = highest.max(most(tree)?);
    }
    Ok(highest)
}
