//! What a tree of a known form holds.

ghost use Rattle.std.specs.Prelude.{◌≡◌, ℕ, ℤ, Bool, true, MatchOption};
ghost use Rattle.nt_types.specs.TreeData.{TreeData, TreesData, flag, num, text, items, parts, pick, nothing, is_nothing};
ghost use Rattle.nt_types.specs.TreeViews.{tree_view};
ghost use Rattle.nt_types.specs.Fits.{fits_flag, fits_number, fits_text, fits_items, fits_parts, fits_pick};
ghost use Rattle.nt_trees.specs.Views.{trees_in};

use nt_types::Tree;

/// The truth value.
pub fn flag_in(tree: &Tree) -> bool
    requires { fits_flag (tree_view tree.now) ≡ true }
    ensures { tree_view tree.now ≡ flag result }
{
    match tree {
        Tree::Flag(value) => *value,
        _ => unreachable!(),
    }
}

/// The integer.
pub fn number_in(tree: &Tree) -> i128
    requires { (f : ℤ → Bool) × (fits_number f (tree_view tree.now) ≡ true) }
    ensures { tree_view tree.now ≡ num result }
{
    match tree {
        Tree::Num(value) => *value,
        _ => unreachable!(),
    }
}

/// The bytes of the text.
pub fn text_in(tree: &Tree) -> &[u8]
    requires { fits_text (tree_view tree.now) ≡ true }
    ensures { tree_view tree.now ≡ text result.now }
{
    match tree {
        Tree::Text(bytes) => bytes.as_slice(),
        _ => unreachable!(),
    }
}

/// The items of the list.
pub fn items_in(tree: &Tree) -> &[Tree]
    requires { (f : TreesData → Bool) × (fits_items f (tree_view tree.now) ≡ true) }
    ensures { tree_view tree.now ≡ items (trees_in result.now) }
{
    match tree {
        Tree::Items(trees) => &trees.list,
        _ => unreachable!(),
    }
}

/// The parts of the record.
pub fn parts_in(tree: &Tree) -> &[Tree]
    requires { (f : TreesData → Bool) × (fits_parts f (tree_view tree.now) ≡ true) }
    ensures { tree_view tree.now ≡ parts (trees_in result.now) }
{
    match tree {
        Tree::Parts(trees) => &trees.list,
        _ => unreachable!(),
    }
}

/// Whether it is no value.
pub fn is_nothing(tree: &Tree) -> bool
    ensures { result ≡ is_nothing (tree_view tree.now) }
{
    matches!(tree, Tree::Nothing)
}

/// A tree of an alternative.
pub struct Picked<'a> {
    pub tag: u32,
    pub tree: &'a Tree,
}

/// The alternative that was picked, or none.
pub fn pick_in(tree: &Tree) -> Option<Picked<'_>>
    requires { (f : ℕ → TreeData → Bool) × (fits_pick f (tree_view tree.now) ≡ true) }
    ensures { MatchOption result (tree_view tree.now ≡ nothing)
        (λ p. tree_view tree.now ≡ pick p.tag (tree_view p.tree.now)) }
{
    match tree {
        Tree::Nothing => None,
        Tree::Pick { tag, value } => Some(Picked {
            tag: *tag,
            tree: value,
        }),
        _ => unreachable!(),
    }
}
