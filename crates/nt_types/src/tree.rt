//! The values of fields.

ghost use Rattle.std.specs.Prelude.{◌≡◌, map};
ghost use Rattle.nt_types.specs.TreeViews.{tree_view, trees_view};

use nt_lists::Bytes;

/// The value of a field.
#[derive(Drop)]
#[cycle(tree)]
pub enum Tree {
    /// Of `bool`.
    Flag(bool),
    /// Of characters, bytes and integers.
    Num(i128),
    Text(Bytes),
    /// What a list holds.
    Items(Trees),
    /// One for each member of a record, or part of a tuple.
    Parts(Trees),
    /// A value of an alternative; tags count from 1.
    Pick { tag: u32, value: Box<Tree> },
    /// Of an optional: no value. Of a choice: no alternative.
    Nothing,
}

/// Values in order; at the top level an entry, with one for each field.
#[derive(Drop)]
#[cycle(tree)]
pub struct Trees {
    pub list: Vec<Tree>,
}

impl Trees {
    pub fn from_vec(list: Vec<Tree>) -> Self
        ensures { trees_view result ≡ map tree_view list.items }
    {
        Trees { list }
    }

    pub fn as_slice(&self) -> &[Tree]
        ensures { map tree_view result.now ≡ trees_view self.now }
    {
        self.list.as_slice()
    }

    pub fn into_vec(self) -> Vec<Tree>
        ensures { map tree_view result.items ≡ trees_view self }
    {
        self.list
    }
}
