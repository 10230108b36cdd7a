//! Cluster groups, as footers tell of them.

ghost use Rattle.std.specs.Prelude.{◌≡◌};

use nt_format::Link;
use std::marker::Model;

/// Clusters that share a page list.
#[derive(Clone, Copy, Debug, PartialEq, Eq)]
pub struct Group {
    /// Their first entry.
    pub first: u64,
    /// The number of their entries.
    pub span: u64,
    /// The number of clusters.
    pub clusters: u32,
    /// Where their page list is.
    pub link: Link,
}

/// The groups of a file, in order.
#[derive(Drop)]
pub struct Groups {
    groups: Vec<Group>,
}

impl Model for Groups {
    ghost use Rattle.std.specs.Prelude.{List};
    ghost use Rattle.nt_pagelists.specs.declared.group.Group.{Group};

    ghost Value = { List Group };

    ghost view = { λ g. g.groups.items };
}

impl Groups {
    pub fn from_vec(groups: Vec<Group>) -> Self
        ensures { result ≡ groups.items }
    {
        Groups { groups }
    }

    pub fn as_slice(&self) -> &[Group]
        ensures { result.now ≡ self.now }
    {
        &self.groups
    }

    pub fn into_vec(self) -> Vec<Group>
        ensures { result.items ≡ self }
    {
        self.groups
    }
}
