//! Clusters, as page lists tell of them.

ghost use Rattle.std.specs.Prelude.{◌≡◌};

use crate::page::PageItems;
use std::marker::Model;

/// The entries of a cluster.
#[derive(Clone, Copy, Debug, PartialEq, Eq)]
pub struct ClusterSummary {
    /// Its number in the file.
    pub number: u32,
    /// Its first entry.
    pub first: u64,
    /// The number of its entries.
    pub entries: u64,
}

/// The pages of a column in a cluster.
#[derive(Drop)]
pub struct ColumnList {
    /// The place of its frame.
    pub inner: u64,
    /// The index of its first element here, negative where the column is suppressed.
    pub offset: i64,
    pub pages: PageItems,
}

/// The pages of a cluster.
#[derive(Drop)]
pub struct ClusterList {
    /// Its first entry.
    pub first: u64,
    /// The number of its entries.
    pub entries: u64,
    /// The place of its frame.
    pub outer: u64,
    /// The columns that are listed, by id.
    pub columns: ColumnLists,
}

/// The columns of a cluster, by id.
#[derive(Drop)]
pub struct ColumnLists {
    lists: Vec<ColumnList>,
}

impl Model for ColumnLists {
    ghost use Rattle.std.specs.Prelude.{List};
    ghost use Rattle.nt_pagelists.specs.declared.cluster.ColumnList.{ColumnList};

    ghost Value = { List ColumnList };

    ghost view = { λ c. c.lists.items };
}

impl ColumnLists {
    pub fn from_vec(lists: Vec<ColumnList>) -> Self
        ensures { result ≡ lists.items }
    {
        ColumnLists { lists }
    }

    pub fn as_slice(&self) -> &[ColumnList]
        ensures { result.now ≡ self.now }
    {
        &self.lists
    }

    pub fn into_vec(self) -> Vec<ColumnList>
        ensures { result.items ≡ self }
    {
        self.lists
    }
}

/// The clusters of a group, in order.
#[derive(Drop)]
pub struct ClusterLists {
    lists: Vec<ClusterList>,
}

impl Model for ClusterLists {
    ghost use Rattle.std.specs.Prelude.{List};
    ghost use Rattle.nt_pagelists.specs.declared.cluster.ClusterList.{ClusterList};

    ghost Value = { List ClusterList };

    ghost view = { λ c. c.lists.items };
}

impl ClusterLists {
    pub fn from_vec(lists: Vec<ClusterList>) -> Self
        ensures { result ≡ lists.items }
    {
        ClusterLists { lists }
    }

    pub fn as_slice(&self) -> &[ClusterList]
        ensures { result.now ≡ self.now }
    {
        &self.lists
    }

    pub fn into_vec(self) -> Vec<ClusterList>
        ensures { result.items ≡ self }
    {
        self.lists
    }
}
