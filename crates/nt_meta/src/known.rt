//! The columns of a schema, as page lists are judged by them.

ghost use Rattle.std.specs.Prelude.{◌≡◌, ℕ, ◌+◌, ◌<◌, ◌≤◌, ◌^◌, List, ◌∷◌, length, drop, slice_index_or, IfOk};
ghost use Rattle.nt_pagelists.specs.Columns.{least_first, AreLeast, ends_before, unknown_column};
ghost use Rattle.nt_pagelists.specs.declared.column.KnownColumn.{KnownColumn};

use nt_pagelists::{ClusterSummary, KnownColumn};
use std::alloc::{AllocError, Global};
use std::marker::Model;

/// What is known of each column, by id. It is made once for all page lists of a file, and has the
/// least first element index of the columns from each id on, so that a cluster need not look at
/// each column that it does not list.
#[derive(Drop)]
pub struct KnownColumns {
    columns: Vec<KnownColumn>,
    firsts: Vec<u64>,
}

impl Model for KnownColumns {
    ghost use Rattle.std.specs.Prelude.{◌<◌, ◌^◌, List, vec_len};
    ghost use Rattle.nt_pagelists.specs.Columns.{AreLeast};
    ghost use Rattle.nt_pagelists.specs.declared.column.KnownColumn.{KnownColumn};

    ghost Value = { List KnownColumn };

    ghost view = { λ k. k.columns.items };

    ghost invariant = { λ k. (vec_len k.columns < 2 ^ 32)
        × AreLeast k.columns.items k.firsts.items };
}

impl KnownColumns {
    /// The columns with these facts.
    pub fn from_vec(alloc: Global, columns: Vec<KnownColumn>) -> Result<KnownColumns, AllocError>
        requires { length columns.items < 2 ^ 32 }
        ensures { IfOk result (λ known. known ≡ columns.items) }
    {
        let firsts = least_firsts(alloc, &columns)?;
        Ok(KnownColumns { columns, firsts })
    }

    /// The number of columns.
    pub fn len(&self) -> usize
        ensures len { result ≡ length self.now }
        ensures few { length self.now < 2 ^ 32 }
    {
        self.columns.len()
    }

    /// What is known of the column with this id.
    pub fn column(&self, id: u32) -> KnownColumn
        requires { id < length self.now }
        ensures { result ≡ slice_index_or self.now id unknown_column }
    {
        self.columns[id as usize]
    }

    /// The least first element index of the open principal columns from this id on.
    pub(crate) fn least_from(&self, id: u32) -> u64
        requires { id ≤ length self.now }
        ensures { result ≡ least_first (drop id self.now) }
    {
        self.firsts[id as usize]
    }
}

/// Whether columns that begin there begin behind a cluster, or it has no entry.
pub(crate) fn ends_before(cluster: &ClusterSummary, first: u64) -> bool
    ensures { result ≡ ends_before cluster.now first }
{
    cluster.entries == 0 || (cluster.first <= first && cluster.entries <= first - cluster.first)
}

fn with_column(column: &KnownColumn, least: u64) -> u64
    ensures { (cs : List KnownColumn) → least ≡ least_first cs
        → result ≡ least_first (column.now ∷ cs) }
{
    if column.is_open && column.is_principal && column.first < least {
        column.first
    } else {
        least
    }
}

#[tactic(auto, using(crate::proofs::FirstSteps::first_steps))]
/// The least first element index of the open principal columns from each id on.
fn least_firsts(alloc: Global, columns: &[KnownColumn]) -> Result<Vec<u64>, AllocError>
    requires { length columns.now < 2 ^ 32 }
    ensures { IfOk result (λ firsts. AreLeast columns.now firsts.items) }
{
    let count = columns.len();
    let mut firsts = Vec::new(alloc);
    firsts.resize(count + 1, u64::MAX)?;
    for done in 0..count {
        let id = count - 1 - done;
        let least = with_column(&columns[id], firsts[id + 1]);
        firsts[id] = least;
    }
    Ok(firsts)
}
