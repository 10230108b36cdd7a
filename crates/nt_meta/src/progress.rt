//! What was read of earlier page lists.

ghost use Rattle.std.specs.Prelude.{◌≡◌, replicate, IfOk};

use std::alloc::{AllocError, Global};
use std::marker::Model;

/// How many clusters and entries were read, and how many elements of each column.
#[derive(Drop)]
pub struct Progress {
    pub(crate) clusters: u32,
    pub(crate) entries: u64,
    /// By column; a number that does not fit is kept as the greatest that does, which no offset
    /// can meet.
    pub(crate) elements: Vec<u64>,
}

impl Model for Progress {
    ghost use Rattle.nt_pagelists.specs.PageLists.{ProgressCounts};

    ghost Value = { ProgressCounts };

    ghost view = { λ p. record {
      clusters = p.clusters;
      entries = p.entries;
      elements = p.elements.items;
    } };
}

impl Progress {
    /// Before the first page list of a file with so many columns.
    pub fn new(alloc: Global, columns: u32) -> Result<Progress, AllocError>
        ensures { IfOk result (λ progress. progress ≡ record {
          clusters = 0;
          entries = 0;
          elements = replicate columns 0;
        }) }
    {
        Ok(Progress {
            clusters: 0,
            entries: 0,
            elements: vec![in alloc; 0; columns as usize]?,
        })
    }

    /// The number of clusters.
    pub fn clusters(&self) -> u32
        ensures { result ≡ self.now.clusters }
    {
        self.clusters
    }

    /// The number of entries.
    pub fn entries(&self) -> u64
        ensures { result ≡ self.now.entries }
    {
        self.entries
    }

    /// The number of elements of each column, by id.
    pub fn elements(&self) -> &[u64]
        ensures { result.now ≡ self.now.elements }
    {
        &self.elements
    }
}
