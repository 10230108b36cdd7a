//! A file that was attached to: its schema, and where its clusters lie.

ghost use Rattle.std.specs.Prelude.{◌≡◌, ◌<◌, length, slice_get, Some, IfOk};
ghost use Rattle.nt_grammar.specs.declared.rows.ColumnRow.{ColumnRow};
ghost use Rattle.nt_plans.specs.Needs.{need_of};
ghost use Rattle.nt_file_meaning.specs.Outlines.{outline_of, known_column};
ghost use Rattle.nt_file_meaning.specs.Counts.{zeros_due};
ghost use Rattle.nt_tfile.specs.Calls.{Serves, ReadsFile};
ghost use Rattle.nt_reader.specs.Outlines.{numbered_cluster, entries_in, columns_read, page_number, page_count};
ghost use Rattle.nt_reader.specs.Columns.{given_entries, IsClusterFrom};

use crate::cluster::{ClusterRead, read_cluster};
use crate::describing::read_described;
use crate::groups::read_clusters;
use crate::listed::{page_count, page_number, zeros_due};
use nt_outside::ReadAt;
use nt_pagelists::ClusterList;
use nt_schema::Schema;
use nt_tfile::{ReadFailure, read_tfile};
use nt_view::ClusterBytes;
use std::alloc::Global;
use std::marker::Model;

/// The schema of a file, and where the pages of its clusters lie. Contracts see it as the outline
/// of the file.
#[derive(Drop)]
pub struct Reader {
    schema: Schema,
    clusters: Vec<ClusterList>,
}

impl Model for Reader {
    ghost use Rattle.std.specs.Prelude.{◌<◌, ◌^◌, length};
    ghost use Rattle.nt_file_meaning.specs.Outlines.{Outline};

    ghost Value = { Outline };

    ghost view = { λ r. record { table = r.schema; clusters = r.clusters.items } };

    ghost invariant = { λ r. length r.clusters.items < 2 ^ 32 };
}

impl Reader {
    /// Attaches to a file: its anchor, header and footer are read, and the page lists of all its
    /// groups, but no page.
    ///
    /// # Errors
    ///
    /// A defect is the first fault of the file before any page, with one of the codes 1 to 20.
    /// `Fault` comes only where the file's count of faults rose, `Memory` where memory ran out.
    pub fn attach<F: ReadAt>(alloc: Global, file: &mut F) -> Result<Reader, ReadFailure>
        ensures file { Serves (F.state file.old) (F.state file.new) result }
        ensures read { ReadsFile (λ r. r) outline_of (F.state file.old) result }
    {
        let anchor = read_tfile(alloc, file)?;
        let size = file.size()?;
        let said = read_described(alloc, file, size, &anchor)?;
        let clusters = read_clusters(alloc, file, size, &said)?;
        Ok(Reader {
            schema: said.schema,
            clusters,
        })
    }

    /// The rows of the file's schema.
    pub fn schema(&self) -> &Schema
        ensures { result.now ≡ self.now.table }
    {
        &self.schema
    }

    /// The number of clusters.
    pub fn clusters(&self) -> u32
        ensures { result ≡ length self.now.clusters }
    {
        self.clusters.len() as u32
    }

    /// The number of entries of a cluster.
    pub fn entries_of(&self, k: u32) -> u64
        requires { k < length self.now.clusters }
        ensures { result ≡ (numbered_cluster self.now k).entries }
    {
        self.clusters[k as usize].entries
    }

    /// What the page lists tell of a cluster: its entries, and where its pages lie.
    pub fn listed(&self, k: u32) -> &ClusterList
        requires { k < length self.now.clusters }
        ensures { result.now ≡ numbered_cluster self.now k }
    {
        &self.clusters[k as usize]
    }

    /// How many pages are listed of a column in a cluster (RNTuple Binary Format Specification 1.0.0.0,
    /// section Page Locations).
    pub fn pages_of(&self, k: u32, column: u32) -> u64
        requires { k < length self.now.clusters }
        ensures { result ≡ page_number self.now k column }
    {
        page_number(&self.clusters[k as usize], column)
    }

    /// How many elements one of these pages has, by its number from 0 on (RNTuple Binary Format
    /// Specification 1.0.0.0, section Page Locations).
    pub fn count_of(&self, k: u32, column: u32, i: u64) -> u32
        requires cluster { k < length self.now.clusters }
        requires page { i < page_number self.now k column }
        ensures { result ≡ page_count self.now k column i }
    {
        page_count(&self.clusters[k as usize], column, i)
    }

    /// How many zeros stand for a column of an open field in a cluster: as many as the cluster has
    /// entries where the column begins behind them, else none. It has no page then (RNTuple Binary
    /// Format Specification 1.0.0.0, section Column Description, which calls such a column deferred).
    pub fn zeros_of(&self, k: u32, column: u32) -> u64
        requires cluster { k < length self.now.clusters }
        requires column { column < length self.now.table.columns }
        ensures { (row : ColumnRow) → slice_get self.now.table.columns column ≡ Some row
            → result ≡ zeros_due (numbered_cluster self.now k) (known_column (need_of self.now.table column) row) }
    {
        zeros_due(&self.schema, &self.clusters[k as usize], column)
    }

    /// Reads a cluster: the pages of its open columns, and whether their values are those of entries. Its pages stay as they are stored.
    ///
    /// It takes memory for the stored bytes of its pages, for a list of them, and for the numbers of columns of a split index.
    ///
    /// # Errors
    ///
    /// A defect is the first fault of the cluster, with one of the codes 9, 10, 21 and 22. `Fault`
    /// comes only where the file's count of faults rose, `Memory` where memory ran out.
    pub fn cluster<F: ReadAt>(
        &self,
        alloc: Global,
        file: &mut F,
        k: u32,
    ) -> Result<ClusterRead<'_>, ReadFailure>
        requires { k < length self.now.clusters }
        ensures file { Serves (F.state file.old) (F.state file.new) result }
        ensures read { ReadsFile (λ c. given_entries c)
            (entries_in self.now k) (F.state file.old) result }
        ensures columns { ReadsFile (λ c. c.columns)
            (columns_read self.now k) (F.state file.old) result }
        ensures loaded { let told = (F.state file.old).bytes in
            IfOk result (λ c. IsClusterFrom told k (numbered_cluster self.now k) self.now.table c) }
    {
        self.cluster_in(alloc, file, k, ClusterBytes::new(alloc))
    }

    /// Reads a cluster as `cluster` does, in the memory of pages that were loaded before.
    pub fn cluster_in<F: ReadAt>(
        &self,
        alloc: Global,
        file: &mut F,
        k: u32,
        kept: ClusterBytes,
    ) -> Result<ClusterRead<'_>, ReadFailure>
        requires { k < length self.now.clusters }
        ensures file { Serves (F.state file.old) (F.state file.new) result }
        ensures read { ReadsFile (λ c. given_entries c)
            (entries_in self.now k) (F.state file.old) result }
        ensures columns { ReadsFile (λ c. c.columns)
            (columns_read self.now k) (F.state file.old) result }
        ensures loaded { let told = (F.state file.old).bytes in
            IfOk result (λ c. IsClusterFrom told k (numbered_cluster self.now k) self.now.table c) }
    {
        read_cluster(
            alloc,
            file,
            &self.schema,
            k,
            &self.clusters[k as usize],
            kept,
        )
    }
}
