//! A cluster that was decoded.

ghost use Rattle.std.specs.Prelude.{◌≡◌, ◌<◌, ◌≤◌, ◌++◌, ◌∷◌, [], ℕ, length, IfOk, OnErr};
ghost use Rattle.std.specs.List.{flat_map, slice_range};
ghost use Rattle.nt_column.specs.Column.{columns_of, elements_at};
ghost use Rattle.nt_event.specs.Json.{line_of};
ghost use Rattle.nt_file_meaning.specs.Clusters.{columns_by_id, cluster_of, columns_in_cluster};
ghost use Rattle.nt_tfile.specs.Calls.{Serves, ReadsFile};
ghost use Rattle.nt_reader.specs.Columns.{given_entries};
ghost use Rattle.nt_reader.specs.Outlines.{entries_in, columns_read};

use crate::columns::{NumberedCluster, read_columns};
use crate::reuse::{KeptMemory, kept_parts};
use crate::window::Window;
use nt_column::{ColumnSet, Columns};
use nt_outside::ReadAt;
use nt_pagelists::ClusterList;
use nt_reader::{Reader, check_cluster};
use nt_schema::Schema;
use nt_tfile::ReadFailure;
use std::alloc::{AllocError, Global};
use std::marker::Model;

/// The decoded columns of a cluster, in which nothing is wrong. Contracts see the schema, the elements of
/// each column, and the number of entries; `given_entries` says what entries these give. No page is kept.
#[derive(Drop)]
pub struct DecodedCluster<'a> {
    pub(crate) schema: &'a Schema,
    pub(crate) columns: ColumnSet,
    pub(crate) entries: u64,
    /// Memory of the bytes that were read at once.
    pub(crate) bytes: Vec<u8>,
}

impl<'a> Model for DecodedCluster<'a> {
    ghost use Rattle.nt_file_meaning.specs.Clusters.{columns_by_id};
    ghost use Rattle.nt_view.specs.Loaded.{nothing_loaded};
    ghost use Rattle.nt_reader.specs.Columns.{ClusterData, AreClusterColumns};
    ghost use Rattle.nt_decoded.specs.Columns.{held_elements};

    ghost Value = { ClusterData };

    ghost view = { λ c. record { table = c.schema.now; columns = held_elements c.columns; entries = c.entries; loaded = nothing_loaded } };

    ghost invariant = { λ c. AreClusterColumns c.schema.now (columns_by_id (held_elements c.columns)) c.entries };
}

impl<'a> DecodedCluster<'a> {
    /// The number of entries.
    pub fn entries(&self) -> u64
        ensures { result ≡ self.now.entries }
    {
        self.entries
    }

    /// Appends the lines of entries from one on, and says which comes next. It ends before another entry, or behind the first line that may
    /// not fit in so many bytes of `out`, which that line may pass. So there is at least one line. A line has the same values as event text,
    /// and its LF; nothing is appended where memory runs out.
    pub fn write_entries(
        &self,
        alloc: Global,
        part: (u64, u64),
        most: usize,
        out: &mut Vec<u8>,
    ) -> Result<u64, AllocError>
        requires { (part.0 < part.1) × (part.1 ≤ self.now.entries) }
        ensures next { IfOk result (λ next. (part.0 < next) × (next ≤ part.1)) }
        ensures ok { IfOk result (λ next. out.new.items ≡ out.old.items
            ++ flat_map (λ entry. line_of entry ++ 10 ∷ []) (slice_range (given_entries self.now) part.0 next)) }
        ensures err { OnErr result (out.new.items ≡ out.old.items) }
    {
        nt_lines::write_entries(alloc, &self.columns, self.schema, part, most, out)
    }

    /// The elements of the columns, by id; of a closed column none.
    pub fn columns(&self) -> &ColumnSet
        ensures { (id : ℕ) → elements_at (columns_of result.now) id ≡ columns_by_id self.now.columns id }
    {
        &self.columns
    }

    /// Its memory, which another cluster can take.
    pub fn into_memory(self) -> KeptMemory {
        KeptMemory {
            columns: self.columns,
            bytes: self.bytes,
        }
    }
}

/// The cluster of this number, by what a page list tells of it; or its first fault.
fn decode<'a, F: ReadAt>(
    alloc: Global,
    file: &mut F,
    schema: &'a Schema,
    listed: &NumberedCluster<'_>,
    kept: Option<KeptMemory>,
) -> Result<DecodedCluster<'a>, ReadFailure>
    ensures file { Serves (F.state file.old) (F.state file.new) result }
    ensures read { ReadsFile (λ c. given_entries c)
        (λ told. cluster_of told schema.now listed.now.number listed.now.list.now) (F.state file.old) result }
    ensures columns { ReadsFile (λ c. c.columns)
        (λ told. columns_in_cluster told schema.now listed.now.number listed.now.list.now) (F.state file.old) result }
    ensures table { IfOk result (λ c. c.table ≡ schema.now) }
{
    let size = file.size()?;
    let (kept, bytes) = kept_parts(alloc, kept);
    let mut window = Window::new(alloc, size, bytes);
    let columns = read_columns(alloc, file, listed, schema, kept, &mut window)?;
    columns.in_range();
    check_cluster(&columns, schema, listed.number, listed.list)?;
    Ok(DecodedCluster {
        schema,
        columns,
        entries: listed.list.entries,
        bytes: window.into_memory(),
    })
}

/// Reads a cluster of the file that a reader is attached to, and decodes the pages of its open columns; its values are looked at as
/// `Reader::cluster` does. The memory of any cluster that was decoded before does: columns of other types than the file's are dropped.
///
/// # Errors
///
/// A defect is the first fault of the cluster, with one of the codes 9, 10, 21 and 22. `Fault`
/// comes only where the file's count of faults rose, `Memory` where memory ran out.
pub fn decode_cluster<'a, F: ReadAt>(
    alloc: Global,
    file: &mut F,
    reader: &'a Reader,
    k: u32,
    kept: Option<KeptMemory>,
) -> Result<DecodedCluster<'a>, ReadFailure>
    requires { k < length reader.now.clusters }
    ensures file { Serves (F.state file.old) (F.state file.new) result }
    ensures read { ReadsFile (λ c. given_entries c)
        (entries_in reader.now k) (F.state file.old) result }
    ensures columns { ReadsFile (λ c. c.columns)
        (columns_read reader.now k) (F.state file.old) result }
    ensures table { IfOk result (λ c. c.table ≡ reader.now.table) }
{
    let listed = NumberedCluster {
        number: k,
        list: reader.listed(k),
    };
    decode(alloc, file, reader.schema(), &listed, kept)
}
