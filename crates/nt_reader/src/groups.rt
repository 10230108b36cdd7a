//! The page lists of a file's groups.

ghost use Rattle.std.specs.Prelude.{◌≡◌, ◌+◌, ◌<◌, ◌^◌, length, IfOk, OnOk};
ghost use Rattle.nt_file_meaning.specs.Outlines.{list_block, groups_clusters, no_progress, known_columns};
ghost use Rattle.nt_tfile.specs.Calls.{Serves, HasSize, ReadsFile};
ghost use Rattle.nt_reader.specs.Envelopes.{block_of};
ghost use Rattle.nt_reader.specs.Steps.{clusters_with, CanFollow, AreCounted, IsGroupCounted};

use crate::describing::Described;
use crate::envelope::{Block, read_sealed};
use crate::faults::failure_inside;
use crate::known::known_columns;
use crate::moving::push_moved;
use nt_format::Link;
use nt_listing::Wanting;
use nt_meta::{KnownColumns, Progress, read_page_list};
use nt_outside::ReadAt;
use nt_pagelists::{ClusterList, Group};
use nt_tfile::ReadFailure;
use std::alloc::Global;

/// What is known of a schema before page lists are read: the checksum of its header, and its columns.
#[derive(Drop)]
struct KnownSchema<'a> {
    sum: u64,
    columns: &'a KnownColumns,
}

/// What was read of page lists so far: their clusters, and how far these go.
#[derive(Drop)]
struct SoFar {
    progress: Progress,
    clusters: Vec<ClusterList>,
}

/// The kind of a page list's envelope.
const PAGE_LIST: u16 = 3;

fn list_block(link: &Link) -> Block
    ensures { block_of result ≡ list_block link.now }
{
    Block {
        place: link.at.place,
        size: u64::from(link.at.size),
        len: link.length,
    }
}

/// Appends the clusters of a group, and counts them.
fn push_group<F: ReadAt>(
    alloc: Global,
    file: &mut F,
    size: u64,
    known: &KnownSchema<'_>,
    group: &Group,
    so_far: &mut SoFar,
) -> Result<(), ReadFailure>
    requires size { HasSize (F.state file.old) size }
    requires room { CanFollow known.now.columns.now so_far.old.progress group.now }
    ensures file { Serves (F.state file.old) (F.state file.new) result }
    ensures read { ReadsFile (λ _. (so_far.new.clusters.items, so_far.new.progress))
        (clusters_with known.now.sum known.now.columns.now group.now so_far.old.progress so_far.old.clusters.items)
        (F.state file.old) result }
    ensures counted { OnOk result
        (IsGroupCounted group.now so_far.old.progress so_far.old.clusters.items so_far.new.progress so_far.new.clusters.items) }
{
    let block = list_block(&group.link);
    let list = read_sealed(alloc, file, size, PAGE_LIST, block)?;
    let payload = list.payload();
    match read_page_list(
        alloc,
        payload,
        known.sum,
        group,
        known.columns,
        &mut so_far.progress,
    ) {
        Ok(lists) => {
            push_moved(alloc, block.place, lists.as_slice(), &mut so_far.clusters)?;
            Ok(())
        }
        Err(error) => Err(failure_inside(block.place, error)),
    }
}

/// The clusters of these groups, or the first fault.
fn read_groups<F: ReadAt>(
    alloc: Global,
    file: &mut F,
    size: u64,
    known: &KnownSchema<'_>,
    groups: &[Group],
) -> Result<Vec<ClusterList>, ReadFailure>
    requires size { HasSize (F.state file.old) size }
    requires counted { AreCounted 0 0 groups.now }
    ensures file { Serves (F.state file.old) (F.state file.new) result }
    ensures read { let none = no_progress (length known.now.columns.now) in
        ReadsFile (λ clusters. clusters.items)
        (λ told. groups_clusters told known.now.sum known.now.columns.now groups.now none) (F.state file.old) result }
    ensures few { IfOk result (λ clusters. length clusters.items < 2 ^ 32) }
{
    let mut so_far = SoFar {
        progress: progress(alloc, known.columns)?,
        clusters: Vec::new(alloc),
    };
    for i in 0..groups.len() {
        push_group(alloc, file, size, known, &groups[i], &mut so_far)?;
    }
    Ok(so_far.clusters)
}

/// Nothing was read of these columns.
fn progress(alloc: Global, columns: &KnownColumns) -> Result<Progress, Wanting>
    ensures { IfOk result (λ progress. progress ≡ no_progress (length columns.now)) }
{
    Ok(Progress::new(alloc, columns.len() as u32)?)
}

/// The clusters of a file whose header and footer describe this, or the first fault.
pub fn read_clusters<F: ReadAt>(
    alloc: Global,
    file: &mut F,
    size: u64,
    said: &Described,
) -> Result<Vec<ClusterList>, ReadFailure>
    requires size { HasSize (F.state file.old) size }
    requires counted { AreCounted 0 0 said.now.groups }
    ensures file { Serves (F.state file.old) (F.state file.new) result }
    ensures read { let none = no_progress (length said.now.schema.columns) in
        let known = known_columns said.now.schema in ReadsFile (λ clusters. clusters.items)
        (λ told. groups_clusters told said.now.sum known said.now.groups none)
        (F.state file.old) result }
    ensures few { IfOk result (λ clusters. length clusters.items < 2 ^ 32) }
{
    let columns = known_columns(alloc, &said.schema)?;
    let known = KnownSchema {
        sum: said.sum,
        columns: &columns,
    };
    read_groups(alloc, file, size, &known, said.groups.as_slice())
}
