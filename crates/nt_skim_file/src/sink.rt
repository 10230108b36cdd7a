//! A sink that writes what is put as the clusters of a file.

ghost use Rattle.std.specs.Prelude.{◌≡◌, ◌≤◌, ◌<◌, [], true, None, List, length, slice_index_or, OnOk, OnErr};
ghost use Rattle.nt_types.specs.TreeData.{TreesData, trees_of, no_trees};
ghost use Rattle.nt_types.specs.TreeViews.{trees_view};
ghost use Rattle.nt_types.specs.Views.{members_view};
ghost use Rattle.nt_trees.specs.Fits.{fits_entry};
ghost use Rattle.nt_join.specs.Chosen.{chosen};
ghost use Rattle.nt_reader.specs.Columns.{given_entries};
ghost use Rattle.nt_seq.specs.Writer.{gathered_by, HasEntryRoom, GathersEntry};
ghost use Rattle.nt_script.specs.Taking.{HasJustFields, HasTakenLines};
ghost use Rattle.nt_skim_file.specs.Sinks.{IsFileSink};
ghost use Rattle.nt_skim_file.specs.Taking.{IsTaking, StaysWriter, MakesEntryRoom, TakesPut};

use crate::birth::SinkBirth;
use nt_commit::CommitError;
use nt_decoded::DecodedCluster;
use nt_outside::Disk;
use nt_seq::SeqWriter;
use nt_skim::{EntrySink, PutError};
use nt_types::{Fields, Trees};
use std::alloc::{AllocError, Global};
use std::marker::Model;
use std::snapshot::Snapshot;

/// Writes what is gathered, if that is a whole cluster: then there is room for one entry more.
fn make_room<D: Disk>(writer: &mut SeqWriter<D>) -> Result<(), CommitError>
    requires alive { writer.old.alive ≡ true }
    requires few { length (gathered_by writer.old) ≤ writer.old.params.cluster }
    ensures room { (es : List TreesData) → HasTakenLines D.state [] es writer.old
        → MakesEntryRoom D.state es writer.old writer.new result }
    ensures less { OnOk result (length (gathered_by writer.new) < writer.new.params.cluster) }
    ensures stays { StaysWriter D.state writer.old writer.new result }
{
    writer.keeps();
    if writer.full() {
        return writer.flush();
    }
    Ok(())
}

/// Takes an entry. What is gathered is written first, if that is a whole cluster.
fn take<D: Disk>(writer: &mut SeqWriter<D>, trees: &Trees) -> Result<(), CommitError>
    requires alive { writer.old.alive ≡ true }
    requires few { length (gathered_by writer.old) ≤ writer.old.params.cluster }
    requires fits { fits_entry writer.old.table (trees_of (trees_view trees.now)) ≡ true }
    ensures takes { (es : List TreesData) → HasTakenLines D.state [] es writer.old
        → TakesPut D.state es (trees_of (trees_view trees.now)) writer.old writer.new result }
    ensures stays { StaysWriter D.state writer.old writer.new result }
{
    match make_room(writer) {
        Ok(()) => {}
        Err(error) => return Err(error),
    }
    match writer.fill(trees) {
        Ok(()) => Ok(()),
        Err(AllocError) => Err(CommitError::Memory),
    }
}

/// Gathers what is chosen of an entry of a cluster, whose columns have its elements.
fn gather<D: Disk>(
    writer: &mut SeqWriter<D>,
    cluster: &DecodedCluster<'_>,
    places: &[u32],
    i: u64,
) -> Result<(), AllocError>
    requires there { i < cluster.now.entries }
    requires room { HasEntryRoom writer.old }
    requires fits { fits_entry writer.old.table
        (chosen places.now (slice_index_or (given_entries cluster.now) i no_trees)) ≡ true }
    ensures ok { OnOk result (GathersEntry
        (chosen places.now (slice_index_or (given_entries cluster.now) i no_trees)) writer.old writer.new) }
    ensures err { OnErr result (writer.new ≡ writer.old) }
{
    cluster.readable();
    writer.fill_from(cluster.columns(), cluster.plans(), places, i)
}

/// Takes what is chosen of an entry of a cluster, without trees, as `take` takes its trees.
fn take_from<D: Disk>(
    writer: &mut SeqWriter<D>,
    cluster: &DecodedCluster<'_>,
    places: &[u32],
    i: u64,
) -> Result<(), CommitError>
    requires there { i < cluster.now.entries }
    requires going { IsTaking writer.old }
    requires fits { fits_entry writer.old.table
        (chosen places.now (slice_index_or (given_entries cluster.now) i no_trees)) ≡ true }
    ensures takes { (es : List TreesData) → HasTakenLines D.state [] es writer.old
        → TakesPut D.state es (chosen places.now (slice_index_or (given_entries cluster.now) i no_trees))
        writer.old writer.new result }
    ensures stays { StaysWriter D.state writer.old writer.new result }
{
    match make_room(writer) {
        Ok(()) => {}
        Err(error) => return Err(error),
    }
    match gather(writer, cluster, places, i) {
        Ok(()) => Ok(()),
        Err(AllocError) => Err(CommitError::Memory),
    }
}

/// Puts entries into the clusters of a file. The rest that makes no whole cluster stays gathered.
pub struct FileSink<D: Disk> {
    writer: SeqWriter<D>,
    fields: Snapshot<Fields>,
    refused: Option<CommitError>,
}

impl<D: Disk> Model for FileSink<D> {
    ghost use Rattle.nt_types.specs.contracts.shape.Members as e;
    ghost use Rattle.std.specs.Coded.{codes};
    ghost use Rattle.nt_skim_file.specs.Sinks.{FileSinkState, IsFileSink};

    ghost Value = { FileSinkState D };

    ghost coded = { Prim.hlevel (codes, e.the_row.coded) };

    ghost view = { λ s. record { writer = s.writer; fields = s.fields.value; refused = s.refused } };

    ghost invariant = { λ s. IsFileSink D.state
        record { writer = s.writer; fields = s.fields.value; refused = s.refused } };
}

impl<D: Disk> FileSink<D> {
    /// A sink over a writer of these fields.
    pub fn new(writer: SeqWriter<D>, fields: &Fields) -> FileSink<D>
        requires just { HasJustFields (members_view fields.now) writer.table }
        requires few { length (gathered_by writer) ≤ writer.params.cluster }
        requires alive { writer.alive ≡ true }
        ensures { result ≡ record { writer = writer; fields = fields.now; refused = None } }
    {
        FileSink {
            writer,
            fields: Snapshot::of(fields),
            refused: None,
        }
    }

    /// The writer, with what is gathered.
    pub fn into_writer(self) -> SeqWriter<D>
        ensures writer { result ≡ self.writer }
        ensures sink { IsFileSink D.state self }
    {
        let FileSink {
            writer,
            fields,
            refused: _,
        } = self;
        drop(fields);
        writer
    }
}

impl<D: Disk> EntrySink for FileSink<D> {
    ghost use Rattle.nt_skim_file.specs.Sinks.{sink_of};

    type Fault = CommitError;

    type Birth = SinkBirth<D>;

    ghost state = { sink_of D.state };

    fn put(&mut self, trees: &Trees) -> Result<(), CommitError> {
        match take(&mut self.writer, trees) {
            Ok(()) => Ok(()),
            Err(error) => {
                self.refused = Some(error);
                Err(error)
            }
        }
    }

    /// By elements: they go from the columns of the cluster into those of the writer, and no tree is made.
    fn put_from(
        &mut self,
        _: Global,
        cluster: &DecodedCluster<'_>,
        places: &[u32],
        i: u64,
    ) -> Result<(), PutError<CommitError>> {
        match take_from(&mut self.writer, cluster, places, i) {
            Ok(()) => Ok(()),
            Err(refusal) => {
                self.refused = Some(refusal);
                Err(PutError::Refused(refusal))
            }
        }
    }
}
