//! Lines of events that a writer takes.

ghost use Rattle.std.specs.Prelude.{◌≡◌, ◌<◌, ◌≤◌, true, List, length, Ok, IfOk, IfErr, OnOk};
ghost use Rattle.nt_types.specs.ShapeData.{parts_of};
ghost use Rattle.nt_types.specs.Views.{members_view};
ghost use Rattle.nt_types.specs.TreeData.{TreesData, trees_of};
ghost use Rattle.nt_types.specs.TreeViews.{trees_view};
ghost use Rattle.nt_event.specs.Entry.{entry_of};
ghost use Rattle.nt_seq.specs.Writer.{gathered_by};
ghost use Rattle.nt_script.specs.Reading.{Segment};
ghost use Rattle.nt_script.specs.Taking.{HasJustFields, HasTakenLines, IsOpenWriter, IsFlushed, WritesGathered, WritesWhole};
ghost use Rattle.nt_script.specs.Events.{IsEventError, TakesEvent};

use crate::error::{LineFault, ScriptError};
use nt_event::{Line, TextError, blank, read_line, spelled_trees_are_read};
use nt_outside::Disk;
use nt_seq::SeqWriter;
use nt_types::{Fields, Trees};
use std::alloc::Global;

/// The entry of a line that isn't blank.
fn entry_of(alloc: Global, fields: &Fields, line: &Line) -> Result<Trees, ScriptError>
    ensures ok { IfOk result (λ ts. entry_of (parts_of (members_view fields.now)) line.now.bytes ≡ Ok
        (trees_of (trees_view ts))) }
    ensures err { IfErr result (IsEventError (members_view fields.now) line.now) }
{
    match read_line(alloc, line.bytes.as_slice(), fields) {
        Ok(trees) => Ok(trees),
        Err(TextError::Kind(kind)) => Err(ScriptError::Line {
            line: line.number,
            kind: LineFault::Event(kind),
        }),
        Err(TextError::Memory) => Err(ScriptError::Memory),
    }
}

/// Writes what is gathered as a cluster, if it is something.
pub(crate) fn write_gathered<D: Disk>(writer: &mut SeqWriter<D>) -> Result<(), ScriptError>
    requires alive { writer.old.alive ≡ true }
    requires few { length (gathered_by writer.old) ≤ writer.old.params.cluster }
    ensures done { (segments : List Segment) (es : List TreesData) → HasTakenLines D.state segments es writer.old
        → WritesGathered D.state segments es writer.old writer.new result }
    ensures flushed { OnOk result (IsFlushed writer.old writer.new) }
    ensures given { writer.new.given ≡ writer.old.given }
{
    writer.keeps();
    match writer.flush() {
        Ok(()) => Ok(()),
        Err(error) => Err(ScriptError::from(error)),
    }
}

/// Writes what is gathered, if that is a whole cluster.
fn write_whole<D: Disk>(writer: &mut SeqWriter<D>) -> Result<(), ScriptError>
    requires alive { writer.old.alive ≡ true }
    requires few { length (gathered_by writer.old) ≤ writer.old.params.cluster }
    ensures done { (segments : List Segment) (es : List TreesData) → HasTakenLines D.state segments es writer.old
        → WritesWhole D.state segments es writer.old writer.new result }
    ensures given { writer.new.given ≡ writer.old.given }
{
    if writer.full() {
        return write_gathered(writer);
    }
    Ok(())
}

/// Takes the entry of a line, and writes the cluster that it makes whole. A blank line has none.
pub(crate) fn take_event<D: Disk>(
    alloc: Global,
    fields: &Fields,
    writer: &mut SeqWriter<D>,
    line: &Line,
) -> Result<(), ScriptError>
    requires just { HasJustFields (members_view fields.now) writer.old.table }
    requires is_open { IsOpenWriter writer.old }
    ensures done { (segments : List Segment) (es : List TreesData) → HasTakenLines D.state segments es writer.old
        → TakesEvent D.state (members_view fields.now) segments es line.now writer.old writer.new result }
    ensures given { writer.new.given ≡ writer.old.given }
{
    if blank(line.bytes.as_slice()) {
        return Ok(());
    }
    if writer.fill_line(line.bytes.as_slice()) {
        spelled_trees_are_read();
        return write_whole(writer);
    }
    let trees = entry_of(alloc, fields, line)?;
    writer.fill(&trees)?;
    write_whole(writer)
}
