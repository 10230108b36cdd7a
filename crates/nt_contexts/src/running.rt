//! A context from the first line of its input to the last.

ghost use Rattle.std.specs.Prelude.{◌≡◌, ◌≤◌, List};
ghost use Rattle.nt_types.specs.ShapeData.{parts_of};
ghost use Rattle.nt_types.specs.Views.{members_view};
ghost use Rattle.nt_types.specs.TreeData.{TreesData};
ghost use Rattle.nt_contexts.specs.Reading.{left_of};
ghost use Rattle.nt_contexts.specs.Filling.{IsFor, IsOpen, IsEmptied, IsAtStart, HasTaken, HasWrittenChunks};
ghost use Rattle.nt_contexts.specs.Running.{Ended};
ghost use Rattle.nt_contexts.specs.Taking.{WritesRest, PublishesAll};

use crate::error::ContextError;
use crate::shared::Shared;
use crate::taking::{take_next, write_gathered};
use nt_event::LineReader;
use nt_fill::FillContext;
use nt_outside::{Disk, Gate, Source};
use std::sync::Wait;

/// The largest number of a line.
const MAX_NUMBER: u64 = 1 << 48;

/// Writes what is gathered behind the last line.
fn write_rest<D: Disk, G: Gate>(
    rt: &impl Wait,
    gate: &G,
    fill: &mut FillContext<'_, D>,
) -> Result<(), ContextError>
    requires is_open { IsOpen fill.old }
    ensures { (entries : List TreesData) → HasTaken D.state entries fill.old
        → WritesRest D.state entries fill.old fill.new result }
{
    if fill.gathered() == 0 {
        return Ok(());
    }
    write_gathered(rt, gate, fill)
}

/// Publishes all that was written, where clusters are staged: behind the last line, and never where
/// a context failed.
fn publish_written<D: Disk, G: Gate>(
    rt: &impl Wait,
    shared: &Shared<'_, G>,
    fill: &mut FillContext<'_, D>,
) -> Result<(), ContextError>
    requires staged { fill.old.staged ≡ shared.now.params.now.staged }
    requires emptied { IsEmptied fill.old }
    ensures { (entries : List TreesData) → HasWrittenChunks D.state entries fill.old
        → PublishesAll D.state entries fill.old fill.new result }
{
    if shared.params.staged {
        fill.publish(rt, shared.gate)?;
    }
    Ok(())
}

/// Reads all lines of an input and writes the clusters of their entries.
pub(crate) fn read_all<D: Disk, S: Source, G: Gate>(
    rt: &impl Wait,
    shared: &Shared<'_, G>,
    lines: &mut LineReader<S>,
    fill: &mut FillContext<'_, D>,
) -> Result<(), ContextError>
    requires fields { IsFor (members_view shared.now.fields.now) fill.old }
    requires start { IsAtStart (left_of S.state lines.old) fill.old }
    requires staged { fill.old.staged ≡ shared.now.params.now.staged }
    ensures ended { Ended D.state (parts_of (members_view shared.now.fields.now)) (left_of S.state lines.old).left fill.old
        (left_of S.state lines.old) (left_of S.state lines.new) fill.new result }
    ensures later { (left_of S.state lines.old).faults ≤ (left_of S.state lines.new).faults }
{
    for count in 0..=MAX_NUMBER {
        if !take_next(rt, shared, lines, fill)? {
            write_rest(rt, shared.gate, fill)?;
            return publish_written(rt, shared, fill);
        }
    }
    unreachable!()
}
