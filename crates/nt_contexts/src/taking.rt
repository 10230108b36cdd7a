//! Lines that a context takes.

ghost use Rattle.std.specs.Prelude.{◌≡◌, ◌<◌, ◌≤◌, List, length, false, Ok, IfOk, IfErr, MatchBool};
ghost use Rattle.nt_types.specs.ShapeData.{parts_of};
ghost use Rattle.nt_types.specs.Views.{members_view};
ghost use Rattle.nt_types.specs.TreeData.{TreesData, trees_of};
ghost use Rattle.nt_types.specs.TreeViews.{trees_view};
ghost use Rattle.nt_event.specs.Entry.{entry_of};
ghost use Rattle.nt_fill.specs.Context.{GathersLine, MayGather, gathered};
ghost use Rattle.nt_contexts.specs.Reading.{left_of};
ghost use Rattle.nt_contexts.specs.Filling.{IsFor, IsOpen, HasTaken};
ghost use Rattle.nt_contexts.specs.Taking.{IsEntryError, WritesChunk, WritesFull, TakesTextLine, TakesReady, TakesNextLine};

use crate::error::ContextError;
use crate::shared::Shared;
use nt_event::{Line, LineReader, TextError, blank, read_line, spelled_trees_are_read};
use nt_fill::FillContext;
use nt_outside::{Disk, Gate, Source};
use nt_types::{Fields, Trees};
use std::alloc::Global;
use std::sync::Wait;

/// The entry of a line that isn't blank.
fn entry_of(alloc: Global, fields: &Fields, line: &Line) -> Result<Trees, ContextError>
    ensures ok { IfOk result (λ ts. entry_of (parts_of (members_view fields.now)) line.now.bytes ≡ Ok
        (trees_of (trees_view ts))) }
    ensures err { IfErr result (IsEntryError (parts_of (members_view fields.now)) line.now) }
{
    match read_line(alloc, line.bytes.as_slice(), fields) {
        Ok(trees) => Ok(trees),
        Err(TextError::Kind(kind)) => Err(ContextError::Text {
            line: line.number,
            kind,
        }),
        Err(TextError::Memory) => Err(ContextError::Memory),
    }
}

/// Writes what is gathered as a cluster.
pub(crate) fn write_gathered<D: Disk, G: Gate>(
    rt: &impl Wait,
    gate: &G,
    fill: &mut FillContext<'_, D>,
) -> Result<(), ContextError>
    requires alive { MayGather fill.old }
    requires some { 0 < length (gathered fill.old) }
    ensures { WritesChunk D.state fill.old fill.new result }
{
    match fill.flush(rt, gate) {
        Ok(()) => Ok(()),
        Err(error) => Err(ContextError::from(error)),
    }
}

/// Writes what is gathered, if that is a whole cluster.
fn write_full<D: Disk, G: Gate>(
    rt: &impl Wait,
    gate: &G,
    fill: &mut FillContext<'_, D>,
) -> Result<(), ContextError>
    requires alive { MayGather fill.old }
    requires few { length (gathered fill.old) ≤ fill.old.cluster }
    requires some { 0 < length (gathered fill.old) }
    ensures { (entries : List TreesData) → HasTaken D.state entries fill.old
        → WritesFull D.state entries fill.old fill.new result }
{
    if fill.full() {
        return write_gathered(rt, gate, fill);
    }
    Ok(())
}

/// Gathers the entry of a line straight from its bytes, where that wasn't tried yet. Says whether it did.
fn gather_untried<D: Disk>(fill: &mut FillContext<'_, D>, bytes: &[u8], untried: bool) -> bool
    requires alive { MayGather fill.old }
    requires room { length (gathered fill.old) < fill.old.cluster }
    ensures { MatchBool result (GathersLine bytes.now fill.old fill.new) (fill.new ≡ fill.old) }
{
    untried && fill.fill_line(bytes)
}

/// Takes a line: gathers its entry, by way of its trees where that can't be done without or was tried, and writes what is
/// gathered once that is a whole cluster.
fn take_line<D: Disk, G: Gate>(
    rt: &impl Wait,
    shared: &Shared<'_, G>,
    fill: &mut FillContext<'_, D>,
    line: &Line,
    untried: bool,
) -> Result<(), ContextError>
    requires fields { IsFor (members_view shared.now.fields.now) fill.old }
    requires is_open { IsOpen fill.old }
    ensures { (entries : List TreesData) → HasTaken D.state entries fill.old
        → TakesTextLine D.state (parts_of (members_view shared.now.fields.now)) entries line.now fill.old fill.new result }
{
    if blank(line.bytes.as_slice()) {
        return Ok(());
    }
    if gather_untried(fill, line.bytes.as_slice(), untried) {
        spelled_trees_are_read();
        return write_full(rt, shared.gate, fill);
    }
    let trees = entry_of(shared.alloc, shared.fields, line)?;
    fill.fill(&trees)?;
    write_full(rt, shared.gate, fill)
}

/// Takes the line that is ready, where its entry goes straight to the columns. Says whether it did.
#[inline(always)]
fn take_ready<D: Disk, S: Source, G: Gate>(
    rt: &impl Wait,
    shared: &Shared<'_, G>,
    lines: &mut LineReader<S>,
    fill: &mut FillContext<'_, D>,
) -> Result<bool, ContextError>
    requires fields { IsFor (members_view shared.now.fields.now) fill.old }
    requires is_open { IsOpen fill.old }
    ensures taken { (entries : List TreesData) → HasTaken D.state entries fill.old
        → TakesReady D.state (parts_of (members_view shared.now.fields.now)) entries (left_of S.state lines.old)
        (left_of S.state lines.new) fill.old fill.new result }
    ensures nothing { result ≡ Ok false → (left_of S.state lines.new ≡ left_of S.state lines.old) × (fill.new ≡ fill.old) }
    ensures later { (left_of S.state lines.old).faults ≤ (left_of S.state lines.new).faults }
{
    let Some(line) = lines.ready() else {
        return Ok(false);
    };
    if blank(line) {
        return Ok(false);
    }
    if !fill.fill_utf8(line) {
        return Ok(false);
    }
    spelled_trees_are_read();
    let len = line.len();
    lines.pass(len);
    write_full(rt, shared.gate, fill)?;
    Ok(true)
}

/// Takes the next line, where there is one. Mostly it is ready.
pub(crate) fn take_next<D: Disk, S: Source, G: Gate>(
    rt: &impl Wait,
    shared: &Shared<'_, G>,
    lines: &mut LineReader<S>,
    fill: &mut FillContext<'_, D>,
) -> Result<bool, ContextError>
    requires fields { IsFor (members_view shared.now.fields.now) fill.old }
    requires is_open { IsOpen fill.old }
    ensures taken { (entries : List TreesData) → HasTaken D.state entries fill.old
        → TakesNextLine D.state (parts_of (members_view shared.now.fields.now)) entries (left_of S.state lines.old)
        (left_of S.state lines.new) fill.old fill.new result }
    ensures later { (left_of S.state lines.old).faults ≤ (left_of S.state lines.new).faults }
{
    if take_ready(rt, shared, lines, fill)? {
        return Ok(true);
    }
    // What is ready was tried.
    let untried = lines.ready().is_none();
    match lines.next(shared.alloc) {
        Ok(Some(line)) => {
            take_line(rt, shared, fill, &line, untried)?;
            lines.reuse(line);
            Ok(true)
        }
        Ok(None) => Ok(false),
        Err(error) => Err(ContextError::from(error)),
    }
}
