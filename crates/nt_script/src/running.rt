//! A script from its first line to its last.

ghost use Rattle.std.specs.Prelude.{◌≡◌, ◌≤◌, ℕ, List, Option};
ghost use Rattle.nt_types.specs.ShapeData.{MemberData};
ghost use Rattle.nt_types.specs.Views.{members_view};
ghost use Rattle.nt_grammar.specs.Rows.{Rows};
ghost use Rattle.nt_grammar.specs.Table.{Table};
ghost use Rattle.nt_book.specs.declared.params.Params.{Params};
ghost use Rattle.nt_contexts.specs.Reading.{left_of};
ghost use Rattle.nt_script.specs.Taking.{HasJustFields, IsOpenWriter};
ghost use Rattle.nt_script.specs.Running.{IsFirstWriter, GoesOnScript, ReadsScriptLine, EndedScript};

use crate::adding::{add_field, adds_field};
use crate::error::ScriptError;
use crate::taking::{take_event, write_gathered};
use nt_event::{Line, LineReader};
use nt_outside::{Disk, Source};
use nt_seq::SeqWriter;
use nt_types::Fields;
use std::alloc::Global;

/// The largest number of a line.
const MAX_NUMBER: u64 = 1 << 48;

/// Takes the next line, and says whether there was one.
fn take_next<D: Disk, S: Source>(
    alloc: Global,
    fields: &mut Fields,
    lines: &mut LineReader<S>,
    writer: &mut SeqWriter<D>,
) -> Result<bool, ScriptError>
    requires just { HasJustFields (members_view fields.old) writer.old.table }
    requires is_open { IsOpenWriter writer.old }
    ensures line { (F : List MemberData) (text : Option (List ℕ)) (first : Table) (p : Params)
        → Rows F p.plain first
        → GoesOnScript D.state F text first p (members_view fields.old) writer.old (left_of S.state lines.old)
        → ReadsScriptLine D.state F text first p (members_view fields.new) (left_of S.state lines.old) (left_of S.state lines.new)
        writer.new result }
    ensures later { (left_of S.state lines.old).faults ≤ (left_of S.state lines.new).faults }
    ensures given { writer.new.given ≡ writer.old.given }
{
    writer.keeps();
    let next = match lines.next(alloc) {
        Ok(next) => next,
        Err(error) => return Err(ScriptError::from(error)),
    };
    let Some(line) = next else {
        return Ok(false);
    };
    if adds_field(line.bytes.as_slice()) {
        return match add_field(alloc, fields, writer, &line) {
            Ok(()) => {
                lines.reuse(line);
                Ok(true)
            }
            Err(error) => Err(error),
        };
    }
    match take_event(alloc, fields, writer, &line) {
        Ok(()) => {
            lines.reuse(line);
            Ok(true)
        }
        Err(error) => Err(error),
    }
}

/// Writes the clusters of a script's events, and adds its fields between them.
pub fn write_script<D: Disk, S: Source>(
    alloc: Global,
    fields: Fields,
    lines: &mut LineReader<S>,
    writer: &mut SeqWriter<D>,
) -> Result<(), ScriptError>
    requires { IsFirstWriter D.state (members_view fields) (left_of S.state lines.old) writer.old }
    ensures ended { EndedScript D.state (members_view fields) (left_of S.state lines.old).left writer.old.table writer.old.params
        (left_of S.state lines.old) (left_of S.state lines.new) writer.new result }
    ensures later { (left_of S.state lines.old).faults ≤ (left_of S.state lines.new).faults }
    ensures given { writer.new.given ≡ writer.old.given }
{
    let mut fields = fields;
    for count in 0..=MAX_NUMBER {
        match take_next(alloc, &mut fields, lines, writer) {
            Ok(true) => {}
            Ok(false) => return write_gathered(writer),
            Err(error) => return Err(error),
        }
    }
    unreachable!()
}
