//! Lines that add a field.

ghost use Rattle.std.specs.Prelude.{◌≡◌, ◌≤◌, ◌∷◌, [], ◌++◌, ℕ, drop, length, List, Ok, IfOk, IfErr, OnOk};
ghost use Rattle.std.specs.List.{prefix_len};
ghost use Rattle.nt_types.specs.Words.{is_blank};
ghost use Rattle.nt_types.specs.TreeData.{TreesData};
ghost use Rattle.nt_types.specs.Views.{member_view, members_view};
ghost use Rattle.nt_types.specs.LineSpelling.{IsMember};
ghost use Rattle.nt_types.specs.Lines.{member_of};
ghost use Rattle.nt_grammar.specs.Table.{Table};
ghost use Rattle.nt_seq.specs.Writer.{IsClear};
ghost use Rattle.nt_script.specs.Script.{adds_field, behind_plus};
ghost use Rattle.nt_script.specs.Reading.{Segment};
ghost use Rattle.nt_script.specs.Taking.{HasGrownBy, HasTakenLines, IsOpenWriter};
ghost use Rattle.nt_script.specs.Adding.{IsMemberError, IsWrittenOut, ExtendsScript};
ghost use Rattle.nt_script.specs.Events.{TakesField};

use crate::error::{LineFault, ScriptError};
use crate::taking::write_gathered;
use nt_event::Line;
use nt_outside::Disk;
use nt_plans::late_fields_are_planned;
use nt_schema::ExtendError;
use nt_seq::{SeqWriter, written_clusters_are_counted};
use nt_types::{Fields, Member, SchemaError, SchemaKind, parse_member};
use std::alloc::{AllocError, Global};

/// Whether a line adds a field.
pub(crate) fn adds_field(line: &[u8]) -> bool
    ensures { result ≡ adds_field line.now }
{
    match line {
        [first, ..] => *first == b'+',
        [] => false,
    }
}

/// Whether a byte is a space or a tab.
fn is_blank(byte: u8) -> bool
    ensures { result ≡ is_blank byte }
{
    byte == b' ' || byte == b'\t'
}

/// How many spaces and tabs come first.
fn blanks_len(text: &[u8]) -> usize
    ensures value { result ≡ prefix_len is_blank text.now }
    ensures within { result ≤ length text.now }
{
    text.iter().take_while(|byte| is_blank(**byte)).count()
}

/// What stands behind the first byte.
fn behind_first(line: &[u8]) -> &[u8]
    ensures { result.now ≡ drop 1 line.now }
{
    match line {
        [_, rest @ ..] => rest,
        [] => line,
    }
}

/// What such a line says of its field.
fn behind_plus(line: &[u8]) -> &[u8]
    ensures { result.now ≡ behind_plus line.now }
{
    let rest = behind_first(line);
    &rest[blanks_len(rest)..]
}

/// The field that such a line spells.
fn member_of(alloc: Global, line: &Line) -> Result<Member, ScriptError>
    ensures ok { IfOk result (λ m. member_of (behind_plus line.now.bytes) ≡ Ok (member_view m)) }
    ensures spelled { IfOk result (λ m. IsMember (behind_plus line.now.bytes) (member_view m)) }
    ensures err { IfErr result (IsMemberError line.now) }
{
    match parse_member(alloc, behind_plus(line.bytes.as_slice())) {
        Ok(member) => Ok(member),
        Err(SchemaError::Fault(fault)) => Err(ScriptError::Line {
            line: line.number,
            kind: LineFault::Field(fault.kind),
        }),
        Err(SchemaError::Memory) => Err(ScriptError::Memory),
    }
}

/// Adds a field to those that there are.
fn push_field(fields: &mut Fields, member: Member) -> Result<(), AllocError>
    ensures { OnOk result (members_view fields.new ≡ members_view fields.old ++ member_view member ∷ []) }
{
    fields.list.push(member)?;
    Ok(())
}

/// Adds a field behind all that is written.
fn extend<D: Disk>(
    writer: &mut SeqWriter<D>,
    fields: &mut Fields,
    line: u64,
    member: Member,
) -> Result<(), ScriptError>
    requires clear { IsClear writer.old }
    requires spelled { (text : List ℕ) × IsMember text (member_view member) }
    ensures done { (first : Table) (segments : List Segment) (es : List TreesData)
        → IsWrittenOut D.state first (members_view fields.old) segments es writer.old
        → ExtendsScript D.state first (members_view fields.old) (members_view fields.new) (member_view member) segments es line
        writer.old writer.new result }
    ensures given { writer.new.given ≡ writer.old.given }
{
    late_fields_are_planned();
    written_clusters_are_counted();
    writer.keeps();
    match writer.extend(&member) {
        Ok(()) => {}
        Err(ExtendError::Repeated) => {
            return Err(ScriptError::Line {
                line,
                kind: LineFault::Field(SchemaKind::Repeated),
            });
        }
        Err(ExtendError::TooMany) => {
            return Err(ScriptError::Line {
                line,
                kind: LineFault::Field(SchemaKind::TooMany),
            });
        }
        Err(ExtendError::Memory) => return Err(ScriptError::Memory),
    }
    writer.keeps();
    push_field(fields, member)?;
    Ok(())
}

/// Writes what is gathered, and adds the field of a line behind it.
pub(crate) fn add_field<D: Disk>(
    alloc: Global,
    fields: &mut Fields,
    writer: &mut SeqWriter<D>,
    line: &Line,
) -> Result<(), ScriptError>
    requires is_open { IsOpenWriter writer.old }
    ensures done { (first : Table) (segments : List Segment) (es : List TreesData)
        → HasGrownBy first (members_view fields.old) segments writer.old → HasTakenLines D.state segments es writer.old
        → TakesField D.state first (members_view fields.old) (members_view fields.new) segments es line.now
        writer.old writer.new result }
    ensures given { writer.new.given ≡ writer.old.given }
{
    if let Err(error) = write_gathered(writer) {
        return Err(error);
    }
    writer.keeps();
    match member_of(alloc, line) {
        Ok(member) => extend(writer, fields, line.number, member),
        Err(error) => Err(error),
    }
}
