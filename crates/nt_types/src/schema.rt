//! The fields that a schema text spells.

ghost use Rattle.std.specs.Prelude.{◌≡◌, ◌≤◌, ◌^◌, ◌==◌, ◌∷◌, List, length, IfOk, Ok, Err};
ghost use Rattle.std.specs.List.{position_or_len, slice_split};
ghost use Rattle.nt_types.specs.Views.{members_view};
ghost use Rattle.nt_types.specs.Schema.{schema_text, take_lines, first_line};
ghost use Rattle.nt_types.specs.ShapeData.{MemberData};
ghost use Rattle.nt_types.specs.Limits.{max_text};
ghost use Rattle.nt_types.specs.Rules.{AreFields};
ghost use Rattle.nt_types.specs.TextSpelling.{IsSchema, IsRefused};
ghost use Rattle.nt_types.specs.TextAnswers.{TellsText};
ghost use Rattle.nt_lists.specs.Answering.{Answers};
ghost use Rattle.nt_types.specs.FaultViews.{schema_fault};
ghost use Rattle.nt_types.specs.TextLines.{lines_left, bytes_left};
ghost use Rattle.nt_types.specs.declared.fault.SchemaFault.{SchemaFault};

use crate::fault::{LineError, SchemaError, SchemaKind};
use crate::progress::Progress;
use crate::shape::{Fields, Members};
use std::alloc::Global;

/// The most bytes of a schema text.
const MAX_TEXT: usize = 1 << 20;

fn line_len(rest: &[u8]) -> usize
    ensures value { result ≡ position_or_len (λ b. b == 10) rest.now }
    ensures within { result ≤ length rest.now }
{
    rest.iter().take_while(|byte| **byte != b'\n').count()
}

/// The first line, and what follows its LF.
#[tactic(auto, using(crate::proofs::TextLines::cut_last, crate::proofs::TextLines::cut_first))]
fn cut_line(text: &[u8]) -> (&[u8], Option<&[u8]>)
    ensures lines { slice_split (λ b. b == 10) text.now ≡ result.0.now ∷ lines_left result.1 }
    ensures shorter { bytes_left result.1 ≤ length text.now }
{
    let (line, after) = text.split_at(line_len(text));
    match after {
        [] => (line, None),
        [_, more @ ..] => (line, Some(more)),
    }
}

/// The fields of the lines, of which there is at least one.
fn read_lines(alloc: Global, text: &[u8]) -> Result<Fields, SchemaError>
    requires { length text.now ≤ max_text }
    ensures { Answers members_view schema_fault result
        (take_lines first_line (slice_split (λ b. b == 10) text.now)) }
{
    let mut progress = Progress::new(alloc);
    let mut rest = Some(text);
    let mut number = 0u64;
    while let Some(text) = rest {
        number += 1;
        let (line, more) = cut_line(text);
        match progress.take_line(alloc, line) {
            Ok(()) => rest = more,
            Err(error) => return Err(error.at(number)),
        }
    }
    if progress.members.is_empty() {
        return Err(LineError::Kind(SchemaKind::Empty).at(0));
    }
    Ok(Members::from_vec(progress.members))
}

/// Reads the fields of a schema text, one a line.
pub fn parse_schema(alloc: Global, text: &[u8]) -> Result<Fields, SchemaError>
    // The fields that the text spells, or its first fault.
    ensures told { TellsText text.now result }
    // Fields that the text spells are read, unless memory runs out.
    ensures only { (fields : List MemberData) → IsSchema text.now fields
        → Answers members_view schema_fault result (Ok fields) }
    // The first fault is answered, unless memory runs out.
    ensures each { (fault : SchemaFault) → IsRefused text.now fault.line fault.kind
        → Answers members_view schema_fault result (Err fault) }
    // What is read keeps the rules of fields.
    ensures rules { IfOk result (λ fields. AreFields (members_view fields)) }
    // The same by the reading of lines, which callers' own words of schema texts cite.
    ensures exact { Answers members_view schema_fault result (schema_text text.now) }
{
    read_text(alloc, text)
}

fn read_text(alloc: Global, text: &[u8]) -> Result<Fields, SchemaError>
    ensures { Answers members_view schema_fault result (schema_text text.now) }
{
    if text.len() > MAX_TEXT {
        return Err(LineError::Kind(SchemaKind::TooLong).at(0));
    }
    read_lines(alloc, text)
}
