//! The member that one line spells.

ghost use Rattle.std.specs.Prelude.{◌≡◌, IfOk, Ok, Err};
ghost use Rattle.nt_types.specs.Views.{shape_view, member_view};
ghost use Rattle.nt_types.specs.Lines.{member_of, under_name};
ghost use Rattle.nt_types.specs.ShapeData.{MemberData};
ghost use Rattle.nt_types.specs.Schema.{member_text, at_line};
ghost use Rattle.nt_types.specs.LineSpelling.{IsMember, HasFault};
ghost use Rattle.nt_types.specs.TextAnswers.{TellsLine};
ghost use Rattle.nt_types.specs.declared.fault.SchemaKind.{SchemaKind};
ghost use Rattle.nt_lists.specs.Answering.{Answers};
ghost use Rattle.nt_types.specs.FaultViews.{line_fault, schema_fault};

use crate::fault::{LineError, SchemaError, SchemaKind};
use crate::line::{split_line, type_of};
use crate::name::Name;
use crate::shape::{Member, Shape};
use std::alloc::{AllocError, Global};

/// A member under a copy of a name.
pub(crate) fn under_name(alloc: Global, name: &[u8], of: Shape) -> Result<Member, AllocError>
    ensures { IfOk result (λ m. member_view m ≡ record { name = name.now; of = shape_view of }) }
{
    Ok(Member {
        name: Name::from_vec(name.to_vec(alloc)?),
        of,
    })
}

fn member_of(alloc: Global, line: &[u8]) -> Result<Member, LineError>
    ensures { Answers member_view line_fault result (member_of line.now) }
{
    let Some((name, text)) = split_line(line) else {
        return Err(LineError::Kind(SchemaKind::BadName));
    };
    let shape = type_of(alloc, text)?;
    Ok(under_name(alloc, name, shape)?)
}

/// Reads one line of a schema text, without its LF. A fault has line 0.
pub fn parse_member(alloc: Global, line: &[u8]) -> Result<Member, SchemaError>
    // The member that the line spells, or what is wrong with the line.
    ensures told { TellsLine line.now result }
    // A member that the line spells is read, unless memory runs out.
    ensures only { (p : MemberData) → IsMember line.now p
        → Answers member_view schema_fault result (Ok p) }
    // What is wrong is answered, unless memory runs out; TooDeep of each type that nests too deep.
    ensures each { (kind : SchemaKind) → HasFault line.now kind
        → Answers member_view schema_fault result (Err (at_line 0 kind)) }
{
    read_member(alloc, line)
}

fn read_member(alloc: Global, line: &[u8]) -> Result<Member, SchemaError>
    ensures { Answers member_view schema_fault result (member_text line.now) }
{
    match member_of(alloc, line) {
        Ok(member) => Ok(member),
        Err(error) => Err(error.at(0)),
    }
}
