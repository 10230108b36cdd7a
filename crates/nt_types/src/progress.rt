//! What is read of a schema text, line by line.

ghost use Rattle.std.specs.Prelude.{◌≡◌, ◌≤◌, ◌+◌, ℕ, List, IfOk};
ghost use Rattle.nt_types.specs.Views.{shape_view};
ghost use Rattle.nt_types.specs.ShapeData.{MemberData};
ghost use Rattle.nt_types.specs.Limits.{max_fields};
ghost use Rattle.nt_types.specs.Seen.{KnowsNames};
ghost use Rattle.nt_types.specs.Schema.{field_of, field_count, part_under};
ghost use Rattle.nt_lists.specs.Answering.{Answers};
ghost use Rattle.nt_types.specs.FaultViews.{line_fault};

use crate::count::{MAX_FIELDS, count_fields};
use crate::fault::{LineError, SchemaKind};
use crate::line::{is_blank_line, split_line, type_of};
use crate::member::under_name;
use crate::shape::{Member, Shape};
use std::alloc::Global;
use std::collections::BTreeSet;

/// What is read up to a line.
#[derive(Drop)]
pub(crate) struct Progress<'a> {
    pub(crate) seen: BTreeSet<&'a [u8]>,
    pub(crate) count: u32,
    pub(crate) members: Vec<Member>,
    ghost few: { count ≤ max_fields },
}

/// The name and the shape of a line's field, beside these names and so many fields before it.
fn field_of<'a>(
    alloc: Global,
    seen: &BTreeSet<&'a [u8]>,
    before: u32,
    line: &'a [u8],
) -> Result<(&'a [u8], Shape), LineError>
    requires { before ≤ max_fields }
    ensures few { IfOk result (λ x. before + field_count (shape_view x.1) ≤ max_fields) }
    ensures field { (names : List (List ℕ)) → KnowsNames seen.now names
        → Answers (λ x. part_under x.0.now (shape_view x.1)) line_fault result
        (field_of names before line.now) }
{
    let Some((name, text)) = split_line(line) else {
        return Err(LineError::Kind(SchemaKind::BadName));
    };
    if seen.contains(&name) {
        return Err(LineError::Kind(SchemaKind::Repeated));
    }
    let shape = type_of(alloc, text)?;
    if count_fields(&shape, before) > MAX_FIELDS {
        return Err(LineError::Kind(SchemaKind::TooMany));
    }
    Ok((name, shape))
}

impl<'a> Progress<'a> {
    ghost use Rattle.nt_types.specs.Schema as schema;
    ghost use Rattle.nt_types.specs.ProgressViews.{Follows, TakesLine};

    pub(crate) fn new(alloc: Global) -> Self
        ensures { Follows result schema.first_line }
    {
        Progress {
            seen: BTreeSet::new(alloc),
            count: 0,
            members: Vec::new(alloc),
        }
    }

    /// Adds the field of the next line, unless the line is blank.
    pub(crate) fn take_line(&mut self, alloc: Global, line: &'a [u8]) -> Result<(), LineError>
        ensures { (s : schema.ProgressData) → Follows self.old s
            → TakesLine s.line self.new result (schema.take_line s line.now) }
    {
        if is_blank_line(line) {
            return Ok(());
        }
        let (name, shape) = field_of(alloc, &self.seen, self.count, line)?;
        let count = count_fields(&shape, self.count);
        let member = under_name(alloc, name, shape)?;
        self.members.push(member)?;
        self.seen.insert(name)?;
        self.count = count;
        Ok(())
    }
}
