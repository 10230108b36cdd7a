//! The answers of the program.

ghost use Rattle.std.specs.Prelude.{◌≡◌};

use nt_event::TextKind;
use nt_num::ReadError;
use nt_types::{Bytes, SchemaKind};

/// What is wrong with a text.
#[derive(Clone, Copy, Debug, PartialEq, Eq)]
pub enum TextFault {
    /// It is no schema text.
    Schema(SchemaKind),
    /// A line of it is no entry of the fields.
    Line(TextKind),
}

/// Where the schema of a file doesn't meet the words, or the schemas of files can't be those of one. Files count from 0.
#[derive(Drop)]
pub enum SchemaPlace {
    /// No field at the top level has this name.
    UnknownField { name: Bytes },
    /// The field of this name was chosen before.
    Twice { name: Bytes },
    /// The field of this name isn't open, its name or its type can't stand in a schema text, or there are too many fields with it.
    NotWritable { name: Bytes },
    /// The field of this name isn't an open one of numbers.
    NotANumber { name: Bytes },
    /// The field of this id, at the top level of the file of this number, isn't open; 0 of a file without fields.
    Closed { file: u32, field: u32 },
    /// The column of this id doesn't begin with the first entry of the file of this number.
    Deferred { file: u32, column: u32 },
    /// The field of this id is another in the file of this number than in the first one.
    Field { file: u32, id: u32 },
    /// The column of this id is another in the file of this number than in the first one.
    Column { file: u32, id: u32 },
}

impl SchemaPlace {
    ghost use Rattle.std.specs.Prelude.{option_map};
    ghost use Rattle.nt_app.specs.Statuses.{name_of_place};

    /// The name that the words say, if it is one of theirs that isn't met.
    pub(crate) fn name(&self) -> Option<&[u8]>
        ensures { option_map (λ name. name.now) result ≡ name_of_place self.now }
    {
        match self {
            SchemaPlace::UnknownField { name }
            | SchemaPlace::Twice { name }
            | SchemaPlace::NotWritable { name }
            | SchemaPlace::NotANumber { name } => Some(name.as_slice()),
            SchemaPlace::Closed { .. }
            | SchemaPlace::Deferred { .. }
            | SchemaPlace::Field { .. }
            | SchemaPlace::Column { .. } => None,
        }
    }
}

/// How a command ended.
#[derive(Drop)]
pub enum Status {
    Done,
    /// The words are no command.
    Usage,
    /// The file's first fault.
    File(ReadError),
    /// The first fault of the file of this number, from 0, which is the first that has one.
    FileOf {
        file: u32,
        error: ReadError,
    },
    /// The outside failed.
    Outside,
    /// What is written reaches so much, above a limit.
    Limit {
        reached: u64,
        limit: u64,
    },
    /// The first fault of the texts: of the input of this number, from 0, or of the schema where there is none.
    Text {
        input: Option<u32>,
        line: u64,
        kind: TextFault,
    },
    /// Memory ran out.
    Memory,
    /// The schema of the file doesn't meet the words, or the schemas of the files can't be those of one.
    Schema {
        place: SchemaPlace,
    },
}

impl Status {
    ghost use Rattle.nt_app.specs.Statuses.{status_code};

    /// The exit status of the process.
    pub fn code(&self) -> u8
        ensures { result ≡ status_code self.now }
    {
        match self {
            Status::Done => 0,
            Status::Usage => 2,
            Status::File(_) | Status::FileOf { .. } => 3,
            Status::Outside => 4,
            Status::Limit { .. } => 5,
            Status::Text { .. } => 6,
            Status::Memory => 7,
            Status::Schema { .. } => 8,
        }
    }
}
