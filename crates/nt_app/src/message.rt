//! The lines that are printed on err. They are made without memory, so that each answer has its line.

ghost use Rattle.std.specs.Prelude.{◌≡◌, ◌+◌, ◌≤◌, ◌<◌, ◌++◌, length, decimal};
ghost use Rattle.arrayvec.specs.ArrayString.{array_string_len};
ghost use Rattle.nt_app.specs.Statuses.{message_front, place_text, place_front, row_text, fault_text, file_message, limit_message};
ghost use Rattle.nt_app.specs.Statuses.{text_name, text_message, fault_name, schema_fault_name, line_fault_name, numbered_message};

use crate::status::{SchemaPlace, Status, TextFault};
use arrayvec::ArrayString;
use itoa::Buffer;
use nt_event::TextKind;
use nt_num::ReadError;
use nt_types::SchemaKind;

/// The most bytes of a line.
const MOST: usize = 112;

/// A line, without memory.
pub type Line = ArrayString<MOST>;

/// The line of an answer, none for `Done`; where a name ends it, the line in front of that.
pub fn message_front(status: &Status) -> Line
    ensures { result.bytes ≡ message_front status.now }
{
    match status {
        Status::Done => Line::new(),
        Status::Usage => line("ntuple: usage\n"),
        Status::File(fault) => file_message(fault),
        Status::FileOf { file, error } => numbered_message(*file, error),
        Status::Outside => line("ntuple: outside\n"),
        Status::Limit { reached, limit } => limit_message(*reached, *limit),
        Status::Text { input, line, kind } => text_message(*input, *line, *kind),
        Status::Memory => line("ntuple: memory\n"),
        Status::Schema { place } => place_front(place),
    }
}

/// A line of this text.
fn line(text: &str) -> Line
    requires { length text.now ≤ 40 }
    ensures { result.bytes ≡ text.now }
{
    let mut line = Line::new();
    line.push_str(text);
    line
}

/// Adds the digits of a number.
fn push_number(line: &mut Line, number: u64)
    requires { array_string_len line.old ≤ 80 }
    ensures bytes { line.new.bytes ≡ line.old.bytes ++ decimal number }
    ensures len { array_string_len line.new ≤ array_string_len line.old + 20 }
{
    let mut digits = Buffer::new();
    line.push_str(digits.format(number));
}

/// Adds which fault a file has, to the end of the line.
fn push_fault(line: &mut Line, fault: &ReadError)
    requires { array_string_len line.old ≤ 33 }
    ensures { line.new.bytes ≡ line.old.bytes ++ fault_text fault.now }
{
    line.push_str(": ");
    push_number(line, u64::from(fault.code));
    line.push_str(" ");
    line.push_str(fault.name());
    line.push_str(" at ");
    push_number(line, fault.at);
    line.push_str("\n");
}

/// The line of a file's first fault.
fn file_message(fault: &ReadError) -> Line
    ensures { result.bytes ≡ file_message fault.now }
{
    let mut line = line("ntuple: file");
    push_fault(&mut line, fault);
    line
}

/// The line of the first fault of the file of a number.
fn numbered_message(file: u32, error: &ReadError) -> Line
    ensures { result.bytes ≡ numbered_message file error.now }
{
    let mut line = line("ntuple: file ");
    push_number(&mut line, u64::from(file));
    push_fault(&mut line, error);
    line
}

/// The line of a limit that is passed.
fn limit_message(reached: u64, limit: u64) -> Line
    ensures { result.bytes ≡ limit_message reached limit }
{
    let mut line = line("ntuple: limit: ");
    push_number(&mut line, reached);
    line.push_str(" over ");
    push_number(&mut line, limit);
    line.push_str("\n");
    line
}

/// Adds which text a fault is in.
fn push_text_name(line: &mut Line, input: Option<u32>)
    requires { array_string_len line.old ≤ 20 }
    ensures bytes { line.new.bytes ≡ line.old.bytes ++ text_name input }
    ensures len { array_string_len line.new ≤ array_string_len line.old + 26 }
{
    match input {
        None => line.push_str("schema"),
        Some(input) => {
            line.push_str("input ");
            push_number(line, u64::from(input));
        }
    }
}

/// The name of a text's fault.
fn fault_name(kind: TextFault) -> &'static str
    ensures name { result.now ≡ fault_name kind }
    ensures len { length result.now ≤ 10 }
{
    match kind {
        TextFault::Schema(kind) => schema_fault_name(kind),
        TextFault::Line(kind) => line_fault_name(kind),
    }
}

/// The name of a schema text's fault.
fn schema_fault_name(kind: SchemaKind) -> &'static str
    ensures name { result.now ≡ schema_fault_name kind }
    ensures len { length result.now ≤ 10 }
{
    match kind {
        SchemaKind::TooLong => "TooLong",
        SchemaKind::BadName => "BadName",
        SchemaKind::Repeated => "Repeated",
        SchemaKind::BadType => "BadType",
        SchemaKind::TooDeep => "TooDeep",
        SchemaKind::TooMany => "TooMany",
        SchemaKind::Empty => "Empty",
    }
}

/// The name of a line's fault.
fn line_fault_name(kind: TextKind) -> &'static str
    ensures name { result.now ≡ line_fault_name kind }
    ensures len { length result.now ≤ 10 }
{
    match kind {
        TextKind::TooLong => "TooLong",
        TextKind::NotJson => "NotJson",
        TextKind::NotArray => "NotArray",
        TextKind::Count => "Count",
        TextKind::Misfit => "Misfit",
    }
}

/// The line of a text's first fault.
fn text_message(input: Option<u32>, number: u64, kind: TextFault) -> Line
    ensures { result.bytes ≡ text_message input number kind }
{
    let mut line = line("ntuple: text: ");
    push_text_name(&mut line, input);
    line.push_str(" line ");
    push_number(&mut line, number);
    line.push_str(": ");
    line.push_str(fault_name(kind));
    line.push_str("\n");
    line
}

/// Adds a row of a file, to the end of the line.
fn push_row(line: &mut Line, file: u32, what: &str, id: u32)
    requires line { array_string_len line.old ≤ 16 }
    requires what { length what.now ≤ 10 }
    ensures { line.new.bytes ≡ line.old.bytes ++ row_text file what.now id }
{
    line.push_str("file ");
    push_number(line, u64::from(file));
    line.push_str(what);
    push_number(line, u64::from(id));
    line.push_str("\n");
}

/// Adds what stands against the field of a name, or against a row of a file.
fn push_place(line: &mut Line, place: &SchemaPlace)
    requires { array_string_len line.old ≤ 16 }
    ensures { line.new.bytes ≡ line.old.bytes ++ place_text place.now }
{
    match place {
        SchemaPlace::UnknownField { .. } => line.push_str("unknown "),
        SchemaPlace::Twice { .. } => line.push_str("twice "),
        SchemaPlace::NotWritable { .. } => line.push_str("not writable "),
        SchemaPlace::NotANumber { .. } => line.push_str("not a number "),
        SchemaPlace::Closed { file, field } => push_row(line, *file, " closed ", *field),
        SchemaPlace::Deferred { file, column } => push_row(line, *file, " deferred ", *column),
        SchemaPlace::Field { file, id } => push_row(line, *file, " field ", *id),
        SchemaPlace::Column { file, id } => push_row(line, *file, " column ", *id),
    }
}

/// The line of a place; where a name ends it, the line in front of that.
fn place_front(place: &SchemaPlace) -> Line
    ensures { result.bytes ≡ place_front place.now }
{
    let mut line = line("ntuple: schema: ");
    push_place(&mut line, place);
    line
}
