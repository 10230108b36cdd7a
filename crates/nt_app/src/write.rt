//! The command `write`: a schema text and event texts in, one file out.

ghost use Rattle.std.specs.Prelude.{◌≡◌, ◌<◌, ◌≤◌, false, length};
ghost use Rattle.nt_book.specs.Ranges.{IsFromTo};
ghost use Rattle.nt_command_line.specs.Commands.{names_of};
ghost use Rattle.nt_app.specs.Writes.{status_of_store, WritesNamed};

use crate::status::{Status, TextFault};
use nt_command_line::WriteWords;
use nt_outside::{Disk, Gate, Host};
use nt_store::{Names, Settings, StoreError, store};
use std::alloc::Global;
use std::sync::Wait;
use std::thread::Threads;

/// The answer of a file that was written, or of what came in place of that.
fn status_of_store(stored: Result<(), StoreError>) -> Status
    ensures { result ≡ status_of_store stored }
{
    match stored {
        Ok(()) => Status::Done,
        Err(StoreError::Outside) => Status::Outside,
        Err(StoreError::Memory) => Status::Memory,
        Err(StoreError::Schema { line, kind }) => Status::Text {
            input: None,
            line,
            kind: TextFault::Schema(kind),
        },
        Err(StoreError::Line { input, line, kind }) => Status::Text {
            input: Some(input),
            line,
            kind: TextFault::Line(kind),
        },
        Err(StoreError::Limit { reached, limit }) => Status::Limit { reached, limit },
    }
}

/// The whole command `write`.
pub(crate) fn write<R, H, G>(
    rt: &R,
    alloc: Global,
    host: &mut H,
    words: &WriteWords<'_>,
    gate: &G,
) -> Status
where
    R: Threads + Wait + Sync,
    H: Host,
    H::Text: Send,
    H::Out: Send,
    <H::Out as Disk>::Pen: Send,
    <H::Out as Disk>::Ext: Send,
    G: Gate + Sync,
    requires inputs { IsFromTo 1 64 (length (names_of words.now.inputs.items)) }
    requires contexts { (0 < words.now.contexts) × (words.now.contexts ≤ 64) }
    ensures { WritesNamed words.now.out.now words.now.schema.now (names_of words.now.inputs.items) words.now.params
        (H.state host.old) (H.state host.new) result }
{
    let names = Names {
        out: words.out,
        schema: words.schema,
        inputs: words.inputs.as_slice(),
    };
    let settings = Settings {
        alloc,
        params: &words.params,
        gate,
        workers: words.contexts,
    };
    let stored = store(rt, host, names, &settings);
    status_of_store(stored)
}
