//! The command `seq`: a schema text and a script in, one file out.

ghost use Rattle.std.specs.Prelude.{◌≡◌, false};
ghost use Rattle.nt_app.specs.Seqs.{fault_of_line, status_of_script, SeqNamed};

use crate::status::{Status, TextFault};
use nt_command_line::SeqWords;
use nt_outside::Host;
use nt_script::{LineFault, ScriptNames, ScriptStoreError, store_script};
use std::alloc::Global;

/// What is wrong with a line of a script.
fn fault_of_line(fault: LineFault) -> TextFault
    ensures { result ≡ fault_of_line fault }
{
    match fault {
        LineFault::Event(kind) => TextFault::Line(kind),
        LineFault::Field(kind) => TextFault::Schema(kind),
    }
}

/// The answer of a file that was written from a script, or of what came in place of that.
fn status_of_script(stored: Result<(), ScriptStoreError>) -> Status
    ensures { result ≡ status_of_script stored }
{
    match stored {
        Ok(()) => Status::Done,
        Err(ScriptStoreError::Outside) => Status::Outside,
        Err(ScriptStoreError::Memory) => Status::Memory,
        Err(ScriptStoreError::Schema { line, kind }) => Status::Text {
            input: None,
            line,
            kind: TextFault::Schema(kind),
        },
        Err(ScriptStoreError::Line { line, kind }) => Status::Text {
            input: Some(0),
            line,
            kind: fault_of_line(kind),
        },
        Err(ScriptStoreError::Limit { reached, limit }) => Status::Limit { reached, limit },
    }
}

/// The whole command `seq`.
pub(crate) fn seq<H: Host>(alloc: Global, host: &mut H, words: &SeqWords<'_>) -> Status
    requires { words.now.params.staged ≡ false }
    ensures { SeqNamed words.now.out.now words.now.schema.now words.now.input.now words.now.params
        (H.state host.old) (H.state host.new) result }
{
    let names = ScriptNames {
        out: words.out,
        schema: words.schema,
        input: words.input,
    };
    let stored = store_script(alloc, host, names, &words.params);
    status_of_script(stored)
}
