//! The words of the commands that read a file: `entries`, `schema` and `scan`.

ghost use Rattle.std.specs.Prelude.{[], ◌∷◌, codes, IfOk};
ghost use Rattle.nt_command_line.specs.CommandLine.{texts, operand, entries_rules, Begins};
ghost use Rattle.nt_command_line.specs.Commands.{SaysAlone, SaysParallel};
ghost use Rattle.nt_command_line.specs.Arguments.{IsCommandOf};

use crate::arguments::{bare, matches_of, name_in, number_in, number_option, operand};
use crate::command::{Alone, Parallel};
use std::alloc::{AllocError, Global};

/// `entries [--from A] [--count C] FILE`.
fn entries_command<'a>(alloc: Global) -> Result<clap::Command<'a>, AllocError>
    ensures { IfOk result (IsCommandOf (codes "entries") entries_rules) }
{
    let command = bare(alloc, "entries").arg(number_option(alloc, "from", 0, u64::MAX))?;
    let command = command.arg(number_option(alloc, "count", 0, u64::MAX))?;
    command.arg(operand(alloc, "FILE"))
}

/// `schema FILE`.
fn schema_command<'a>(alloc: Global) -> Result<clap::Command<'a>, AllocError>
    ensures { IfOk result (IsCommandOf (codes "schema") (operand (codes "FILE") ∷ [])) }
{
    bare(alloc, "schema").arg(operand(alloc, "FILE"))
}

/// The command of words that begin with `entries`.
pub(crate) fn entries_of<'a>(
    alloc: Global,
    words: &'a [String],
) -> Result<Option<Alone<'a>>, AllocError>
    requires { Begins (texts words.now) (codes "entries") }
    ensures { IfOk result (SaysAlone (texts words.entry.now)) }
{
    let Some(matches) = matches_of(entries_command(alloc)?, words)? else {
        return Ok(None);
    };
    Ok(Some(Alone::Entries {
        from: number_in(&matches, "from"),
        count: number_in(&matches, "count"),
        file: name_in(&matches, "FILE"),
    }))
}

/// The command of words that begin with `schema`.
pub(crate) fn schema_of<'a>(
    alloc: Global,
    words: &'a [String],
) -> Result<Option<Alone<'a>>, AllocError>
    requires { Begins (texts words.now) (codes "schema") }
    ensures { IfOk result (SaysAlone (texts words.entry.now)) }
{
    match matches_of(schema_command(alloc)?, words)? {
        Some(matches) => Ok(Some(Alone::Schema {
            file: name_in(&matches, "FILE"),
        })),
        None => Ok(None),
    }
}

/// `scan FILE`.
fn scan_command<'a>(alloc: Global) -> Result<clap::Command<'a>, AllocError>
    ensures { IfOk result (IsCommandOf (codes "scan") (operand (codes "FILE") ∷ [])) }
{
    bare(alloc, "scan").arg(operand(alloc, "FILE"))
}

/// The command of words that begin with `scan`.
pub(crate) fn scan_of<'a>(
    alloc: Global,
    words: &'a [String],
) -> Result<Option<Parallel<'a>>, AllocError>
    requires { Begins (texts words.now) (codes "scan") }
    ensures { IfOk result (SaysParallel (texts words.entry.now)) }
{
    match matches_of(scan_command(alloc)?, words)? {
        Some(matches) => Ok(Some(Parallel::Scan {
            file: name_in(&matches, "FILE"),
        })),
        None => Ok(None),
    }
}
