//! The words of `seq`.

ghost use Rattle.std.specs.Prelude.{codes, IfOk};
ghost use Rattle.nt_command_line.specs.CommandLine.{texts, Begins};
ghost use Rattle.nt_command_line.specs.SeqWords.{seq_rules};
ghost use Rattle.nt_command_line.specs.Commands.{SaysAlone};
ghost use Rattle.nt_command_line.specs.Arguments.{IsCommandOf};

use crate::arguments::{is_among, matches_of, name_in, operand};
use crate::command::Alone;
use crate::options::{params_in, with_options};
use nt_book::Params;
use std::alloc::{AllocError, Global};

/// The names and numbers of `seq`: a file is written of the schema text and the script of these names, of which none is the file's.
#[derive(Drop)]
pub struct SeqWords<'a> {
    pub out: &'a str,
    pub schema: &'a str,
    pub input: &'a str,
    pub params: Params,
}

/// `seq`, the options of `write`, and `OUT SCHEMA IN`.
fn seq_command<'a>(alloc: Global) -> Result<clap::Command<'a>, AllocError>
    ensures { IfOk result (IsCommandOf (codes "seq") seq_rules) }
{
    let command = with_options(alloc, "seq")?.arg(operand(alloc, "OUT"))?;
    let command = command.arg(operand(alloc, "SCHEMA"))?;
    command.arg(operand(alloc, "IN"))
}

/// The command of words that begin with `seq`.
pub(crate) fn seq_of<'a>(
    alloc: Global,
    words: &'a [String],
) -> Result<Option<Alone<'a>>, AllocError>
    requires { Begins (texts words.now) (codes "seq") }
    ensures { IfOk result (SaysAlone (texts words.entry.now)) }
{
    let Some(matches) = matches_of(seq_command(alloc)?, words)? else {
        return Ok(None);
    };
    let out = name_in(&matches, "OUT");
    let schema = name_in(&matches, "SCHEMA");
    let input = name_in(&matches, "IN");
    if is_among(out, &[schema, input]) {
        return Ok(None);
    }
    Ok(Some(Alone::Seq(SeqWords {
        out,
        schema,
        input,
        params: params_in(&matches, false),
    })))
}
