//! The words of `gen`.

ghost use Rattle.std.specs.Prelude.{codes, IfOk};
ghost use Rattle.nt_command_line.specs.CommandLine.{texts, Begins};
ghost use Rattle.nt_command_line.specs.GenWords.{gen_rules};
ghost use Rattle.nt_command_line.specs.Commands.{SaysParallel};
ghost use Rattle.nt_command_line.specs.Arguments.{IsCommandOf};

use crate::arguments::{bare, matches_of, name_in, number_operand, operand, operand_number};
use crate::command::Parallel;
use nt_draws::Making;
use std::alloc::{AllocError, Global};

/// The numbers and the name of `gen`: a file of this name is written of events that are made.
#[derive(Drop)]
pub struct GenWords<'a> {
    pub making: Making,
    pub out: &'a str,
}

/// `gen C E SEED OUT`.
fn gen_command<'a>(alloc: Global) -> Result<clap::Command<'a>, AllocError>
    ensures { IfOk result (IsCommandOf (codes "gen") gen_rules) }
{
    let command = bare(alloc, "gen").arg(number_operand(alloc, "C", 1, 64))?;
    let command = command.arg(number_operand(alloc, "E", 0, 1_000_000))?;
    let command = command.arg(number_operand(alloc, "SEED", 1, 1_000_000))?;
    command.arg(operand(alloc, "OUT"))
}

/// The command of words that begin with `gen`.
pub(crate) fn gen_of<'a>(
    alloc: Global,
    words: &'a [String],
) -> Result<Option<Parallel<'a>>, AllocError>
    requires { Begins (texts words.now) (codes "gen") }
    ensures { IfOk result (SaysParallel (texts words.entry.now)) }
{
    let Some(matches) = matches_of(gen_command(alloc)?, words)? else {
        return Ok(None);
    };
    let contexts = operand_number(&matches, "C") as u32;
    let events = operand_number(&matches, "E") as u32;
    let seed = operand_number(&matches, "SEED") as u32;
    let Some(making) = Making::new(contexts, events, seed) else {
        unreachable!()
    };
    Ok(Some(Parallel::Gen(GenWords {
        making,
        out: name_in(&matches, "OUT"),
    })))
}
