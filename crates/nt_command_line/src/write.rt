//! The words of `write`.

ghost use Rattle.std.specs.Prelude.{◌≡◌, ◌≤◌, List, ℕ, codes, IfOk, MatchBool};
ghost use Rattle.clap.specs.Words.{found_of, rows_of, matches_of as matches_found};
ghost use Rattle.nt_command_line.specs.CommandLine.{texts, Begins};
ghost use Rattle.nt_command_line.specs.WriteWords.{write_app, write_rules, AreApart, AreWriteParams, AreContextsSaid};
ghost use Rattle.nt_command_line.specs.Commands.{names_of, SaysParallel};
ghost use Rattle.nt_command_line.specs.Arguments.{IsCommandOf, HasNumber, HasNumbers};

use crate::arguments::{
    flag, flag_in, is_among, matches_of, name_in, names_in, number_in, number_option, operand,
    operands,
};
use crate::command::Parallel;
use crate::options::{params_in, with_options};
use clap::ArgMatches;
use nt_book::Params;
use std::alloc::{AllocError, Global};

/// The most inputs.
const MOST_INPUTS: usize = 64;

/// The names and numbers of `write`: a file is written of the schema text and the event texts of these names, of which there are
/// 1 to 64 and none is the file's.
#[derive(Drop)]
pub struct WriteWords<'a> {
    pub out: &'a str,
    pub schema: &'a str,
    pub inputs: Vec<&'a str>,
    pub params: Params,
    /// How many contexts run beside each other at most, from 1 to 64.
    pub contexts: u32,
}

/// `write`, its options, and `[--staged] [--contexts K] OUT SCHEMA IN...`.
fn write_command<'a>(alloc: Global) -> Result<clap::Command<'a>, AllocError>
    ensures { IfOk result (IsCommandOf (codes "write") write_rules) }
{
    let command = with_options(alloc, "write")?.arg(flag(alloc, "staged"))?;
    let command = command.arg(number_option(alloc, "contexts", 1, 64))?;
    let command = command.arg(operand(alloc, "OUT"))?;
    let command = command.arg(operand(alloc, "SCHEMA"))?;
    command.arg(operands(alloc, "IN"))
}

/// Whether there are 1 to 64 inputs, and OUT isn't the name of a text that is read.
fn are_apart(out: &str, schema: &str, inputs: &[&str]) -> bool
    ensures { MatchBool result (AreApart out.now schema.now (names_of inputs.now))
        (AreApart out.now schema.now (names_of inputs.now) → ⊥) }
{
    if inputs.is_empty() || inputs.len() > MOST_INPUTS {
        return false;
    }
    if schema == out {
        return false;
    }
    !is_among(out, inputs)
}

/// How the file is written: clusters are staged exactly where the words say so.
fn write_params(matches: &ArgMatches<'_>) -> Params
    requires { HasNumbers matches.now }
    ensures { (words : List (List ℕ)) → rows_of (found_of matches.now) ≡ matches_found write_app words → AreWriteParams words result }
{
    params_in(matches, flag_in(matches, "staged"))
}

/// How many contexts run beside each other at most: the number that was found, or that of the inputs where none was.
fn contexts_in(matches: &ArgMatches<'_>, inputs: usize) -> u32
    requires number { HasNumber 1 64 matches.now (codes "contexts") }
    requires inputs { (1 ≤ inputs) × (inputs ≤ 64) }
    ensures { (words : List (List ℕ)) → rows_of (found_of matches.now) ≡ matches_found write_app words
        → AreContextsSaid words inputs result }
{
    number_in(matches, "contexts").unwrap_or(inputs as u64) as u32
}

/// The command of words that begin with `write`.
pub(crate) fn write_of<'a>(
    alloc: Global,
    words: &'a [String],
) -> Result<Option<Parallel<'a>>, AllocError>
    requires { Begins (texts words.now) (codes "write") }
    ensures { IfOk result (SaysParallel (texts words.entry.now)) }
{
    let Some(matches) = matches_of(write_command(alloc)?, words)? else {
        return Ok(None);
    };
    let out = name_in(&matches, "OUT");
    let schema = name_in(&matches, "SCHEMA");
    let inputs = names_in(alloc, &matches, "IN")?;
    if !are_apart(out, schema, &inputs) {
        return Ok(None);
    }
    let contexts = contexts_in(&matches, inputs.len());
    Ok(Some(Parallel::Write(WriteWords {
        out,
        schema,
        inputs,
        params: write_params(&matches),
        contexts,
    })))
}
