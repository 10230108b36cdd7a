//! Arguments and commands of clap's, and what it finds in words.

ghost use Rattle.std.specs.Prelude.{◌≡◌, ℕ, true, List, [], Some, option_map, unwrap_or, IfOk, IfSome};
ghost use Rattle.clap.specs.Words.{app_of, is_simple_and_free, first_value, found_of, matched_of, raw_values, IsParsedFrom};
ghost use Rattle.nt_command_line.specs.CommandLine.{texts, operand, operands, number_operand, number_option, flag, is_true_word, is_among};
ghost use Rattle.nt_command_line.specs.Commands.{names_of};
ghost use Rattle.nt_command_line.specs.Arguments.{IsArg, IsCommandOf, HasMatch, HasNumber, IsNumberThere, IsNumberFound, ReadsWords};

use clap::builder::ValueParser;
use clap::error::ErrorKind;
use clap::{Arg, ArgAction, ArgMatches, Command};
use std::alloc::{AllocError, Global};

/// An argument that is read by its place, and has to be there.
pub(crate) fn operand<'a>(alloc: Global, id: &'a str) -> Arg<'a>
    ensures { IsArg (operand id.entry.now) result }
{
    Arg::new(alloc, id).required(true).action(ArgAction::Set)
}

/// The same of one value or more.
pub(crate) fn operands<'a>(alloc: Global, id: &'a str) -> Arg<'a>
    ensures { IsArg (operands id.entry.now) result }
{
    Arg::new(alloc, id)
        .required(true)
        .num_args(1..)
        .action(ArgAction::Append)
}

/// An argument that is read by its place, has to be there, and is a number from one to another.
pub(crate) fn number_operand<'a>(alloc: Global, id: &'a str, low: u64, high: u64) -> Arg<'a>
    ensures { IsArg (number_operand id.entry.now low high) result }
{
    operand(alloc, id).value_parser(ValueParser::unsigned(low, high))
}

/// An option whose value is a number from one to another.
pub(crate) fn number_option<'a>(alloc: Global, id: &'a str, low: u64, high: u64) -> Arg<'a>
    ensures { IsArg (number_option id.entry.now low high) result }
{
    Arg::new(alloc, id)
        .long(id)
        .action(ArgAction::Set)
        .value_parser(ValueParser::unsigned(low, high))
}

/// An option without a value.
pub(crate) fn flag<'a>(alloc: Global, id: &'a str) -> Arg<'a>
    ensures { IsArg (flag id.entry.now) result }
{
    Arg::new(alloc, id).long(id).action(ArgAction::SetTrue)
}

/// A command without arguments, and without flags of its own.
pub(crate) fn bare<'a>(alloc: Global, name: &'a str) -> Command<'a>
    ensures { IsCommandOf name.entry.now [] result }
{
    Command::new(alloc, name)
        .disable_help_flag(true)
        .disable_version_flag(true)
}

/// What clap finds in the words; nothing where it refuses them.
pub(crate) fn matches_of<'a>(
    command: Command<'a>,
    words: &'a [String],
) -> Result<Option<ArgMatches<'a>>, AllocError>
    requires simple { is_simple_and_free (app_of command) ≡ true }
    ensures reads { IfOk result (ReadsWords (app_of command.entry) (texts words.entry.now)) }
    ensures parsed { IfOk result (λ found. IfSome found (IsParsedFrom command.entry)) }
{
    match command.try_get_matches_from(words) {
        Ok(matches) => Ok(Some(matches)),
        Err(error) => {
            if error.kind() == ErrorKind::OutOfMemory {
                Err(AllocError)
            } else {
                Ok(None)
            }
        }
    }
}

/// What was found under a name.
pub(crate) fn name_in<'a>(matches: &ArgMatches<'a>, id: &str) -> &'a str
    requires { HasMatch matches.now id.now }
    ensures { first_value (found_of matches.now) id.now ≡ Some result.now }
{
    match matches.get_str(id) {
        Some(name) => name,
        None => unreachable!(),
    }
}

/// All that was found under a name.
pub(crate) fn names_in<'a>(
    alloc: Global,
    matches: &ArgMatches<'a>,
    id: &str,
) -> Result<Vec<&'a str>, AllocError>
    ensures { IfOk result (λ names. names_of names.items
        ≡ unwrap_or (option_map raw_values (matched_of (found_of matches.now) id.now)) []) }
{
    match matches.get_strs(id) {
        Some(names) => names.iter().copied().collect(alloc),
        None => Ok(Vec::new(alloc)),
    }
}

/// The number that was found under the name of an option, if one was.
pub(crate) fn number_in(matches: &ArgMatches<'_>, id: &str) -> Option<u64>
    ensures { (low high : ℕ) → HasNumber low high matches.now id.now
        → IsNumberFound low high (first_value (found_of matches.now) id.now) result }
{
    matches.get_one::<u64>(id)
}

/// The number that was found under the name of an operand.
pub(crate) fn operand_number(matches: &ArgMatches<'_>, id: &str) -> u64
    requires { IsNumberThere matches.now id.now }
    ensures { (low high : ℕ) → HasNumber low high matches.now id.now
        → IsNumberFound low high (first_value (found_of matches.now) id.now) (Some result) }
{
    match number_in(matches, id) {
        Some(number) => number,
        None => unreachable!(),
    }
}

/// Whether a name is one of these.
pub(crate) fn is_among(name: &str, names: &[&str]) -> bool
    ensures { result ≡ is_among name.now (names_of names.now) }
{
    names.contains(&name)
}

/// Whether a flag was found.
pub(crate) fn flag_in(matches: &ArgMatches<'_>, id: &str) -> bool
    ensures { result ≡ is_true_word (first_value (found_of matches.now) id.now) }
{
    match matches.get_str(id) {
        Some(word) => word == "true",
        None => false,
    }
}
