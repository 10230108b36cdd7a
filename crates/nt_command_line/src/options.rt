//! The options of a command that writes a file.

ghost use Rattle.std.specs.Prelude.{◌≡◌, List, ℕ, IfOk};
ghost use Rattle.clap.specs.Words.{App, found_of, rows_of, matches_of as matches_found};
ghost use Rattle.nt_command_line.specs.Options.{options, AreLimitsSaid, AreParamsSaid};
ghost use Rattle.nt_command_line.specs.Arguments.{IsCommandOf, HasLimits, HasNumbers};

use crate::arguments::{bare, flag, flag_in, number_in, number_option};
use clap::ArgMatches;
use nt_book::{Limits, Params};
use std::alloc::{AllocError, Global};

/// A command with `[--cluster N] [--page P] [--group G] [--plain] [--max-range B] [--max-file B]`.
pub(crate) fn with_options<'a>(
    alloc: Global,
    name: &'a str,
) -> Result<clap::Command<'a>, AllocError>
    ensures { IfOk result (IsCommandOf name.entry.now options) }
{
    let command = bare(alloc, name).arg(number_option(alloc, "cluster", 1, 1_000_000))?;
    let command = command.arg(number_option(alloc, "page", 1, 1_048_576))?;
    let command = command.arg(number_option(alloc, "group", 1, 10_000))?;
    let command = command.arg(flag(alloc, "plain"))?;
    let command = command.arg(number_option(alloc, "max-range", 1024, 1 << 30))?;
    command.arg(number_option(alloc, "max-file", 1024, 1 << 56))
}

/// The limits that were found, or those that hold where none were.
pub(crate) fn limits_in(matches: &ArgMatches<'_>) -> Limits
    requires { HasLimits matches.now }
    ensures { (a : App) (words : List (List ℕ)) → rows_of (found_of matches.now) ≡ matches_found a words → AreLimitsSaid a words result }
{
    let range = number_in(matches, "max-range").unwrap_or(1 << 30);
    let file = number_in(matches, "max-file").unwrap_or(1 << 40);
    match Limits::new(range, file, u32::MAX) {
        Some(limits) => limits,
        None => unreachable!(),
    }
}

/// The parameters that were found, or those that hold where none were; clusters are staged where the command says so.
pub(crate) fn params_in(matches: &ArgMatches<'_>, staged: bool) -> Params
    requires { HasNumbers matches.now }
    ensures { (a : App) (words : List (List ℕ)) → rows_of (found_of matches.now) ≡ matches_found a words
        → AreParamsSaid a words staged result }
{
    let cluster = number_in(matches, "cluster").unwrap_or(10_000) as u32;
    let page = number_in(matches, "page").unwrap_or(4096) as u32;
    let group = number_in(matches, "group").unwrap_or(1000) as u32;
    let plain = flag_in(matches, "plain");
    match Params::new(cluster, page, group, plain, staged, limits_in(matches)) {
        Some(params) => params,
        None => unreachable!(),
    }
}
