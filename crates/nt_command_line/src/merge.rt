//! The words of `merge`.

ghost use Rattle.std.specs.Prelude.{◌≡◌, List, ℕ, codes, IfOk, MatchBool};
ghost use Rattle.clap.specs.Words.{found_of, rows_of, matches_of as matches_found};
ghost use Rattle.nt_command_line.specs.CommandLine.{texts, Begins};
ghost use Rattle.nt_command_line.specs.MergeWords.{merge_app, merge_rules, CanBeMerged, AreMergeParams};
ghost use Rattle.nt_command_line.specs.Commands.{names_of, SaysAlone};
ghost use Rattle.nt_command_line.specs.Arguments.{IsCommandOf, HasNumber, HasLimits};

use crate::arguments::{
    bare, is_among, matches_of, name_in, names_in, number_in, number_option, operand, operands,
};
use crate::command::Alone;
use crate::options::limits_in;
use clap::ArgMatches;
use nt_book::Params;
use std::alloc::{AllocError, Global};

/// The most files.
const MOST_FILES: usize = 64;

/// The names and numbers of `merge`: a file is written of the clusters of the files of these names, of which there are 1 to 64 and
/// none is `out`.
#[derive(Drop)]
pub struct MergeWords<'a> {
    pub out: &'a str,
    pub files: Vec<&'a str>,
    /// With the cluster, the page and the coding of `write` where no words say these, since pages are copied as they are.
    pub params: Params,
}

/// `merge [--group G] [--max-range B] [--max-file B] OUT FILE...`.
fn merge_command<'a>(alloc: Global) -> Result<clap::Command<'a>, AllocError>
    ensures { IfOk result (IsCommandOf (codes "merge") merge_rules) }
{
    let command = bare(alloc, "merge").arg(number_option(alloc, "group", 1, 10_000))?;
    let command = command.arg(number_option(alloc, "max-range", 1024, 1 << 30))?;
    let command = command.arg(number_option(alloc, "max-file", 1024, 1 << 56))?;
    let command = command.arg(operand(alloc, "OUT"))?;
    command.arg(operands(alloc, "FILE"))
}

/// Whether there are 1 to 64 files, and OUT is none of them.
fn can_be_merged(out: &str, files: &[&str]) -> bool
    ensures { MatchBool result (CanBeMerged out.now (names_of files.now))
        (CanBeMerged out.now (names_of files.now) → ⊥) }
{
    if files.is_empty() || files.len() > MOST_FILES {
        return false;
    }
    !is_among(out, files)
}

/// The parameters that were found, or those that hold where none were.
fn params_in(matches: &ArgMatches<'_>) -> Params
    requires group { HasNumber 1 10000 matches.now (codes "group") }
    requires limits { HasLimits matches.now }
    ensures { (words : List (List ℕ)) → rows_of (found_of matches.now) ≡ matches_found merge_app words → AreMergeParams words result }
{
    let group = number_in(matches, "group").unwrap_or(1000) as u32;
    match Params::new(10_000, 4096, group, false, false, limits_in(matches)) {
        Some(params) => params,
        None => unreachable!(),
    }
}

/// The command of words that begin with `merge`.
pub(crate) fn merge_of<'a>(
    alloc: Global,
    words: &'a [String],
) -> Result<Option<Alone<'a>>, AllocError>
    requires { Begins (texts words.now) (codes "merge") }
    ensures { IfOk result (SaysAlone (texts words.entry.now)) }
{
    let Some(matches) = matches_of(merge_command(alloc)?, words)? else {
        return Ok(None);
    };
    let out = name_in(&matches, "OUT");
    let files = names_in(alloc, &matches, "FILE")?;
    if !can_be_merged(out, &files) {
        return Ok(None);
    }
    Ok(Some(Alone::Merge(MergeWords {
        out,
        files,
        params: params_in(&matches),
    })))
}
