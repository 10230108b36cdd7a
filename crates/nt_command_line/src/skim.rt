//! The words of `skim`.

ghost use Rattle.std.specs.Prelude.{◌≡◌, ℤ, Option, Some, None, codes, option_map, IfOk, IfSome, MatchBool};
ghost use Rattle.clap.specs.Words.{found_of, first_value};
ghost use Rattle.nt_command_line.specs.CommandLine.{texts, Begins};
ghost use Rattle.nt_command_line.specs.SkimWords.{skim_rules, text_option, IsBound, IsBoundSaid, SaidTest, said_test};
ghost use Rattle.nt_command_line.specs.SkimWords.{IsTestSaid, CanBeSkimmed};
ghost use Rattle.nt_command_line.specs.Commands.{names_of, SaysAlone};
ghost use Rattle.nt_command_line.specs.Arguments.{IsArg, IsCommandOf};

use crate::arguments::{is_among, matches_of, name_in, names_in, operand, operands};
use crate::command::Alone;
use crate::options::{params_in, with_options};
use clap::{Arg, ArgAction, ArgMatches};
use itoa::Buffer;
use nt_book::Params;
use std::alloc::{AllocError, Global};

/// The least number that a field may have, -2^63.
const LEAST: i128 = -9_223_372_036_854_775_808;

/// The greatest one, 2^64 - 1.
const GREATEST: i128 = 18_446_744_073_709_551_615;

/// The test of `skim`: the number in the field of this name lies from the least to the greatest, these included.
#[derive(Clone, Copy)]
pub struct TestWords<'a> {
    pub name: &'a str,
    pub least: i128,
    pub greatest: i128,
}

/// The names and numbers of `skim`: the fields of these names, at least one, are written of the entries of `file` that pass the test,
/// if there is one. `out` is another name than `file`.
#[derive(Drop)]
pub struct SkimWords<'a> {
    pub out: &'a str,
    pub file: &'a str,
    pub names: Vec<&'a str>,
    pub test: Option<TestWords<'a>>,
    pub params: Params,
}

/// An option whose value is any text.
fn text_option<'a>(alloc: Global, id: &'a str) -> Arg<'a>
    ensures { IsArg (text_option id.entry.now) result }
{
    Arg::new(alloc, id).long(id).action(ArgAction::Set)
}

/// `skim`, the options of `write`, and `[--where NAME] [--least A] [--greatest B] OUT FILE NAME...`.
fn skim_command<'a>(alloc: Global) -> Result<clap::Command<'a>, AllocError>
    ensures { IfOk result (IsCommandOf (codes "skim") skim_rules) }
{
    let command = with_options(alloc, "skim")?.arg(text_option(alloc, "where"))?;
    let command = command.arg(text_option(alloc, "least"))?;
    let command = command.arg(text_option(alloc, "greatest"))?;
    let command = command.arg(operand(alloc, "OUT"))?;
    let command = command.arg(operand(alloc, "FILE"))?;
    command.arg(operands(alloc, "NAME"))
}

/// Whether a word is the decimal of a number, and a field may have that.
fn is_bound(word: &str, number: i128) -> bool
    ensures { MatchBool result (IsBound word.now number) (IsBound word.now number → ⊥) }
{
    let mut digits = Buffer::new();
    if digits.format(number) != word {
        return false;
    }
    LEAST <= number && number <= GREATEST
}

/// The number of which a word is the decimal, if a field may have it.
fn bound_of(word: &str) -> Option<i128>
    ensures some { IfSome result (IsBound word.now) }
    ensures none { result ≡ None → (z : ℤ) → IsBound word.now z → ⊥ }
{
    let Ok(number) = word.parse::<i128>() else {
        return None;
    };
    if !is_bound(word, number) {
        return None;
    }
    Some(number)
}

/// The bound that is found under a name, or another where none is; None where what is found is none.
fn bound_in(matches: &ArgMatches<'_>, id: &str, other: i128) -> Option<i128>
    ensures some { IfSome result (IsBoundSaid (first_value (found_of matches.now) id.now) other) }
    ensures none { result ≡ None → (z : ℤ) → IsBoundSaid (first_value (found_of matches.now) id.now) other z → ⊥ }
{
    match matches.get_str(id) {
        Some(word) => bound_of(word),
        None => Some(other),
    }
}

/// The test of a field of this name; None where a bound that is found is none.
fn test_of<'a>(matches: &ArgMatches<'a>, name: &'a str) -> Option<TestWords<'a>>
    ensures some { IfSome result (λ t. IsTestSaid (Some name.entry.now) (first_value (found_of matches.now) (codes "least"))
        (first_value (found_of matches.now) (codes "greatest")) (Some (said_test t))) }
    ensures none { result ≡ None → (t : Option SaidTest) → IsTestSaid (Some name.entry.now)
        (first_value (found_of matches.now) (codes "least")) (first_value (found_of matches.now) (codes "greatest")) t → ⊥ }
{
    let least = bound_in(matches, "least", LEAST)?;
    let greatest = bound_in(matches, "greatest", GREATEST)?;
    Some(TestWords {
        name,
        least,
        greatest,
    })
}

/// The test that is found, if there is one; None where a bound that is found is none, or stands without the name of a field.
fn test_in<'a>(matches: &ArgMatches<'a>) -> Option<Option<TestWords<'a>>>
    ensures some { IfSome result (λ t. IsTestSaid (first_value (found_of matches.now) (codes "where"))
        (first_value (found_of matches.now) (codes "least")) (first_value (found_of matches.now) (codes "greatest"))
        (option_map said_test t)) }
    ensures none { result ≡ None → (t : Option SaidTest) → IsTestSaid (first_value (found_of matches.now) (codes "where"))
        (first_value (found_of matches.now) (codes "least")) (first_value (found_of matches.now) (codes "greatest")) t → ⊥ }
{
    match matches.get_str("where") {
        Some(name) => match test_of(matches, name) {
            Some(test) => Some(Some(test)),
            None => None,
        },
        None => match (matches.get_str("least"), matches.get_str("greatest")) {
            (None, None) => Some(None),
            _ => None,
        },
    }
}

/// Whether a field is named, and OUT isn't the file that is read.
fn can_be_skimmed(out: &str, file: &str, names: &[&str]) -> bool
    ensures { MatchBool result (CanBeSkimmed out.now file.now (names_of names.now))
        (CanBeSkimmed out.now file.now (names_of names.now) → ⊥) }
{
    if names.is_empty() {
        return false;
    }
    !is_among(out, &[file])
}

/// The command of words that begin with `skim`.
pub(crate) fn skim_of<'a>(
    alloc: Global,
    words: &'a [String],
) -> Result<Option<Alone<'a>>, AllocError>
    requires { Begins (texts words.now) (codes "skim") }
    ensures { IfOk result (SaysAlone (texts words.entry.now)) }
{
    let Some(matches) = matches_of(skim_command(alloc)?, words)? else {
        return Ok(None);
    };
    let Some(test) = test_in(&matches) else {
        return Ok(None);
    };
    let out = name_in(&matches, "OUT");
    let file = name_in(&matches, "FILE");
    let names = names_in(alloc, &matches, "NAME")?;
    if !can_be_skimmed(out, file, &names) {
        return Ok(None);
    }
    Ok(Some(Alone::Skim(SkimWords {
        out,
        file,
        names,
        test,
        params: params_in(&matches, false),
    })))
}
