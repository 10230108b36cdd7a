//! The command that words say.

ghost use Rattle.std.specs.Prelude.{ℕ, List, ◌≡◌, true, false, IfOk};
ghost use Rattle.nt_command_line.specs.CommandLine.{texts};
ghost use Rattle.nt_command_line.specs.Commands.{NeedsThreads, SaysParallel, SaysAlone, IsNoCommand, IsWrong};

use crate::generate::{GenWords, gen_of};
use crate::merge::{MergeWords, merge_of};
use crate::seq::{SeqWords, seq_of};
use crate::show::{entries_of, scan_of, schema_of};
use crate::skim::{SkimWords, skim_of};
use crate::write::{WriteWords, write_of};
use std::alloc::{AllocError, Global};

/// A command that starts threads, by the names and numbers that its words give.
#[derive(Drop)]
pub enum Parallel<'a> {
    Write(WriteWords<'a>),
    Gen(GenWords<'a>),
    Scan { file: &'a str },
}

/// A command that waits for nobody, by the names and numbers that its words give.
#[derive(Drop)]
pub enum Alone<'a> {
    Seq(SeqWords<'a>),
    Skim(SkimWords<'a>),
    Merge(MergeWords<'a>),
    /// The entries from `from` on, and at most `count` of them, where the words say so.
    Entries {
        from: Option<u64>,
        count: Option<u64>,
        file: &'a str,
    },
    Schema {
        file: &'a str,
    },
}

/// Whether the first word is that of a command that starts threads.
pub fn needs_threads(words: &[String]) -> bool
    ensures yes { result ≡ true → NeedsThreads (texts words.now) }
    ensures no { result ≡ false → NeedsThreads (texts words.now) → ⊥ }
{
    match words {
        [first, ..] if first.as_str() == "write" => true,
        [first, ..] if first.as_str() == "gen" => true,
        [first, ..] if first.as_str() == "scan" => true,
        _ => false,
    }
}

/// The command of these words, the first of which is that of a command that starts threads; None where they are wrong.
pub fn parallel_of<'a>(
    alloc: Global,
    words: &'a [String],
) -> Result<Option<Parallel<'a>>, AllocError>
    requires { NeedsThreads (texts words.now) }
    ensures { IfOk result (SaysParallel (texts words.entry.now)) }
{
    match words {
        [first, ..] if first.as_str() == "write" => write_of(alloc, words),
        [first, ..] if first.as_str() == "gen" => gen_of(alloc, words),
        _ => scan_of(alloc, words),
    }
}

/// The command of these words, the first of which is that of no command that starts threads; None where they are wrong.
pub fn alone_of<'a>(alloc: Global, words: &'a [String]) -> Result<Option<Alone<'a>>, AllocError>
    requires { NeedsThreads (texts words.now) → ⊥ }
    ensures { IfOk result (SaysAlone (texts words.entry.now)) }
{
    match words {
        [first, ..] if first.as_str() == "seq" => seq_of(alloc, words),
        [first, ..] if first.as_str() == "entries" => entries_of(alloc, words),
        [first, ..] if first.as_str() == "schema" => schema_of(alloc, words),
        [first, ..] if first.as_str() == "skim" => skim_of(alloc, words),
        [first, ..] if first.as_str() == "merge" => merge_of(alloc, words),
        _ => Ok(None),
    }
}

/// Words that are wrong are no command.
pub fn wrong_words_are_no_command()
    ensures { (words : List (List ℕ)) → IsWrong words → IsNoCommand words }
{}
