//! The words of the command line: which command they say, its names and its numbers, as clap reads them.
//!
//! Start at `command.rt`: `needs_threads` says which kind of command the first word is, `parallel_of` and `alone_of` what the words
//! say. `write.rt`, `seq.rt`, `generate.rt`, `skim.rt` and `merge.rt` have the words of the commands that write a file, `show.rt` those of
//! `entries`, `schema` and `scan`; `options.rt` has the options that `write`, `seq` and `skim` share, and `arguments.rt` what all share:
//! arguments and commands of clap's, and what it finds.
//!
//! Words: what clap *finds* under a name is what its matches have there; it *takes* the words of a command that it doesn't refuse.
//!
//! Proved: words are the command that is answered exactly as clap's definition of simple commands reads them, and None
//! only where the first word is no command, clap refuses the others for another cause than memory, `write` or `merge` has no or too
//! many inputs, the OUT of `write`, `seq`, `skim` or `merge` has the name of what is read, or a bound of `skim` isn't the decimal of a
//! number that a field may have or stands without the name of a field. The numbers of `gen` lie in their ranges (`Making` of
//! nt_draws), and so does the number of contexts that run beside each other (`AreContextsSaid` in `specs/WriteWords.antt`). Clusters
//! are staged exactly where `write` has `--staged` (`AreWriteParams`), and never by another command.
//!
//! A choice that binds nobody else: that there are no inputs, and no names of fields, is looked at once more, though clap refuses that
//! by itself.
#![tactic(auto)]

mod arguments;
mod command;
mod generate;
mod merge;
mod options;
mod seq;
mod show;
mod skim;
mod write;

pub use command::{
    Alone, Parallel, alone_of, needs_threads, parallel_of, wrong_words_are_no_command,
};
pub use generate::GenWords;
pub use merge::MergeWords;
pub use seq::SeqWords;
pub use skim::{SkimWords, TestWords};
pub use write::WriteWords;
