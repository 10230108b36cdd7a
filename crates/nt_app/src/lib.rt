//! The commands of the program over any host: `write` makes an RNTuple file of a schema text and event texts, `seq` of a schema
//! text and a script that adds fields between its events, `gen` of events that it makes, `skim` of chosen fields of chosen entries of
//! any file, `merge` of the clusters of files as they are stored; `entries` prints the entries of any file, `schema` its fields, and
//! `scan` the totals of its numbers. All that is promised of the program is said of the one call `run`.
//!
//! Start at `program.rt`: `run`, and `run_alone` of those commands that wait for nobody. `write.rt`, `seq.rt`, `generate.rt`,
//! `skim.rt`, `merge.rt`, `show.rt` and `scan.rt` are the commands, `status.rt` and `message.rt` the answers and their lines. The words are read by
//! nt_command_line, a file is written by nt_store, nt_script, nt_generate, nt_skim_file and nt_merge_files, what is read of one is shown by nt_show, and
//! totalled by nt_scan.
//!
//! Words: `run` *reports* an answer where it prints its line on err; a status is *an answer to* words that may be answered so
//! (`specs/Runs.antt`).
//!
//! Proved: all that `docs/PROOFS.md` lists of the program, as clauses of `run`. Tested, over memory in test_trials: whole files, each
//! answer with its line, and each call of the outside failing in turn.
#![tactic(auto)]

mod generate;
mod merge;
mod message;
mod program;
mod scan;
mod seq;
mod show;
mod skim;
mod status;
mod write;

pub use program::{run, run_alone};
pub use status::{SchemaPlace, Status, TextFault};
