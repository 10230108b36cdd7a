//! The top calls.

ghost use Rattle.std.specs.Prelude.{◌≡◌, None, IfSome};
ghost use Rattle.nt_command_line.specs.CommandLine.{texts};
ghost use Rattle.nt_app.specs.Statuses.{message_of, message_end, name_line};
ghost use Rattle.nt_app.specs.Reports.{Reports};
ghost use Rattle.nt_command_line.specs.Commands.{NeedsThreads};
ghost use Rattle.nt_app.specs.Runs.{Obeys, Runs};

use crate::generate::make;
use crate::merge::merge;
use crate::message::message_front;
use crate::scan::scan;
use crate::seq::seq;
use crate::show::{entries, schema};
use crate::skim::skim;
use crate::status::Status;
use crate::write::write;
use nt_command_line::{Alone, Parallel, alone_of, needs_threads, parallel_of};
use nt_outside::{Disk, Gate, Host, Stream, print_all};
use nt_show::EntryRange;
use std::alloc::Global;
use std::sync::Wait;
use std::thread::Threads;

/// Prints a name at the end of a line on err.
fn report_name<H: Host>(host: &mut H, name: &[u8])
    ensures { Reports (name_line name.now) (H.state host.old) (H.state host.new) }
{
    match print_all(host, Stream::ToErr, name) {
        Ok(()) => {
            let _ = print_all(host, Stream::ToErr, b"\n");
        }
        Err(_) => {}
    }
}

/// Prints the name that ends the message of an answer, if one does.
fn report_end<H: Host>(host: &mut H, status: &Status)
    ensures { Reports (message_end status.now) (H.state host.old) (H.state host.new) }
{
    if let Status::Schema { place } = status {
        if let Some(name) = place.name() {
            report_name(host, name);
        }
    }
}

/// Prints the message of an answer on err, as far as err takes it. A failure there changes nothing else.
fn report<H: Host>(host: &mut H, status: &Status)
    ensures { Reports (message_of status.now) (H.state host.old) (H.state host.new) }
{
    let front = message_front(status);
    match print_all(host, Stream::ToErr, front.as_str().as_bytes()) {
        Ok(()) => report_end(host, status),
        Err(_) => {}
    }
}

/// Does what words say whose command waits for nobody.
fn do_alone<H: Host>(alloc: Global, words: &[String], host: &mut H) -> Status
    requires { NeedsThreads (texts words.now) → ⊥ }
    ensures { Obeys (texts words.entry.now) (H.state host.old) (H.state host.new) result }
{
    let Ok(command) = alone_of(alloc, words) else {
        return Status::Memory;
    };
    let Some(command) = command else {
        return Status::Usage;
    };
    match command {
        Alone::Seq(said) => seq(alloc, host, &said),
        Alone::Skim(said) => skim(alloc, host, &said),
        Alone::Merge(said) => merge(alloc, host, &said),
        Alone::Entries { from, count, file } => {
            let from = from.unwrap_or(0);
            entries(alloc, host, EntryRange { from, count }, file)
        }
        Alone::Schema { file } => schema(alloc, host, file),
    }
}

/// Does what words say whose command starts threads.
fn do_in_parallel<R, H, G>(
    rt: &R,
    alloc: Global,
    words: &[String],
    host: &mut H,
    gate: &G,
) -> Status
where
    R: Threads + Wait + Sync,
    H: Host,
    H::Text: Send,
    H::Out: Send,
    <H::Out as Disk>::Pen: Send,
    <H::Out as Disk>::Ext: Send,
    G: Gate + Sync,
    requires { NeedsThreads (texts words.now) }
    ensures { Obeys (texts words.entry.now) (H.state host.old) (H.state host.new) result }
{
    let Ok(command) = parallel_of(alloc, words) else {
        return Status::Memory;
    };
    let Some(command) = command else {
        return Status::Usage;
    };
    match command {
        Parallel::Write(said) => write(rt, alloc, host, &said, gate),
        Parallel::Gen(said) => make(rt, alloc, host, &said, gate),
        Parallel::Scan { file } => scan(rt, alloc, host, file),
    }
}

/// Does what the words after the program's name say, as `run` does, where that waits for nobody: all but words that begin with
/// `write`, `gen` or `scan`. Of these nothing is done.
pub fn run_alone<H: Host>(alloc: Global, words: &[String], host: &mut H) -> Option<Status>
    ensures some { IfSome result (Runs (texts words.now) (H.state host.old) (H.state host.new)) }
    ensures none { result ≡ None → NeedsThreads (texts words.now) × (H.state host.new ≡ H.state host.old) }
    ensures only { NeedsThreads (texts words.now) → result ≡ None }
{
    if needs_threads(words) {
        return None;
    }
    let status = do_alone(alloc, words, host);
    report(host, &status);
    Some(status)
}

/// Does what the words after the program's name say, over a host, and answers how that ended.
///
/// Commands are `write` and `seq` with `[--cluster N] [--page P] [--group G] [--plain] [--max-range B] [--max-file B] OUT SCHEMA IN`,
/// for `write` of 1 to 64 inputs and with `[--staged] [--contexts K]`, where OUT is another name than those that are read,
/// `gen C E SEED OUT`,
/// `skim [--where NAME] [--least A] [--greatest B] OUT FILE NAME...` with the options of `seq`, where OUT is another name than FILE,
/// `merge [--group G] [--max-range B] [--max-file B] OUT FILE...` of 1 to 64 files, where OUT is none of these names,
/// `entries [--from A] [--count C] FILE`, `schema FILE` and `scan FILE`; clap reads the words after the first.
/// `rt` is the runtime of `write`, which has a context for each input and K workers that run them, of `gen`, and of `scan`; `gate` is told the
/// steps of each context's clusters.
pub fn run<R, H, G>(rt: &R, alloc: Global, words: Vec<String>, host: &mut H, gate: &G) -> Status
where
    R: Threads + Wait + Sync,
    H: Host,
    H::Text: Send,
    H::Out: Send,
    <H::Out as Disk>::Pen: Send,
    <H::Out as Disk>::Ext: Send,
    G: Gate + Sync,
    ensures { Runs (texts words.items) (H.state host.old) (H.state host.new) result }
{
    match run_alone(alloc, &words, host) {
        Some(status) => status,
        None => {
            let status = do_in_parallel(rt, alloc, &words, host, gate);
            report(host, &status);
            status
        }
    }
}
