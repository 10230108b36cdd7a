//! The program `ntuple`: the commands over the files and streams of the system.
//!
//! Start at `main`, which makes the host of nt_system, calls `run` of nt_app and ends with the code of its answer.
//!
//! Proved: nothing of its own but that a failure to take the words is answered as want of memory; what `run` does is said in nt_app.
//! Only tested: the built program, by `.ci/checks/program.sh`.
//!
//! A choice that binds nobody else: one large block is taken and given back at once, before anything else. The C library learns from it
//! to keep freed memory for the next cluster, which would else be asked of the system again, page by page.
#![tactic(auto)]

ghost use Rattle.std.specs.Prelude.{◌≡◌};
ghost use Rattle.nt_app.specs.declared.status.Status.TheVariants.{Memory};

use nt_app::{Status, run};
use nt_outside::{Host, NoGate, Stream, print_all};
use nt_system::RealHost;
use std::alloc::AllocError;
use std::env;
use std::io::ErrorKind;
use std::process::ExitCode;

/// The bytes of the largest block that is given back.
const KEPT: usize = 16 << 20;

/// The words after the program's name. Where one isn't UTF-8 there are none, which are no command either.
fn words_of(rt: &HostRuntime) -> Result<Vec<String>, AllocError> {
    match env::args(rt) {
        Ok(args) => args.skip(1).collect(rt.alloc()),
        Err(error) if error.kind() == ErrorKind::OutOfMemory => Err(AllocError),
        Err(_) => Ok(Vec::new(rt.alloc())),
    }
}

/// Says that memory ran out before the words could be read.
fn without_words<H: Host>(host: &mut H) -> Status
    ensures { result ≡ Memory }
{
    let _ = print_all(host, Stream::ToErr, b"ntuple: memory\n");
    Status::Memory
}

/// Has the C library keep the memory that one cluster took for the next: it gives back to the system only what is more than twice the
/// largest block that it once gave back whole. The block is never written, so it takes no pages.
fn keep_memory(rt: &HostRuntime) {
    let _block: Result<Vec<u8>, AllocError> = Vec::with_capacity(rt.alloc(), KEPT);
}

fn main(rt: HostRuntime) -> ExitCode {
    keep_memory(&rt);
    let mut host = RealHost::new(rt);
    let status = match words_of(&rt) {
        Ok(words) => run(&rt, rt.alloc(), words, &mut host, &NoGate),
        Err(_) => without_words(&mut host),
    };
    ExitCode::from(status.code())
}
