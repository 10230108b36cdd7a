//! The command `gen`: numbers in, one file of events that are made and the lines of its totals out.

ghost use Rattle.std.specs.Prelude.{◌≡◌};
ghost use Rattle.nt_app.specs.Gens.{status_of_generate, AreDefaults, GenNamed};

use crate::status::Status;
use nt_book::{Limits, Params};
use nt_command_line::GenWords;
use nt_generate::{GenerateError, generate};
use nt_outside::{Disk, Gate, Host};
use nt_store::Settings;
use std::alloc::Global;
use std::sync::Wait;
use std::thread::Threads;

/// The answer of a file that was made, or of what came in place of that.
fn status_of_generate(made: Result<(), GenerateError>) -> Status
    ensures { result ≡ status_of_generate made }
{
    match made {
        Ok(()) => Status::Done,
        Err(GenerateError::Outside) => Status::Outside,
        Err(GenerateError::Memory) => Status::Memory,
        Err(GenerateError::Limit { reached, limit }) => Status::Limit { reached, limit },
        Err(GenerateError::Defect(fault)) => Status::File(fault),
    }
}

/// The parameters of a file where no words say them.
fn default_params() -> Params
    ensures { AreDefaults result }
{
    let Some(limits) = Limits::new(1 << 30, 1 << 40, u32::MAX) else {
        unreachable!()
    };
    match Params::new(10_000, 4096, 1000, false, false, limits) {
        Some(params) => params,
        None => unreachable!(),
    }
}

/// The whole command `gen`.
pub(crate) fn make<R, H, G>(
    rt: &R,
    alloc: Global,
    host: &mut H,
    words: &GenWords<'_>,
    gate: &G,
) -> Status
where
    R: Threads + Wait + Sync,
    H: Host,
    H::Out: Send,
    <H::Out as Disk>::Pen: Send,
    <H::Out as Disk>::Ext: Send,
    G: Gate + Sync,
    ensures { GenNamed words.now.out.now words.now.making (H.state host.old) (H.state host.new) result }
{
    let params = default_params();
    let settings = Settings {
        alloc,
        params: &params,
        gate,
        workers: words.making.contexts,
    };
    let made = generate(rt, host, words.out, &words.making, &settings);
    status_of_generate(made)
}
