//! Calls below the program, for what no word of it sets or prints.

ghost use Rattle.std.specs.Prelude.{◌≡◌, false, IfSome};

use crate::named::Named;
use crate::points::Points;
use crate::running::{Fails, Ran, host_of};
use nt_book::{Limits, Params};
use nt_draws::Making;
use nt_generate::generate;
use nt_memory::MemHost;
use nt_outside::Host;
use nt_reader::Reader;
use nt_script::{ScriptNames, store_script};
use nt_store::Settings;
use std::alloc::{AllocError, Global};
use std::sync::Wait;
use std::thread::Threads;

/// The parameters of a file, by the most entries of a cluster, and the most bytes of a range and of the file, and clusters.
pub fn params_of(cluster: u32, range: u64, file: u64, clusters: u32) -> Option<Params>
    ensures { IfSome result (λ params. params.staged ≡ false) }
{
    let limits = Limits::new(range, file, clusters)?;
    Params::new(cluster, 4096, 1000, false, false, limits)
}

/// Writes the file `o` of the script `i` behind the schema `s`, and adds how that ended.
pub fn store(
    alloc: Global,
    files: &[Named],
    params: &Params,
    told: &mut Vec<u8>,
) -> Result<Ran, AllocError>
    requires { params.now.staged ≡ false }
{
    let mut host = host_of(alloc, files, Fails::Nothing, 0)?;
    let names = ScriptNames {
        out: "o",
        schema: "s",
        input: "i",
    };
    let stored = store_script(alloc, &mut host, names, params);
    let text = format!(in alloc; " {stored:?}")?;
    told.extend_from_slice(text.as_str().as_bytes())?;
    Ok(Ran {
        code: u8::from(stored.is_err()),
        points: 0,
        host,
    })
}

/// Makes the file `o` of events that are drawn, and adds how that ended.
pub fn make<R: Threads + Wait + Sync>(
    rt: &R,
    alloc: Global,
    making: &Making,
    params: &Params,
    told: &mut Vec<u8>,
) -> Result<Ran, AllocError>
    requires { params.now.staged ≡ false }
{
    let mut host = MemHost::new(alloc);
    let gate = Points::new(&[], 0);
    let settings = Settings {
        alloc,
        params,
        gate: &gate,
        workers: making.contexts,
    };
    let made = generate(rt, &mut host, "o", making, &settings);
    let text = format!(in alloc; " {made:?}")?;
    told.extend_from_slice(text.as_str().as_bytes())?;
    Ok(Ran {
        code: u8::from(made.is_err()),
        points: 0,
        host,
    })
}

/// Adds the index of the first element of each column of a file, where it can be read.
pub fn add_firsts(alloc: Global, file: &[u8], told: &mut Vec<u8>) -> Result<(), AllocError> {
    let mut host = MemHost::new(alloc);
    host.add("o", file)?;
    let Ok(mut opened) = host.open_file("o") else {
        return Ok(());
    };
    let attached = Reader::attach(alloc, &mut opened);
    host.return_file(opened);
    let Ok(reader) = attached else {
        return Ok(());
    };
    let schema = reader.schema();
    for id in 0..schema.columns() {
        let text = format!(in alloc; " {}", schema.column(id).first)?;
        told.extend_from_slice(text.as_str().as_bytes())?;
    }
    Ok(())
}
