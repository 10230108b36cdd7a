//! A file of events that are made, from its name to the lines of its totals.

ghost use Rattle.std.specs.Prelude.{◌<◌, ◌≤◌};
ghost use Rattle.nt_generate.specs.Leaving.{MakesFile};
ghost use Rattle.nt_generate.specs.Generated.{Generates};

use crate::error::GenerateError;
use crate::made::{event_fields, event_sources};
use crate::telling::print_totals;
use crate::writing::write_made;
use nt_draws::Making;
use nt_outside::{Disk, Gate, Host};
use nt_store::Settings;
use std::sync::Wait;
use std::thread::Threads;

/// Makes the disk of this name, writes the file of events that are made on it, and gives it back.
fn make_file<R, H, G>(
    rt: &R,
    host: &mut H,
    name: &str,
    making: &Making,
    settings: &Settings<'_, G>,
) -> Result<Vec<u32>, GenerateError>
where
    R: Threads + Wait + Sync,
    H: Host,
    H::Out: Send,
    <H::Out as Disk>::Pen: Send,
    <H::Out as Disk>::Ext: Send,
    G: Gate + Sync,
    requires workers { (0 < settings.now.workers) × (settings.now.workers ≤ 64) }
    ensures { MakesFile (λ order. order.items) name.now settings.now.params.now making.now (H.state host.old) (H.state host.new) result }
{
    let alloc = settings.alloc;
    let fields = event_fields(alloc)?;
    let sources = event_sources(alloc, making)?;
    match host.create(name) {
        Ok(disk) => {
            let (disk, written) = write_made(rt, disk, &fields, making, sources, settings);
            host.return_disk(disk);
            written
        }
        Err(refused) => Err(GenerateError::from(refused)),
    }
}

/// Makes the disk of this name, writes the file of events that are made, a context for each text beside the others, and gives the disk
/// back; then reads the file, and prints for each context how many clusters and entries were read, and the sum of their runs and ids.
///
/// # Errors
///
/// `Limit` is a limit that the file would pass; after it the file can't pass for finished. `Outside` comes only where the host's count
/// rose. `Defect` never comes of a host that tells its bytes.
pub fn generate<R, H, G>(
    rt: &R,
    host: &mut H,
    name: &str,
    making: &Making,
    settings: &Settings<'_, G>,
) -> Result<(), GenerateError>
where
    R: Threads + Wait + Sync,
    H: Host,
    H::Out: Send,
    <H::Out as Disk>::Pen: Send,
    <H::Out as Disk>::Ext: Send,
    G: Gate + Sync,
    requires workers { (0 < settings.now.workers) × (settings.now.workers ≤ 64) }
    ensures { Generates name.now settings.now.params.now making.now (H.state host.old) (H.state host.new) result }
{
    let order = make_file(rt, host, name, making, settings)?;
    print_totals(settings.alloc, host, name, &order, making.contexts)
}
