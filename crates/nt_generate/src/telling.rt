//! A file that is read back, and its totals.

ghost use Rattle.nt_generate.specs.Leaving.{ReadsTotals, TellsTotals};

use crate::error::GenerateError;
use crate::lines::total_lines;
use crate::reading::tell_totals;
use crate::total::Total;
use nt_outside::{Host, Stream, print_all};
use std::alloc::Global;

/// Opens the file of this name, reads it whole, and gives it back: the totals of its contexts, by the order of the commits.
fn read_totals<H: Host>(
    alloc: Global,
    host: &mut H,
    name: &str,
    order: &[u32],
    contexts: u32,
) -> Result<Vec<Total>, GenerateError>
    ensures { ReadsTotals (λ totals. totals.items) name.now contexts order.now (H.state host.old) (H.state host.new) result }
{
    match host.open_file(name) {
        Ok(file) => {
            let mut file = file;
            let totals = tell_totals(alloc, &mut file, order, contexts);
            host.return_file(file);
            match totals {
                Ok(totals) => Ok(totals),
                Err(failure) => Err(GenerateError::from(failure)),
            }
        }
        Err(refused) => Err(GenerateError::from(refused)),
    }
}

/// Reads the file of this name, and prints the lines of the totals of its contexts.
pub(crate) fn print_totals<H: Host>(
    alloc: Global,
    host: &mut H,
    name: &str,
    order: &[u32],
    contexts: u32,
) -> Result<(), GenerateError>
    ensures { TellsTotals name.now contexts order.now (H.state host.old) (H.state host.new) result }
{
    let totals = read_totals(alloc, host, name, order, contexts)?;
    let lines = total_lines(alloc, &totals)?;
    print_all(host, Stream::ToOut, &lines)?;
    Ok(())
}
