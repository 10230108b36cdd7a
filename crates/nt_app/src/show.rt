//! The commands `entries` and `schema`: a file in, lines of what is read of it out.

ghost use Rattle.std.specs.Prelude.{◌≡◌};
ghost use Rattle.nt_show.specs.Shown.{entries_shown, fields_shown};
ghost use Rattle.nt_app.specs.Shows.{status_of_refusal, status_of_shown, ShowsNamed};

use crate::status::Status;
use nt_outside::{Host, Refused};
use nt_show::{EntryRange, show_entries, show_fields};
use nt_tfile::ReadFailure;
use std::alloc::Global;

/// The answer of a refusal.
pub(crate) fn status_of_refusal(refused: Refused) -> Status
    ensures { result ≡ status_of_refusal refused }
{
    match refused {
        Refused::Failed => Status::Outside,
        Refused::Memory => Status::Memory,
    }
}

/// The answer of a file that was shown, or of what came in place of that.
fn status_of_shown(shown: Result<(), ReadFailure>) -> Status
    ensures { result ≡ status_of_shown shown }
{
    match shown {
        Ok(()) => Status::Done,
        Err(ReadFailure::Defect(fault)) => Status::File(fault),
        Err(ReadFailure::Fault) => Status::Outside,
        Err(ReadFailure::Memory) => Status::Memory,
    }
}

/// The whole command `entries`.
pub fn entries<H: Host>(alloc: Global, host: &mut H, range: EntryRange, name: &str) -> Status
    ensures { ShowsNamed (entries_shown range) name.now (H.state host.old) (H.state host.new) result }
{
    match host.open_file(name) {
        Ok(file) => {
            let mut file = file;
            let shown = show_entries(alloc, host, &mut file, range);
            host.return_file(file);
            status_of_shown(shown)
        }
        Err(refused) => status_of_refusal(refused),
    }
}

/// The whole command `schema`.
pub fn schema<H: Host>(alloc: Global, host: &mut H, name: &str) -> Status
    ensures { ShowsNamed fields_shown name.now (H.state host.old) (H.state host.new) result }
{
    match host.open_file(name) {
        Ok(file) => {
            let mut file = file;
            let shown = show_fields(alloc, host, &mut file);
            host.return_file(file);
            status_of_shown(shown)
        }
        Err(refused) => status_of_refusal(refused),
    }
}
