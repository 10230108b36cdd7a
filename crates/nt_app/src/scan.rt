//! The command `scan`: a file in, a line with the totals of each of its number leaves out.

ghost use Rattle.std.specs.Prelude.{◌≡◌, Ok};
ghost use Rattle.nt_app.specs.Scans.{status_of_scan_error, PrintsScan, ScansNamed};

use crate::show::status_of_refusal;
use crate::status::Status;
use nt_outside::{Host, Stream, print_all};
use nt_scan::{MOST_ELEMENTS, ScanError, scan_file};
use nt_types::Bytes;
use std::alloc::Global;
use std::thread::Threads;

/// The answer in place of the lines of a scan.
fn status_of_scan_error(error: ScanError) -> Status
    ensures { result ≡ status_of_scan_error error }
{
    match error {
        ScanError::TooMany { reached, .. } => Status::Limit {
            reached,
            limit: MOST_ELEMENTS,
        },
        ScanError::Defect(fault) => Status::File(fault),
        ScanError::Fault => Status::Outside,
        ScanError::Memory => Status::Memory,
    }
}

/// Prints the lines of a scan.
fn print_lines<H: Host>(host: &mut H, lines: &[u8]) -> Status
    ensures { PrintsScan (Ok lines.now) (H.state host.old) (H.state host.new) result }
{
    match print_all(host, Stream::ToOut, lines) {
        Ok(()) => Status::Done,
        Err(_) => Status::Outside,
    }
}

/// Prints the lines of a scan, if it has some.
fn print_scan<H: Host>(host: &mut H, scanned: Result<Bytes, ScanError>) -> Status
    ensures { PrintsScan scanned (H.state host.old) (H.state host.new) result }
{
    match scanned {
        Ok(lines) => print_lines(host, lines.as_slice()),
        Err(error) => status_of_scan_error(error),
    }
}

/// The whole command `scan`.
pub fn scan<H: Host>(rt: &(impl Threads + Sync), alloc: Global, host: &mut H, name: &str) -> Status
    ensures { ScansNamed name.now (H.state host.old) (H.state host.new) result }
{
    match host.open_file(name) {
        Ok(file) => {
            let mut file = file;
            let scanned = scan_file(rt, alloc, &mut file);
            let status = print_scan(host, scanned);
            host.return_file(file);
            status
        }
        Err(refused) => status_of_refusal(refused),
    }
}
