//! What is selected of a file of a host, written as another.

ghost use Rattle.std.specs.Prelude.{◌≡◌, ◌<◌, false, length};
ghost use Rattle.std.specs.Option.{option_map};
ghost use Rattle.nt_skim.specs.Select.{selection_of};
ghost use Rattle.nt_skim.specs.Tests.{test_view};
ghost use Rattle.nt_skim_file.specs.Choosing.{IsFitPlan};
ghost use Rattle.nt_skim_file.specs.Storing.{FilesSelection, SkimsOpen, SkimsNamed, StoresSelected};

use crate::choosing::{Chosen, SkimChoice, choose};
use crate::error::SkimStoreError;
use crate::writing::write_selection;
use nt_book::Params;
use nt_outside::Host;
use nt_script::{Counts, print_counts};
use std::alloc::Global;

/// The names of the file that is written and of the one that is read.
#[derive(Clone, Copy)]
pub struct SkimNames<'a> {
    pub out: &'a str,
    pub file: &'a str,
}

/// Makes the disk of this name, writes the file of what is selected, and gives the disk back.
fn file_selection<H: Host>(
    alloc: Global,
    host: &mut H,
    out: &str,
    chosen: &Chosen,
    file: &mut H::File,
    params: &Params,
) -> Result<Counts, SkimStoreError>
    requires fit { IsFitPlan chosen.now }
    requires unstaged { params.now.staged ≡ false }
    ensures { FilesSelection out.now params.now (selection_of chosen.now.plan) chosen.now.reader
        (H.File.state file.old) (H.File.state file.new) (H.state host.old) (H.state host.new) result }
{
    match host.create(out) {
        Ok(disk) => {
            let (disk, written) = write_selection(alloc, chosen, file, disk, params);
            host.return_disk(disk);
            written
        }
        Err(refused) => Err(SkimStoreError::from(refused)),
    }
}

/// Chooses of an open file, and writes what is selected under this name.
fn skim_open<H: Host>(
    alloc: Global,
    host: &mut H,
    out: &str,
    choice: SkimChoice<'_>,
    file: &mut H::File,
    params: &Params,
) -> Result<Counts, SkimStoreError>
    requires some { 0 < length choice.names.now }
    requires unstaged { params.now.staged ≡ false }
    ensures { SkimsOpen out.now (record { names = choice.entry.names.now; test = option_map (λ t. test_view t.now) choice.entry.test })
        params.now (H.File.state file.old) (H.File.state file.new) (H.state host.old) (H.state host.new) result }
{
    match choose(alloc, file, choice) {
        Ok(chosen) => file_selection(alloc, host, out, &chosen, file, params),
        Err(error) => Err(error),
    }
}

/// Opens the file, writes what is selected of it, and gives it back.
fn skim_named<H: Host>(
    alloc: Global,
    host: &mut H,
    names: SkimNames<'_>,
    choice: SkimChoice<'_>,
    params: &Params,
) -> Result<Counts, SkimStoreError>
    requires some { 0 < length choice.names.now }
    requires unstaged { params.now.staged ≡ false }
    ensures { SkimsNamed names.entry.out.now names.entry.file.now
        (record { names = choice.entry.names.now; test = option_map (λ t. test_view t.now) choice.entry.test })
        params.now (H.state host.old) (H.state host.new) result }
{
    match host.open_file(names.file) {
        Ok(file) => {
            let mut file = file;
            let written = skim_open(alloc, host, names.out, choice, &mut file, params);
            host.return_file(file);
            written
        }
        Err(refused) => Err(SkimStoreError::from(refused)),
    }
}

/// Writes a new file with the chosen fields of the entries of a file that pass a test: opens that file, reads its schema, makes the
/// plan, and only then the disk; begins the file, puts what is selected into its clusters, closes it, gives disk and file back, and
/// tells the numbers of clusters and entries on out.
///
/// # Errors
///
/// `Defect` is the first fault of the file that is read, `Unplanned` what stands against the plan, `Limit` a limit that the new file
/// would pass. After these and after `Memory` the new file can't pass for finished. `Outside` comes only where the host's count rose.
pub fn store_selected<H: Host>(
    alloc: Global,
    host: &mut H,
    names: SkimNames<'_>,
    choice: SkimChoice<'_>,
    params: &Params,
) -> Result<(), SkimStoreError>
    requires some { 0 < length choice.names.now }
    requires unstaged { params.now.staged ≡ false }
    ensures { StoresSelected names.entry.out.now names.entry.file.now
        (record { names = choice.entry.names.now; test = option_map (λ t. test_view t.now) choice.entry.test })
        params.now (H.state host.old) (H.state host.new) result }
{
    let counts = skim_named(alloc, host, names, choice, params)?;
    print_counts(host, counts)?;
    Ok(())
}
