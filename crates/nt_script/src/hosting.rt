//! A file that is written from a script of a host.

ghost use Rattle.std.specs.Prelude.{◌≡◌, false, IfOk};
ghost use Rattle.nt_types.specs.Rules.{AreFields};
ghost use Rattle.nt_types.specs.Views.{members_view};
ghost use Rattle.nt_outside.specs.World.{PrintsAll};
ghost use Rattle.nt_outside.specs.declared.stream.Stream.TheVariants.{ToOut};
ghost use Rattle.nt_script.specs.Whole.{counts_line};
ghost use Rattle.nt_script.specs.Storing.{FilesText, StoresScript};

use crate::store_error::ScriptStoreError;
use crate::storing::{Counts, write_file};
use arrayvec::ArrayString;
use itoa::Buffer;
use nt_book::Params;
use nt_outside::{Failed, Host, Stream, print_all};
use nt_store::read_schema;
use nt_types::Fields;
use std::alloc::Global;

/// The names of the texts that are read, and of the file that is written.
#[derive(Clone, Copy)]
pub struct ScriptNames<'a> {
    pub out: &'a str,
    pub schema: &'a str,
    pub input: &'a str,
}

/// The line of these numbers, without memory.
fn counts_line(counts: Counts) -> ArrayString<64>
    ensures { result.bytes ≡ counts_line counts.clusters counts.entries }
{
    let mut line = ArrayString::<64>::new();
    let mut digits = Buffer::new();
    line.push_str("clusters ");
    line.push_str(digits.format(counts.clusters));
    line.push_str(" entries ");
    line.push_str(digits.format(counts.entries));
    line.push_str("\n");
    line
}

/// Tells these numbers on out, in one line.
pub fn print_counts<H: Host>(host: &mut H, counts: Counts) -> Result<(), Failed>
    ensures { PrintsAll ToOut (counts_line counts.clusters counts.entries) (H.state host.old) (H.state host.new) result }
{
    let line = counts_line(counts);
    print_all(host, Stream::ToOut, line.as_str().as_bytes())
}

/// Writes the file of this name, of these fields and a script, which goes back to the host.
fn file_text<H: Host>(
    alloc: Global,
    host: &mut H,
    out: &str,
    fields: Fields,
    text: H::Text,
    params: &Params,
) -> Result<Counts, ScriptStoreError>
    requires rules { AreFields (members_view fields) }
    requires unstaged { params.now.staged ≡ false }
    ensures { FilesText out.now params.now (members_view fields) (H.Text.state text) (H.state host.old) (H.state host.new) result }
{
    match host.create(out) {
        Ok(disk) => {
            let (disk, text, written) = write_file(alloc, disk, fields, text, params);
            host.return_text(text);
            host.return_disk(disk);
            written
        }
        Err(refused) => {
            host.return_text(text);
            Err(ScriptStoreError::from(refused))
        }
    }
}

/// Writes a file from a script of a host: reads the schema text, opens the script, makes the disk, begins the file, writes the
/// clusters of the script's events, with its fields between them, closes the file, and tells its numbers on out.
///
/// # Errors
///
/// `Schema` and `Line` name the first fault of a text, `Limit` a limit that the file would pass. After these and after `Memory` the
/// file can't pass for finished. `Outside` comes only where the host's count rose.
pub fn store_script<H: Host>(
    alloc: Global,
    host: &mut H,
    names: ScriptNames<'_>,
    params: &Params,
) -> Result<(), ScriptStoreError>
    requires unstaged { params.now.staged ≡ false }
    ensures { StoresScript names.entry.out.now names.entry.schema.now names.entry.input.now params.now
        (H.state host.old) (H.state host.new) result }
{
    let fields = read_schema(alloc, host, names.schema)?;
    let text = host.open_text(names.input)?;
    let counts = file_text(alloc, host, names.out, fields, text, params)?;
    print_counts(host, counts)?;
    Ok(())
}
