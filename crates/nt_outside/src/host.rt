//! A host: texts, files and disks by name, and two streams.

ghost use Rattle.std.specs.Prelude.{◌≡◌, ◌<◌, ◌^◌, List, ℕ, length, Some, All, IfOk};
ghost use Rattle.nt_outside.specs.World.{World, HostState, file, Text as asked_text, File as asked_file, Opens, Creates, IsOpenText, IsOpenFile, IsNewDisk, TakesBack, KeepsDisk, Prints, PrintsAll};

use crate::disk::Disk;
use crate::fault::{Failed, Refused};
use crate::file::ReadAt;
use crate::source::Source;
use crate::stream::Stream;

/// What the program runs over. Each object that a host opened is to be returned: its type can't be dropped here.
pub trait Host {
    type Text: Source;

    type File: ReadAt;

    type Out: Disk;

    ghost state: { Self → HostState };

    /// The text of a name. A name that isn't there is `Failed`.
    fn open_text(&mut self, name: &str) -> Result<Self::Text, Refused>
        ensures opens { Opens (asked_text name.now) (state self.old) (state self.new) result }
        ensures text { IfOk result (λ t. IsOpenText (state self.old).world name.now (Self.Text.state t)) };

    fn return_text(&mut self, text: Self::Text)
        ensures back { TakesBack (Self.Text.state text).faults (state self.old) (state self.new) }
        ensures world { (state self.new).world ≡ (state self.old).world };

    /// The file of a name. A name that isn't there is `Failed`.
    fn open_file(&mut self, name: &str) -> Result<Self::File, Refused>
        ensures opens { Opens (asked_file name.now) (state self.old) (state self.new) result }
        ensures opened { IfOk result (λ f. IsOpenFile (state self.old).world name.now (Self.File.state f)) };

    fn return_file(&mut self, file: Self::File)
        ensures back { TakesBack (Self.File.state file).faults (state self.old) (state self.new) }
        ensures world { (state self.new).world ≡ (state self.old).world };

    /// An empty disk, whose bytes the name gets when it is returned. One disk is out at a time.
    fn create(&mut self, name: &str) -> Result<Self::Out, Refused>
        ensures creates { Creates name.now (state self.old) (state self.new) result }
        ensures disk { IfOk result (λ d. IsNewDisk (state self.old).world (Self.Out.state d)) };

    fn return_disk(&mut self, disk: Self::Out)
        ensures { KeepsDisk (Self.Out.state disk) (state self.old) (state self.new) };

    /// Prints the front of a piece, and says how many bytes. A stream that takes nothing counts a fault.
    fn print(&mut self, stream: Stream, piece: &[u8]) -> Result<usize, Failed>
        requires { 0 < length piece.now }
        ensures { Prints stream piece.now (state self.old) (state self.new) result };

    /// Each byte of its files is one.
    ghost fit: { (h : Self) (w : World) (name : List ℕ) (told : List ℕ) → (state h).world ≡ Some w → file w name ≡ Some told
        → All (λ (b : ℕ). b < 2 ^ 8) told };
}

/// Prints all bytes on a stream, or those before a failure.
pub fn print_all<H: Host>(host: &mut H, stream: Stream, bytes: &[u8]) -> Result<(), Failed>
    ensures { PrintsAll stream bytes.now (H.state host.old) (H.state host.new) result }
{
    let mut at = 0;
    while at < bytes.len() {
        at += host.print(stream, &bytes[at..])?;
    }
    Ok(())
}
