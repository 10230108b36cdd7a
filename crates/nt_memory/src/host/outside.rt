//! A host in memory, as the product asks for a host.

ghost use Rattle.std.specs.Prelude.{◌≡◌, ◌<◌, length, if◌then◌else◌, is_ok, IfOk, IsNone, IsSome};

use super::MemHost;
use crate::bytes::are_bytes;
use crate::disk::MemDisk;
use crate::file::MemFile;
use crate::named::NamedFile;
use crate::plan::Object;
use crate::streams::add_unless;
use crate::text::MemSource;
use nt_outside::{Failed, Host, Kind, Refused, Stream};

impl Host for MemHost {
    ghost use Rattle.nt_outside.specs.World.{file, Text as asked_text, File as asked_file, Opens, Creates, IsOpenText, IsOpenFile, IsNewDisk, TakesBack, KeepsDisk, Prints};
    ghost use Rattle.nt_memory.specs.Tally.{takes_in, FailsWhereListedOr};
    ghost use Rattle.nt_memory.specs.Streams.{SpendsRoom};
    ghost use Rattle.nt_memory.specs.Host.{state_of, world_of, tally_of, plan_of, room_of_host, opens_text, opens_file, PrintsWhereListed};
    ghost use Rattle.nt_memory.specs.Opening.{IsLeftWith, IsListedText, IsListedFile, IsListedDisk};
    ghost use Rattle.nt_memory.specs.Fits.{fit_of};
    ghost use Rattle.nt_memory.specs.Text as mem_text;
    ghost use Rattle.nt_memory.specs.File as mem_file;
    ghost use Rattle.nt_memory.specs.Disk as mem_disk;

    type Text = MemSource;

    type File = MemFile;

    type Out = MemDisk;

    ghost state = { state_of };

    ghost fit = { fit_of };

    fn open_text(&mut self, name: &str) -> Result<MemSource, Refused>
        ensures opens { Opens (asked_text name.now) (state_of self.old) (state_of self.new) result }
        ensures text { IfOk result (λ t. IsOpenText (state_of self.old).world name.now (mem_text.state_of t)) }
        ensures exact { FailsWhereListedOr (IsNone (file (world_of self.old) name.now)) (tally_of self.old) (tally_of self.new) result }
        ensures calls { IfOk result (IsListedText self.old) }
        ensures left { IsLeftWith (if is_ok result then opens_text (plan_of self.old) else plan_of self.old) self.new result }
    {
        let ask = self.prepare(Kind::Text, name)?;
        let found = self.copy_of(name)?;
        let tally = self.new_tally(Object::Text(self.plan.texts))?;
        match self.admit(ask, found) {
            Some(bytes) => {
                self.plan.texts = self.plan.texts.saturating_add(1);
                self.opened += 1;
                Ok(MemSource::open(bytes, tally, self.plan.most))
            }
            None => Err(Refused::Failed),
        }
    }

    fn return_text(&mut self, text: MemSource)
        ensures back { TakesBack (mem_text.state_of text).faults (state_of self.old) (state_of self.new) }
        ensures world { (state_of self.new).world ≡ (state_of self.old).world }
        ensures exact { tally_of self.new ≡ takes_in (mem_text.state_of text).faults (tally_of self.old) }
        ensures plan { plan_of self.new ≡ plan_of self.old }
        ensures room { room_of_host self.new ≡ room_of_host self.old }
    {
        self.tally.take_in(text.faults());
        self.opened = self.opened.saturating_sub(1);
    }

    fn open_file(&mut self, name: &str) -> Result<MemFile, Refused>
        ensures opens { Opens (asked_file name.now) (state_of self.old) (state_of self.new) result }
        ensures opened { IfOk result (λ f. IsOpenFile (state_of self.old).world name.now (mem_file.state_of f)) }
        ensures exact { FailsWhereListedOr (IsNone (file (world_of self.old) name.now)) (tally_of self.old) (tally_of self.new) result }
        ensures calls { IfOk result (IsListedFile self.old) }
        ensures left { IsLeftWith (if is_ok result then opens_file (plan_of self.old) else plan_of self.old) self.new result }
    {
        let ask = self.prepare(Kind::File, name)?;
        let found = self.copy_of(name)?;
        let tally = self.new_tally(Object::File(self.plan.files))?;
        match self.admit(ask, found) {
            Some(bytes) => {
                self.plan.files = self.plan.files.saturating_add(1);
                self.opened += 1;
                Ok(MemFile::open(bytes, tally))
            }
            None => Err(Refused::Failed),
        }
    }

    fn return_file(&mut self, file: MemFile)
        ensures back { TakesBack (mem_file.state_of file).faults (state_of self.old) (state_of self.new) }
        ensures world { (state_of self.new).world ≡ (state_of self.old).world }
        ensures exact { tally_of self.new ≡ takes_in (mem_file.state_of file).faults (tally_of self.old) }
        ensures plan { plan_of self.new ≡ plan_of self.old }
        ensures room { room_of_host self.new ≡ room_of_host self.old }
    {
        self.tally.take_in(file.faults());
        self.opened = self.opened.saturating_sub(1);
    }

    /// While a disk is out, a further one is refused as a fault.
    fn create(&mut self, name: &str) -> Result<MemDisk, Refused>
        ensures creates { Creates name.now (state_of self.old) (state_of self.new) result }
        ensures disk { IfOk result (λ d. IsNewDisk (state_of self.old).world (mem_disk.state_of d)) }
        ensures exact { FailsWhereListedOr (IsSome (world_of self.old).creating) (tally_of self.old) (tally_of self.new) result }
        ensures calls { IfOk result (IsListedDisk self.old) }
        ensures left { IsLeftWith (plan_of self.old) self.new result }
    {
        let ask = self.prepare(Kind::Out, name)?;
        let creating = String::from_str(self.alloc, name)?;
        let created = String::from_str(self.alloc, name)?;
        let disk = self.new_disk()?;
        self.files.reserve(1)?;
        self.created.reserve(1)?;
        let found = self.name_unless_out(creating);
        match self.admit(ask, found) {
            Some(creating) => {
                self.created.push_reserved(created);
                self.creating = Some(creating);
                self.opened += 1;
                Ok(disk)
            }
            None => Err(Refused::Failed),
        }
    }

    fn return_disk(&mut self, disk: MemDisk)
        ensures keeps { KeepsDisk (mem_disk.state_of disk) (state_of self.old) (state_of self.new) }
        ensures idle { (world_of self.old).creating ≡ None → world_of self.new ≡ world_of self.old }
        ensures exact { tally_of self.new ≡ takes_in (mem_disk.state_of disk).faults (tally_of self.old) }
        ensures plan { plan_of self.new ≡ plan_of self.old }
        ensures room { room_of_host self.new ≡ room_of_host self.old }
    {
        let (bytes, log, faults) = disk.into_parts();
        self.tally.take_in(faults);
        self.opened = self.opened.saturating_sub(1);
        let Some(name) = self.creating.take() else {
            return;
        };
        are_bytes(&bytes);
        self.files.push_reserved(NamedFile {
            name,
            bytes,
            log: Some(log),
        });
    }

    /// Prints the whole piece. Where its stream has no room for it and gets none, the print counts as failed.
    fn print(&mut self, stream: Stream, piece: &[u8]) -> Result<usize, Failed>
        requires { 0 < length piece.now }
        ensures prints { Prints stream piece.now (state_of self.old) (state_of self.new) result }
        ensures exact { PrintsWhereListed stream (length piece.now) self.old self.new result }
        ensures plan { plan_of self.new ≡ plan_of self.old }
        ensures room { SpendsRoom (length piece.now) (room_of_host self.old) (room_of_host self.new) }
    {
        let listed = self.tally.begin_call();
        match stream {
            Stream::ToOut => {
                if add_unless(listed, &mut self.streams.out, piece) {
                    return Ok(piece.len());
                }
                self.tally.count_fault();
            }
            Stream::ToErr => {
                if add_unless(listed, &mut self.streams.err, piece) {
                    return Ok(piece.len());
                }
                self.err_faults = self.err_faults.saturating_add(1);
            }
        }
        Err(Failed)
    }
}
