//! The system as a host.

ghost use Rattle.std.specs.Io.{WritesAtMost};
ghost use Rattle.std.specs.Prelude.{◌≡◌, ◌<◌, Ok, IfOk};
ghost use Rattle.nt_outside.specs.Faults.{HasCause};

use crate::disk::RealDisk;
use crate::faults::Faults;
use crate::file::RealFile;
use crate::named::{FileId, Made, Named, make};
use crate::text::RealText;
use nt_outside::{Ask, Failed, Host, Kind, Refused, Stream};
use std::alloc::{AllocError, Global};
use std::fs::File;
use std::io;
use std::io::{Error, ErrorKind, Write};

/// The files and streams of the system. A name is a path, which begins at the folder that the program runs in unless it begins with `/`.
/// The host keeps what it was asked for, and which files it opened.
#[derive(Drop)]
pub struct RealHost {
    rt: HostRuntime,
    asked: Vec<Ask>,
    files: Vec<FileId>,
    opened: u64,
    faults: Faults,
    err_faults: Faults,
}

impl RealHost {
    ghost use Rattle.std.specs.Prelude.{◌+◌, ◌++◌, ◌∷◌, [], ◌^◌, false, vec_len, vec_capacity, Err, OnOk};
    ghost use Rattle.std.specs.IoError.{error_kind};
    ghost use Rattle.std.specs.Result.{IfErr};
    ghost use Rattle.nt_outside.specs.World.{asked_as, Asks, TakesBack};
    ghost use Rattle.nt_outside.specs.declared.asked.Kind.TheVariants as kind;
    ghost use Rattle.nt_system.specs.declared.named.FileId.{FileId};
    ghost use Rattle.nt_system.specs.Real.{state_of, fresh, refused_for, is_file_among, Notes, Counts};

    /// A host that was asked for nothing yet.
    pub fn new(rt: HostRuntime) -> Self
        ensures { state_of result ≡ fresh }
    {
        RealHost {
            rt,
            asked: Vec::new(rt.alloc()),
            files: Vec::new(rt.alloc()),
            opened: 0,
            faults: Faults::NONE,
            err_faults: Faults::NONE,
        }
    }

    /// Keeps what was asked for, and takes the memory to keep the file. One object more can be counted as out.
    fn note(&mut self, kind: Kind, name: &str) -> Result<(), AllocError>
        ensures notes { Notes (asked_as kind name.now) (state_of self.old) (state_of self.new) result }
        ensures files { self.new.files.items ≡ self.old.files.items }
        ensures few { OnOk result (self.new.opened + 1 < 2 ^ 64) }
        ensures place { OnOk result (vec_len self.new.files < vec_capacity self.new.files) }
    {
        if self.opened == u64::MAX {
            return Err(AllocError);
        }
        self.files.reserve(1)?;
        let name = String::from_str(self.rt.alloc(), name)?;
        self.asked.push(Ask { kind, name })?;
        Ok(())
    }

    /// What the system answered, where want of memory is no fault.
    fn answer<T: Drop>(&mut self, answered: io::Result<T>) -> Result<T, Refused>
        ensures answered { IfOk answered (λ value. result ≡ Ok value) }
        ensures refused { IfErr answered (λ error. result ≡ Err (refused_for (error_kind error))) }
        ensures counts { Counts (state_of self.old) (state_of self.new) result }
        ensures files { self.new.files ≡ self.old.files }
    {
        match answered {
            Ok(value) => Ok(value),
            Err(error) if error.kind() == ErrorKind::OutOfMemory => Err(Refused::Memory),
            Err(_) => Err(Refused::from(self.faults.failed())),
        }
    }

    /// Opens the file of a name to be read.
    fn open(&mut self, kind: Kind, name: &str) -> Result<File, Refused>
        ensures asks { Asks (asked_as kind name.now) (state_of self.old) (state_of self.new) result }
        ensures world { (state_of self.new).world ≡ (state_of self.old).world }
        ensures kept { IfOk result (λ _. (id : FileId) × (self.new.files.items ≡ self.old.files.items ++ id ∷ [])) }
    {
        self.note(kind, name)?;
        let rt = self.rt;
        let file = self.answer(File::open(&rt, name))?;
        let id = self.answer(FileId::of_file(&file))?;
        self.files.push_reserved(id);
        self.opened += 1;
        Ok(file)
    }

    /// Makes the file of a name empty, or new, unless this host opened it before, or prints on it.
    fn make(&mut self, name: &str) -> Result<Made, Refused>
        ensures asks { Asks (asked_as kind.Out name.now) (state_of self.old) (state_of self.new) result }
        ensures world { (state_of self.new).world ≡ (state_of self.old).world }
        ensures apart { IfOk result (λ made. is_file_among made.id self.old.files.items ≡ false) }
        ensures kept { IfOk result (λ made. self.new.files.items ≡ self.old.files.items ++ made.id ∷ []) }
    {
        self.note(Kind::Out, name)?;
        let made = make(&self.rt, name, &self.files);
        let made = self.answer(made)?;
        self.files.push_reserved(made.id);
        self.opened += 1;
        Ok(made)
    }

    /// Counts an object that came back, and its faults.
    fn take_back(&mut self, faults: Faults)
        ensures back { TakesBack faults.count (state_of self.old) (state_of self.new) }
        ensures world { (state_of self.new).world ≡ (state_of self.old).world }
    {
        self.faults.take_in(faults);
        self.opened = self.opened.saturating_sub(1);
    }
}

impl Host for RealHost {
    ghost use Rattle.nt_system.specs.Real.{state_of, unseen};

    type Text = RealText<File>;

    type File = RealFile<File>;

    type Out = RealDisk<File>;

    ghost state = { state_of };

    ghost fit = { unseen };

    fn open_text(&mut self, name: &str) -> Result<RealText<File>, Refused> {
        let file = self.open(Kind::Text, name)?;
        Ok(RealText {
            file,
            faults: Faults::NONE,
        })
    }

    fn return_text(&mut self, text: RealText<File>) {
        self.take_back(text.faults);
    }

    fn open_file(&mut self, name: &str) -> Result<RealFile<File>, Refused> {
        let file = self.open(Kind::File, name)?;
        Ok(RealFile {
            file,
            faults: Faults::NONE,
        })
    }

    fn return_file(&mut self, file: RealFile<File>) {
        self.take_back(file.faults);
    }

    /// A file that this host opened before, or that it prints on, is refused as a fault under whatever name, and keeps its bytes.
    fn create(&mut self, name: &str) -> Result<RealDisk<File>, Refused> {
        let rt = self.rt;
        let copy = String::from_str(rt.alloc(), name)?;
        let made = self.make(name)?;
        Ok(RealDisk {
            named: Named {
                rt,
                name: copy,
                id: made.id,
            },
            file: made.file,
            is_new: made.is_new,
            end: 0,
            out: Vec::new(rt.alloc()),
            faults: Faults::NONE,
        })
    }

    fn return_disk(&mut self, disk: RealDisk<File>) {
        self.take_back(disk.faults);
    }

    fn print(&mut self, stream: Stream, piece: &[u8]) -> Result<usize, Failed> {
        match stream {
            Stream::ToOut => taken(print_on(&mut self.rt.stdout(), piece), &mut self.faults),
            Stream::ToErr => taken(print_on(&mut self.rt.stderr(), piece), &mut self.err_faults),
        }
    }
}

/// Prints once, and again where a signal interrupts it: that is no failure.
pub fn print_on<W: Write>(stream: &mut W, piece: &[u8]) -> io::Result<usize>
    ensures { WritesAtMost result piece.now }
{
    for _ in 0..u64::MAX {
        match stream.write(piece) {
            Err(error) if error.kind() == ErrorKind::Interrupted => {}
            written => return written,
        }
    }
    Err(Error::from(ErrorKind::Interrupted))
}

/// What a stream took, where nothing is a fault. No buffer holds any of it back.
fn taken(written: io::Result<usize>, faults: &mut Faults) -> Result<usize, Failed>
    ensures count { IfOk result (λ n. (0 < n) × (written ≡ Ok n)) }
    ensures some { IfOk written (λ n. 0 < n → result ≡ Ok n) }
    ensures cause { HasCause faults.old.count faults.new.count result }
{
    match written {
        Ok(count) if count > 0 => Ok(count),
        _ => Err(faults.failed()),
    }
}
