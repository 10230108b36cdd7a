//! Files of the system by name, and which file a name leads to.

ghost use Rattle.std.specs.Prelude.{◌≡◌, false, IfOk};
ghost use Rattle.nt_system.specs.Real.{is_file_among};

use std::fs::{File, Metadata, OpenFile, OpenOptions, canonicalize, metadata, symlink_metadata};
use std::io;
use std::io::{Error, ErrorKind};
use std::os::unix::fs::MetadataExt;
use std::path::Path;

/// Which file it is, whatever its names are: its device and its number there.
#[derive(Clone, Copy, Debug, PartialEq, Eq)]
pub struct FileId {
    pub device: u64,
    pub number: u64,
}

impl FileId {
    fn of(metadata: &Metadata) -> Self {
        FileId {
            device: metadata.dev(),
            number: metadata.ino(),
        }
    }

    /// Which file an opened file is.
    pub fn of_file(file: &File) -> io::Result<Self> {
        Ok(FileId::of(&file.metadata()?))
    }
}

/// A name in a system, and the file that it led to.
#[derive(Drop)]
pub struct Named {
    pub rt: HostRuntime,
    pub name: String,
    pub id: FileId,
}

impl Named {
    /// Opens its file to be written. Where the name leads to another file by now, that one isn't touched.
    pub fn open(&self) -> io::Result<File> {
        let file = OpenOptions::new()
            .write(true)
            .open(&self.rt, self.name.as_str())?;
        if FileId::of_file(&file)? != self.id {
            return Err(Error::from(ErrorKind::Other));
        }
        Ok(file)
    }

    /// Makes sure that the file stays in its folder, whatever happens: that of the file itself, where the name is a link to it.
    pub fn sync_folder(&self) -> io::Result<()> {
        let name = self.name.as_str();
        if is_link(&self.rt, name) {
            let whole = canonicalize(&self.rt, name)?;
            return sync_parent(&self.rt, &whole.as_path());
        }
        sync_parent(&self.rt, &Path::new(name))
    }
}

/// Whether a name is a link to another.
fn is_link(rt: &HostRuntime, name: &str) -> bool {
    match symlink_metadata(rt, name) {
        Ok(metadata) => metadata.is_symlink(),
        Err(_) => false,
    }
}

/// Syncs the folder that a path stands in.
fn sync_parent(rt: &HostRuntime, path: &Path) -> io::Result<()> {
    let folder = match path.parent() {
        Some(folder) => folder.as_str(),
        None => "/",
    };
    let folder = if folder.is_empty() { "." } else { folder };
    File::open(rt, folder)?.sync_all()
}

/// A file to be written, empty, and whether it is new.
#[derive(Drop)]
pub struct Made {
    pub file: File,
    pub id: FileId,
    pub is_new: bool,
}

/// Opens a file to be written, and says whether it is new. One that is there keeps its bytes; a name that is a link to no file
/// makes the file that it names.
fn open_or_make(rt: &HostRuntime, name: &str) -> io::Result<(File, bool)> {
    match OpenOptions::new().write(true).open(rt, name) {
        Ok(file) => Ok((file, false)),
        Err(error) if error.kind() == ErrorKind::NotFound => {
            let file = OpenOptions::new().write(true).create(true).open(rt, name)?;
            Ok((file, true))
        }
        Err(error) => Err(error),
    }
}

/// Whether a file stands behind one of the program's own streams.
fn is_stream(rt: &HostRuntime, id: FileId) -> bool {
    for name in ["/dev/stdout", "/dev/stderr"] {
        if metadata(rt, name).is_ok_and(|metadata| FileId::of(&metadata) == id) {
            return true;
        }
    }
    false
}

/// Makes a file empty, or new, unless it is one of those that were opened, or stands behind one of the program's own streams: then
/// nothing is written. A device or a pipe may be such a stream too, since what is printed there lies over nothing.
pub fn make(rt: &HostRuntime, name: &str, opened: &[FileId]) -> io::Result<Made>
    ensures { IfOk result (λ made. is_file_among made.id opened.now ≡ false) }
{
    let (file, is_new) = open_or_make(rt, name)?;
    let metadata = file.metadata()?;
    let id = FileId::of(&metadata);
    if opened.contains(&id) {
        return Err(Error::from(ErrorKind::Other));
    }
    if metadata.is_file() {
        if is_stream(rt, id) {
            return Err(Error::from(ErrorKind::Other));
        }
        file.set_len(0)?;
    }
    Ok(Made { file, id, is_new })
}
