//! Bytes of a file that are read at once, for pages that follow one another.

ghost use Rattle.std.specs.Prelude.{◌≡◌, ◌<◌, ◌≤◌, ◌^◌, length, vec_len, IsTrue, IfOk, OnOk};
ghost use Rattle.nt_outside.specs.File.{FileState};
ghost use Rattle.nt_outside.specs.Faults.{HasCause};
ghost use Rattle.nt_file_meaning.specs.Clusters.{stored_len};
ghost use Rattle.nt_tfile.specs.Calls.{Serves, HasSize, ReadsFile};
ghost use Rattle.nt_decoded.specs.Windows.{IsSeenBy, LiesIn, IsReadAtOnce, IsReadToFront, held, window_bytes, found_page};

use nt_listing::Wanting;
use nt_num::ReadError;
use nt_outside::{Failed, ReadAt};
use nt_pagelists::PageItem;
use nt_tfile::ReadFailure;
use std::alloc::Global;
use std::mem;

/// How many bytes are read at once, at most, but for a page that is longer: so many stay in the cache until their pages are decoded.
const MOST_AT_ONCE: u64 = 1 << 17;

/// The bytes of a checksum.
const SUM_LEN: u64 = 8;

/// Bytes of a file from a place on.
#[derive(Drop)]
pub struct Window {
    alloc: Global,
    /// The size of the file.
    size: u64,
    at: u64,
    len: usize,
    /// Memory, of which the first bytes are those of the file.
    bytes: Vec<u8>,
}

/// The bytes of a page, with its checksum if it has one.
pub fn stored_len(page: &PageItem) -> u64
    ensures len { result ≡ stored_len page.now }
    ensures few { result < 2 ^ 33 }
{
    if page.checked {
        u64::from(page.size) + SUM_LEN
    } else {
        u64::from(page.size)
    }
}

/// How many bytes are read for a page: its own, and those of the pages behind it that follow it
/// closely in a file of this size.
fn run_len(page: &PageItem, behind: &[PageItem], size: u64) -> u64
    ensures { IsReadAtOnce page.now size result }
{
    let most = size.saturating_sub(page.place).min(MOST_AT_ONCE);
    let mut len = stored_len(page);
    for next in behind {
        let more = stored_len(next);
        if next.place.saturating_sub(page.place) != len || len + more > most {
            break;
        }
        len += more;
    }
    len
}

impl Window {
    /// No bytes, which are some of any file of this size, and memory for others.
    pub fn new(alloc: Global, size: u64, memory: Vec<u8>) -> Window
        ensures { (file : FileState) → HasSize file size → IsSeenBy file result }
    {
        Window {
            alloc,
            size,
            at: 0,
            len: 0,
            bytes: memory,
        }
    }

    /// Its memory, for another window.
    pub fn into_memory(self) -> Vec<u8> {
        self.bytes
    }

    /// Its bytes.
    fn held(&self) -> &[u8]
        ensures { result.now ≡ held self.now }
    {
        let (held, _) = self.bytes.split_at(self.len.min(self.bytes.len()));
        held
    }

    /// Whether a page lies here.
    fn has(&self, page: &PageItem) -> bool
        ensures { IsTrue result → LiesIn page.now self.now }
    {
        match page.place.checked_sub(self.at) {
            Some(from) => {
                u128::from(from) + u128::from(stored_len(page)) <= self.held().len() as u128
            }
            None => false,
        }
    }

    /// The bytes of a page, with its checksum.
    pub fn stored(&self, page: &PageItem) -> &[u8]
        requires { LiesIn page.now self.now }
        ensures { result.now ≡ window_bytes self.now page.now }
    {
        let (_, rest) = self.held().split_at((page.place - self.at) as usize);
        let (stored, _) = rest.split_at(stored_len(page) as usize);
        stored
    }
}

/// Makes room for so many bytes. Bytes that are there already aren't set to zero again.
fn make_room(bytes: &mut Vec<u8>, len: usize) -> Result<(), Wanting>
    ensures { OnOk result (len ≤ vec_len bytes.new) }
{
    if bytes.len() < len {
        bytes.resize(len, 0)?;
    }
    Ok(())
}

/// Reads bytes of a file from a place on to the front of others, and gives how many of so many were read.
fn read_front<F: ReadAt>(
    file: &mut F,
    at: u64,
    len: usize,
    bytes: &mut [u8],
) -> Result<usize, Failed>
    requires { len ≤ length bytes.old }
    ensures file { (F.state file.new).bytes ≡ (F.state file.old).bytes }
    ensures cause { HasCause (F.state file.old).faults (F.state file.new).faults result }
    ensures front { IfOk result (λ n. IsReadToFront (F.state file.old).bytes at len n bytes.new) }
    ensures len { length bytes.new ≡ length bytes.old }
{
    file.read_at(at, &mut bytes[..len])
}

/// The window that begins with a page, in the memory of another, if the page lies in a file of its
/// size. The pages behind it are read with it where they follow it closely.
fn read_window<F: ReadAt>(
    file: &mut F,
    page: &PageItem,
    behind: &[PageItem],
    outside: ReadError,
    kept: Window,
) -> Result<Window, ReadFailure>
    requires { HasSize (F.state file.old) kept.size }
    ensures file { Serves (F.state file.old) (F.state file.new) result }
    ensures read { ReadsFile (λ w. window_bytes w page.now)
        (found_page outside page.now) (F.state file.old) result }
    ensures window { IfOk result (λ w. IsSeenBy (F.state file.new) w) }
    ensures lies { IfOk result (λ w. LiesIn page.now w) }
{
    let at = page.place;
    let len = run_len(page, behind, kept.size);
    if u128::from(at) + u128::from(len) > u128::from(kept.size) {
        return Err(ReadFailure::Defect(outside));
    }
    let mut bytes = kept.bytes;
    make_room(&mut bytes, len as usize)?;
    let count = read_front(file, at, len as usize, bytes.as_mut_slice())?;
    if count as u64 != len {
        return Err(ReadFailure::Defect(outside));
    }
    Ok(Window {
        alloc: kept.alloc,
        size: kept.size,
        at,
        len: len as usize,
        bytes,
    })
}

/// Moves the window to a page, unless the page lies there already. Where that fails, it has no bytes.
pub fn move_to<F: ReadAt>(
    file: &mut F,
    page: &PageItem,
    behind: &[PageItem],
    outside: ReadError,
    window: &mut Window,
) -> Result<(), ReadFailure>
    requires { IsSeenBy (F.state file.old) window.old }
    ensures file { Serves (F.state file.old) (F.state file.new) result }
    ensures read { ReadsFile (λ _. window_bytes window.new page.now)
        (found_page outside page.now) (F.state file.old) result }
    ensures window { IsSeenBy (F.state file.new) window.new }
    ensures lies { OnOk result (LiesIn page.now window.new) }
{
    if window.has(page) {
        return Ok(());
    }
    let kept = mem::replace(
        window,
        Window::new(window.alloc, window.size, Vec::new(window.alloc)),
    );
    *window = read_window(file, page, behind, outside, kept)?;
    Ok(())
}
