//! File header and directory, in the bytes where they stand.

ghost use Rattle.std.specs.Prelude.{◌≡◌};
ghost use Rattle.nt_container.specs.FileHeader.{gate_of, version_at, header_numbers_at, header_at, header_in, directory_numbers_at, directory_at, directory_in};
ghost use Rattle.nt_tfile.specs.Calls.{ReadsOn, IsReadAs};

use crate::faults::{BAD_DIRECTORY, BAD_FILE_HEADER, NOT_ROOT, UNFINISHED, fault, fault_with};
use crate::keys::LAST_NARROW;
use crate::words::read_place;
use nt_container::{Directory, FileHeader};
use nt_num::{Cur, ReadError, Short};

/// The first version of a file header that has places of 8 bytes.
const FIRST_WIDE: u32 = 1000000;

/// Where fEND stands.
const END_FIELD: u64 = 12;

/// Whether a file is finished, and begins with `root` (own profile).
#[tactic(auto, unfolding(nt_container::specs::FileHeader::gate_of))]
fn check_gate(head: &[u8]) -> Result<(), ReadError>
    ensures { IsReadAs (λ u. tt) result (gate_of head.now) }
{
    if head.is_empty() || head[0] == 0 {
        return Err(fault(UNFINISHED, 0));
    }
    if head[0] != b'r' {
        return Err(fault(NOT_ROOT, 0));
    }
    if head.len() >= 4 && head[..4] != b"root"[..] {
        return Err(fault(NOT_ROOT, 0));
    }
    Ok(())
}

/// The numbers behind a file header's version.
#[tactic(auto, unfolding(nt_container::specs::FileHeader::header_numbers_at))]
fn read_header_numbers(cur: &mut Cur, wide: bool) -> Result<FileHeader, Short>
    ensures { ReadsOn (λ h. h) result cur.new (header_numbers_at wide cur.old) }
{
    let begin = cur.u32be()?;
    let end = read_place(cur, wide)?;
    let _free = read_place(cur, wide)?;
    let _free_len = cur.u32be()?;
    let _pieces = cur.u32be()?;
    let name_len = cur.u32be()?;
    cur.bytes(if wide { 35 } else { 31 })?;
    Ok(FileHeader {
        begin,
        end,
        name_len,
    })
}

/// A file header.
#[tactic(auto, unfolding(nt_container::specs::FileHeader::version_at, nt_container::specs::FileHeader::header_at))]
fn read_file_header(cur: &mut Cur) -> Result<FileHeader, Short>
    ensures { ReadsOn (λ h. h) result cur.new (header_at cur.old) }
{
    cur.bytes(4)?;
    let version = cur.u32be()?;
    read_header_numbers(cur, version >= FIRST_WIDE)
}

/// The file header in the first bytes of a file of this size.
#[tactic(auto, unfolding(nt_container::specs::FileHeader::header_in))]
pub fn header_in(head: &[u8], size: u64) -> Result<FileHeader, ReadError>
    ensures { IsReadAs (λ h. h) result (header_in head.now size) }
{
    check_gate(head)?;
    let Ok(header) = read_file_header(&mut Cur::new(head)) else {
        return Err(fault(BAD_FILE_HEADER, 0));
    };
    if header.end > size {
        return Err(fault_with(BAD_FILE_HEADER, END_FIELD, header.end, size));
    }
    Ok(header)
}

/// The numbers behind a directory's version.
#[tactic(auto, unfolding(nt_container::specs::FileHeader::directory_numbers_at))]
fn read_directory_numbers(cur: &mut Cur, wide: bool) -> Result<Directory, Short>
    ensures { ReadsOn (λ d. d) result cur.new (directory_numbers_at wide cur.old) }
{
    cur.bytes(8)?;
    let keys_len = cur.u32be()?;
    let _name_len = cur.u32be()?;
    let _own = read_place(cur, wide)?;
    let _parent = read_place(cur, wide)?;
    let keys = read_place(cur, wide)?;
    Ok(Directory { keys, keys_len })
}

/// A directory.
#[tactic(auto, unfolding(nt_container::specs::FileHeader::directory_at))]
fn read_directory(cur: &mut Cur) -> Result<Directory, Short>
    ensures { ReadsOn (λ d. d) result cur.new (directory_at cur.old) }
{
    let version = cur.u16be()?;
    read_directory_numbers(cur, version > LAST_NARROW)
}

/// The directory in the bytes from a place on.
pub fn directory_in(place: u64, bytes: &[u8]) -> Result<Directory, ReadError>
    ensures { IsReadAs (λ d. d) result (directory_in place bytes.now) }
{
    match read_directory(&mut Cur::new(bytes)) {
        Ok(directory) => Ok(directory),
        Err(Short) => Err(fault(BAD_DIRECTORY, place)),
    }
}
