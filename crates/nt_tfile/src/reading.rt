//! The anchor of a file.

ghost use Rattle.std.specs.Prelude.{◌≡◌, ◌+◌, ◌<◌, ◌^◌, ◌≤◌, vec_len, IfOk};
ghost use Rattle.nt_format.specs.Reading.{standing};
ghost use Rattle.nt_format.specs.Pieces.{piece_or};
ghost use Rattle.nt_container.specs.FileHeader.{file_header_of, directory_place, directory_of};
ghost use Rattle.nt_container.specs.Keys.{anchor_key_of};
ghost use Rattle.nt_container.specs.Anchors.{anchor_of};
ghost use Rattle.nt_tfile.specs.Calls.{Serves, HasSize, ReadsFile, anchor_at};

use crate::anchor_object::{OBJECT_SIZE, anchor_from, check_plain};
use crate::failure::ReadFailure;
use crate::faults::{BAD_KEY_LIST, OUT_OF_FILE, fault};
use crate::file_header::{directory_in, header_in};
use crate::key_list::anchor_key_in;
use crate::window::read_window;
use nt_container::{Anchor, Directory, FileHeader, Key};
use nt_num::ReadError;
use nt_outside::ReadAt;
use std::alloc::Global;

/// The bytes of the longer file header.
const MOST_OF_HEADER: u64 = 75;

/// The bytes of the longer directory.
const MOST_OF_DIRECTORY: u64 = 42;

/// The header of a file of this size.
#[tactic(auto, using(crate::proofs::Windows::read_steps))]
fn read_header<F: ReadAt>(alloc: Global, file: &mut F, size: u64) -> Result<FileHeader, ReadFailure>
    requires { HasSize (F.state file.old) size }
    ensures file { Serves (F.state file.old) (F.state file.new) result }
    ensures read { ReadsFile (λ h. h) file_header_of (F.state file.old) result }
{
    let head = read_window(alloc, file, size, 0, MOST_OF_HEADER)?;
    Ok(header_in(&head, size)?)
}

/// So many bytes of a file of this size from a place on, where they all lie in it; else this fault.
///
/// Memory is taken only for what is read next, whatever length is asked for.
pub fn read_block<F: ReadAt>(
    alloc: Global,
    file: &mut F,
    size: u64,
    at: u64,
    len: u64,
    outside: ReadError,
) -> Result<Vec<u8>, ReadFailure>
    requires { HasSize (F.state file.old) size }
    ensures file { Serves (F.state file.old) (F.state file.new) result }
    ensures read { ReadsFile (λ bytes. standing 0 bytes.items) (λ told. piece_or outside told at len) (F.state file.old) result }
    ensures len { IfOk result (λ bytes. (vec_len bytes ≡ len) × (at + len ≤ size)) }
{
    if u128::from(at) + u128::from(len) > u128::from(size) {
        return Err(ReadFailure::Defect(outside));
    }
    let bytes = read_window(alloc, file, size, at, len)?;
    if bytes.len() as u64 != len {
        return Err(ReadFailure::Defect(outside));
    }
    Ok(bytes)
}

/// The same of a length of 32 bits.
fn read_piece<F: ReadAt>(
    alloc: Global,
    file: &mut F,
    size: u64,
    at: u64,
    len: u32,
    outside: ReadError,
) -> Result<Vec<u8>, ReadFailure>
    requires { HasSize (F.state file.old) size }
    ensures file { Serves (F.state file.old) (F.state file.new) result }
    ensures read { ReadsFile (λ bytes. standing 0 bytes.items) (λ told. piece_or outside told at len) (F.state file.old) result }
    ensures len { IfOk result (λ bytes. (vec_len bytes ≡ len) × (at + len ≤ size)) }
{
    read_block(alloc, file, size, at, u64::from(len), outside)
}

/// The directory of a file of this size, behind the first key's header and the file's name and title.
#[tactic(auto, using(crate::proofs::Windows::read_steps))]
fn read_directory<F: ReadAt>(
    alloc: Global,
    file: &mut F,
    size: u64,
    header: &FileHeader,
) -> Result<Directory, ReadFailure>
    requires { HasSize (F.state file.old) size }
    ensures file { Serves (F.state file.old) (F.state file.new) result }
    ensures read { ReadsFile (λ d. d) (λ told. directory_of told (directory_place header.now)) (F.state file.old) result }
{
    let place = u64::from(header.begin) + u64::from(header.name_len);
    let bytes = read_window(alloc, file, size, place, MOST_OF_DIRECTORY)?;
    Ok(directory_in(place, &bytes)?)
}

/// The anchor's key in the list of keys of a directory, in a file of this size.
#[tactic(auto, using(crate::proofs::Windows::read_steps))]
fn read_anchor_key<F: ReadAt>(
    alloc: Global,
    file: &mut F,
    size: u64,
    directory: &Directory,
) -> Result<Key, ReadFailure>
    requires { HasSize (F.state file.old) size }
    ensures file { Serves (F.state file.old) (F.state file.new) result }
    ensures read { ReadsFile (λ k. k) (λ told. anchor_key_of told directory.now) (F.state file.old) result }
{
    let place = directory.keys;
    let list = read_piece(
        alloc,
        file,
        size,
        place,
        directory.keys_len,
        fault(BAD_KEY_LIST, place),
    )?;
    Ok(anchor_key_in(place, &list)?)
}

/// The anchor of a key, in a file of this size.
#[tactic(auto, using(crate::proofs::Windows::read_steps))]
fn read_anchor<F: ReadAt>(
    alloc: Global,
    file: &mut F,
    size: u64,
    key: &Key,
) -> Result<Anchor, ReadFailure>
    requires { HasSize (F.state file.old) size }
    ensures file { Serves (F.state file.old) (F.state file.new) result }
    ensures read { ReadsFile (λ a. a) (anchor_at key.now) (F.state file.old) result }
{
    check_plain(key)?;
    let outside = fault(OUT_OF_FILE, key.place);
    let place = match key.place.checked_add(u64::from(key.header_len)) {
        Some(place) => place,
        None => return Err(ReadFailure::Defect(outside)),
    };
    let object = read_piece(alloc, file, size, place, OBJECT_SIZE, outside)?;
    Ok(anchor_from(key.place, &object)?)
}

/// The anchor of a file, or the first fault in the order in which they are looked for.
///
/// It reads four windows of the file, of which only the list of keys may be long. Memory is taken
/// for what is read next, and not for what the file claims.
///
/// # Errors
///
/// A defect of the file's bytes has one of the codes 1 to 10. `Fault` comes only where the file's
/// count of faults rose, `Memory` where memory ran out.
#[tactic(auto, using(crate::proofs::Chains::chain_steps))]
pub fn read_tfile<F: ReadAt>(alloc: Global, file: &mut F) -> Result<Anchor, ReadFailure>
    ensures file { Serves (F.state file.old) (F.state file.new) result }
    ensures read { ReadsFile (λ a. a) anchor_of (F.state file.old) result }
{
    let size = file.size()?;
    let header = read_header(alloc, file, size)?;
    let directory = read_directory(alloc, file, size, &header)?;
    let key = read_anchor_key(alloc, file, size, &directory)?;
    read_anchor(alloc, file, size, &key)
}
