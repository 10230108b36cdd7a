//! The file header and the record of the directory as they are written (own profile).

ghost use Rattle.std.specs.Prelude.{◌≡◌, ◌+◌, length, drop};
ghost use Rattle.nt_container.specs.Spelling.{zero_uuid, header_rest, header_numbers, header_words, header_part, directory_numbers, directory_words, record_names, record_part, begun};
ghost use Rattle.nt_container.specs.Lengths.{uuid_len, header_rest_len, header_numbers_len, header_part_len, directory_numbers_len, record_names_len, record_part_len, begun_len};
ghost use Rattle.nt_tfile.specs.Places.{ArePlaces};

use crate::writing_key::{FILE_NAME, FIRST_KEY, TIME, write_file_key, write_tstring};
use nt_container::FileFields;

/// The version of a file whose header has places of 8 bytes.
const FILE_VERSION: u32 = 1063400;

/// The version of a directory that has places of 8 bytes.
const DIRECTORY_VERSION: u16 = 1005;

/// fNbytesName: the first key's header, and the file's name and title.
const NAMES_LEN: u32 = 66;

/// The bytes of the list of keys, and of the list of free pieces.
const KEYS_LEN: u32 = 113;

const FREE_LEN: u32 = 71;

/// The bytes of the file header up to the first key.
const HEADER_LEN: usize = 100;

/// A TUUID of zeros, of version 1.
#[tactic(auto, unfolding(nt_container::specs::Spelling::zero_uuid))]
fn write_uuid(out: &mut [u8])
    requires { length out.old ≡ uuid_len }
    ensures { out.new ≡ zero_uuid }
{
    let (version, out) = out.split_at_mut(2);
    version.copy_from_slice(&1u16.to_be_bytes());
    let (high, low) = out.split_at_mut(8);
    high.copy_from_slice(&0u64.to_be_bytes());
    low.copy_from_slice(&0u64.to_be_bytes());
}

/// fUnits, fCompress, fSeekInfo, fNbytesInfo and the UUID.
#[tactic(auto, unfolding(nt_container::specs::Spelling::header_rest))]
fn write_header_rest(out: &mut [u8])
    requires { length out.old ≡ header_rest_len }
    ensures { out.new ≡ header_rest }
{
    let (units, out) = out.split_at_mut(1);
    units.copy_from_slice(&[8]);
    let (compress, out) = out.split_at_mut(4);
    compress.copy_from_slice(&0u32.to_be_bytes());
    let (info, out) = out.split_at_mut(8);
    info.copy_from_slice(&0u64.to_be_bytes());
    let (info_len, uuid) = out.split_at_mut(4);
    info_len.copy_from_slice(&0u32.to_be_bytes());
    write_uuid(uuid);
}

/// fBEGIN, fEND, fSeekFree, fNbytesFree, nfree and fNbytesName, and the rest.
#[tactic(auto, unfolding(nt_container::specs::Spelling::header_numbers))]
fn write_header_numbers(end: u64, free: u64, out: &mut [u8])
    requires { length out.old ≡ header_numbers_len }
    ensures { out.new ≡ header_numbers end free }
{
    let (begin, out) = out.split_at_mut(4);
    begin.copy_from_slice(&FIRST_KEY.to_be_bytes());
    let (of_end, out) = out.split_at_mut(8);
    of_end.copy_from_slice(&end.to_be_bytes());
    let (of_free, out) = out.split_at_mut(8);
    of_free.copy_from_slice(&free.to_be_bytes());
    let (free_len, out) = out.split_at_mut(4);
    free_len.copy_from_slice(&FREE_LEN.to_be_bytes());
    let (pieces, out) = out.split_at_mut(4);
    pieces.copy_from_slice(&1u32.to_be_bytes());
    let (names_len, rest) = out.split_at_mut(4);
    names_len.copy_from_slice(&NAMES_LEN.to_be_bytes());
    write_header_rest(rest);
}

/// The file header and zeros to the first key, but for its first byte.
#[tactic(auto, unfolding(nt_container::specs::Spelling::header_part, nt_container::specs::Spelling::header_words))]
fn write_behind_first(end: u64, free: u64, out: &mut [u8])
    requires { length out.old + 1 ≡ header_part_len }
    ensures { out.new ≡ drop 1 (header_part end free) }
{
    let (root, out) = out.split_at_mut(3);
    root.copy_from_slice(b"oot");
    let (version, out) = out.split_at_mut(4);
    version.copy_from_slice(&FILE_VERSION.to_be_bytes());
    let (numbers, zeros) = out.split_at_mut(67);
    write_header_numbers(end, free, numbers);
    zeros.fill(0);
}

/// The file header, and zeros to the first key.
#[tactic(auto, unfolding(nt_container::specs::Spelling::header_part, nt_container::specs::Spelling::header_words))]
fn write_header(end: u64, free: u64, out: &mut [u8])
    requires { length out.old ≡ header_part_len }
    ensures { out.new ≡ header_part end free }
{
    let (first, rest) = out.split_at_mut(1);
    first.copy_from_slice(b"r");
    write_behind_first(end, free, rest);
}

/// Two times, fNbytesKeys, fNbytesName, fSeekDir, fSeekParent and fSeekKeys.
#[tactic(auto, unfolding(nt_container::specs::Spelling::directory_numbers))]
fn write_directory_numbers(keys: u64, out: &mut [u8])
    requires { length out.old ≡ directory_numbers_len }
    ensures { out.new ≡ directory_numbers keys }
{
    let (created, out) = out.split_at_mut(4);
    created.copy_from_slice(&TIME.to_be_bytes());
    let (modified, out) = out.split_at_mut(4);
    modified.copy_from_slice(&TIME.to_be_bytes());
    let (keys_len, out) = out.split_at_mut(4);
    keys_len.copy_from_slice(&KEYS_LEN.to_be_bytes());
    let (names_len, out) = out.split_at_mut(4);
    names_len.copy_from_slice(&NAMES_LEN.to_be_bytes());
    let (own, out) = out.split_at_mut(8);
    own.copy_from_slice(&u64::from(FIRST_KEY).to_be_bytes());
    let (parent, of_keys) = out.split_at_mut(8);
    parent.copy_from_slice(&0u64.to_be_bytes());
    of_keys.copy_from_slice(&keys.to_be_bytes());
}

/// The key of the record at 100, and the file's name and title.
#[tactic(auto, unfolding(nt_container::specs::Spelling::record_names))]
fn write_record_names(out: &mut [u8])
    requires { length out.old ≡ record_names_len }
    ensures { out.new ≡ record_names }
{
    let (key, out) = out.split_at_mut(53);
    write_file_key(73, u64::from(FIRST_KEY), 0, key);
    let (name, title) = out.split_at_mut(FILE_NAME.len() + 1);
    write_tstring(FILE_NAME, name);
    write_tstring(b"", title);
}

/// The record at 100: key, name and title, directory and UUID.
#[tactic(auto, unfolding(nt_container::specs::Spelling::record_part, nt_container::specs::Spelling::directory_words))]
fn write_record(keys: u64, out: &mut [u8])
    requires { length out.old ≡ record_part_len }
    ensures { out.new ≡ record_part keys }
{
    let (names, out) = out.split_at_mut(66);
    write_record_names(names);
    let (version, out) = out.split_at_mut(2);
    version.copy_from_slice(&DIRECTORY_VERSION.to_be_bytes());
    let (numbers, uuid) = out.split_at_mut(40);
    write_directory_numbers(keys, numbers);
    write_uuid(uuid);
}

/// Header and record as they are written first: with no places yet, and with 0 for the first byte.
#[tactic(auto, unfolding(nt_container::specs::Spelling::begun))]
pub fn begin_bytes(out: &mut [u8])
    requires { length out.old ≡ begun_len }
    ensures { out.new ≡ begun 0 0 0 }
{
    let (header, record) = out.split_at_mut(HEADER_LEN);
    write_header(0, 0, header);
    write_record(0, record);
    out[0] = 0;
}

/// The file header of a whole file, but for its first byte.
pub fn header_bytes(fields: &FileFields, out: &mut [u8])
    requires length { length out.old + 1 ≡ header_part_len }
    requires places { ArePlaces fields.now }
    ensures { out.new ≡ drop 1 (header_part fields.now.end fields.now.free) }
{
    write_behind_first(fields.end, fields.free, out);
}

/// The record at 100 of a whole file.
pub fn directory_bytes(fields: &FileFields, out: &mut [u8])
    requires length { length out.old ≡ record_part_len }
    requires places { ArePlaces fields.now }
    ensures { out.new ≡ record_part fields.now.keys }
{
    write_record(fields.keys, out);
}
