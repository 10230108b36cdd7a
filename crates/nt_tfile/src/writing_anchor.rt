//! The anchor, the list of keys and the list of free pieces as they are written (own profile).

ghost use Rattle.std.specs.Prelude.{◌≡◌, ◌≤◌, ◌<◌, ◌+◌, ◌^◌, length};
ghost use Rattle.nt_container.specs.Anchors.{fields_size};
ghost use Rattle.nt_container.specs.Spelling.{envelopes, anchor_fields, anchor_object, anchor_key, anchor_part, key_list_part, last_free, free_piece, free_list_part};
ghost use Rattle.nt_container.specs.Lengths.{envelopes_len, anchor_key_len, anchor_part_len, key_list_part_len, free_piece_len, free_list_part_len, most_place};

use crate::writing_key::{FIRST_KEY, write_file_key, write_key};
use nt_container::Anchor;

/// The largest key that is written, MaxKeySize.
const MAX_KEY_SIZE: u64 = 1 << 30;

/// The version of a free piece that has places of 8 bytes.
const FREE_VERSION: u16 = 1001;

/// The bytes of a list of free pieces.
const FREE_LIST_LEN: u64 = 71;

/// The last byte of the free piece, where the file ends before it.
const LAST_FREE: u64 = 2000000000;

/// How far the free piece reaches behind the end of a larger file.
const FREE_REACH: u64 = 1000000000;

/// SeekHeader, NBytesHeader, LenHeader, SeekFooter, NBytesFooter and LenFooter.
#[tactic(auto, unfolding(nt_container::specs::Spelling::envelopes))]
fn write_envelopes(anchor: &Anchor, out: &mut [u8])
    requires { length out.old ≡ envelopes_len }
    ensures { out.new ≡ envelopes anchor.now }
{
    let (header, out) = out.split_at_mut(8);
    header.copy_from_slice(&anchor.header.to_be_bytes());
    let (header_size, out) = out.split_at_mut(8);
    header_size.copy_from_slice(&anchor.header_size.to_be_bytes());
    let (header_len, out) = out.split_at_mut(8);
    header_len.copy_from_slice(&anchor.header_len.to_be_bytes());
    let (footer, out) = out.split_at_mut(8);
    footer.copy_from_slice(&anchor.footer.to_be_bytes());
    let (footer_size, footer_len) = out.split_at_mut(8);
    footer_size.copy_from_slice(&anchor.footer_size.to_be_bytes());
    footer_len.copy_from_slice(&anchor.footer_len.to_be_bytes());
}

/// Version 1.0.0.0, both envelopes, and the largest key.
#[tactic(auto, unfolding(nt_container::specs::Spelling::anchor_fields))]
fn write_fields(anchor: &Anchor, out: &mut [u8])
    requires { length out.old ≡ fields_size }
    ensures { out.new ≡ anchor_fields anchor.now }
{
    let (epoch, out) = out.split_at_mut(2);
    epoch.copy_from_slice(&1u16.to_be_bytes());
    let (versions, out) = out.split_at_mut(6);
    versions.copy_from_slice(&[0, 0, 0, 0, 0, 0]);
    let (envelopes, max_key_size) = out.split_at_mut(48);
    write_envelopes(anchor, envelopes);
    max_key_size.copy_from_slice(&MAX_KEY_SIZE.to_be_bytes());
}

/// The last byte of the free piece behind a file that ends there.
fn last_free(end: u64) -> u64
    requires { end < 2 ^ 63 }
    ensures { result ≡ last_free end }
{
    if end < LAST_FREE {
        LAST_FREE
    } else {
        end + FREE_REACH
    }
}

/// The header of the anchor's key at a place.
#[tactic(auto, unfolding(nt_container::specs::Spelling::anchor_key))]
fn write_anchor_key(place: u64, out: &mut [u8])
    requires { length out.old ≡ anchor_key_len }
    ensures { out.new ≡ anchor_key place }
{
    write_key(
        78,
        place,
        u64::from(FIRST_KEY),
        b"ROOT::RNTuple",
        b"events",
        out,
    );
}

/// The anchor of a file with its key, which starts there.
#[tactic(auto, unfolding(nt_container::specs::Spelling::anchor_part, nt_container::specs::Spelling::anchor_key, nt_container::specs::Spelling::anchor_object))]
pub fn anchor_bytes(anchor: &Anchor, start: u64, out: &mut [u8])
    requires length { length out.old ≡ anchor_part_len }
    requires start { start ≤ most_place }
    ensures { out.new ≡ anchor_part start anchor.now }
{
    let (key, object) = out.split_at_mut(56);
    write_key(
        78,
        start,
        u64::from(FIRST_KEY),
        b"ROOT::RNTuple",
        b"events",
        key,
    );
    let (head, object) = object.split_at_mut(6);
    head.copy_from_slice(&[0x40, 0, 0, 0x42, 0, 2]);
    let (fields, sum) = object.split_at_mut(64);
    write_fields(anchor, fields);
    sum.copy_from_slice(&nt_xxh3::sum(fields).to_be_bytes());
}

/// The list of keys that starts there, with the key of the anchor at its place alone.
#[tactic(auto, unfolding(nt_container::specs::Spelling::key_list_part))]
pub fn key_list_bytes(start: u64, anchor_start: u64, out: &mut [u8])
    requires length { length out.old ≡ key_list_part_len }
    requires start { start ≤ most_place }
    requires anchor { anchor_start ≤ most_place }
    ensures { out.new ≡ key_list_part start anchor_start }
{
    let (own, out) = out.split_at_mut(53);
    write_file_key(60, start, u64::from(FIRST_KEY), own);
    let (count, key) = out.split_at_mut(4);
    count.copy_from_slice(&1u32.to_be_bytes());
    write_anchor_key(anchor_start, key);
}

/// A free piece, by its first and its last byte.
#[tactic(auto, unfolding(nt_container::specs::Spelling::free_piece))]
fn write_free_piece(first: u64, last: u64, out: &mut [u8])
    requires { length out.old ≡ free_piece_len }
    ensures { out.new ≡ free_piece first last }
{
    let (version, out) = out.split_at_mut(2);
    version.copy_from_slice(&FREE_VERSION.to_be_bytes());
    let (of_first, of_last) = out.split_at_mut(8);
    of_first.copy_from_slice(&first.to_be_bytes());
    of_last.copy_from_slice(&last.to_be_bytes());
}

/// The list of free pieces that starts there, of a file that ends where it is said.
#[tactic(auto, unfolding(nt_container::specs::Spelling::free_list_part))]
fn write_free_list(start: u64, end: u64, out: &mut [u8])
    requires length { length out.old ≡ free_list_part_len }
    requires end { end < 2 ^ 63 }
    ensures { out.new ≡ free_list_part start end }
{
    let (own, piece) = out.split_at_mut(53);
    write_file_key(18, start, u64::from(FIRST_KEY), own);
    write_free_piece(end, last_free(end), piece);
}

/// The list of free pieces that starts there, at whose end the file ends.
pub fn free_bytes(start: u64, out: &mut [u8])
    requires length { length out.old ≡ free_list_part_len }
    requires start { start ≤ most_place }
    ensures { out.new ≡ free_list_part start (start + free_list_part_len) }
{
    let end = start + FREE_LIST_LEN;
    write_free_list(start, end, out);
}
