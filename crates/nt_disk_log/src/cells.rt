//! Lists of bytes and of cells, as steps leave them to a crash.

ghost use Rattle.std.specs.Prelude.{◌≡◌, ◌+◌, ◌≤◌, length, drop, vec_len, map, Some, OnOk, IfOk};
ghost use Rattle.nt_lists.specs.Places.{put_at};
ghost use Rattle.nt_disk_log.specs.Left.{renewed, failed_over, worst};

use crate::bytes::put_over;
use std::alloc::{AllocError, Global};

/// Puts cells over those at a place.
pub fn put_cells(list: &mut Vec<Option<u8>>, at: usize, cells: &[Option<u8>])
    requires { at + length cells.now ≤ vec_len list.old }
    ensures items { list.new.items ≡ put_at list.old.items at cells.now }
    ensures len { vec_len list.new ≡ vec_len list.old }
{
    list[at..at + cells.len()].copy_from_slice(cells);
}

/// Puts over a place what a failed write leaves there: of a single byte the old one, of others zeros.
pub fn fail_over(
    alloc: Global,
    list: &mut Vec<u8>,
    at: usize,
    bytes: &[u8],
) -> Result<(), AllocError>
    requires { at + length bytes.now ≤ vec_len list.old }
    ensures items { OnOk result (list.new.items ≡ put_at list.old.items at (failed_over bytes.now (drop at list.old.items))) }
    ensures len { vec_len list.new ≡ vec_len list.old }
{
    if bytes.len() == 1 {
        return Ok(());
    }
    let zeros = vec![in alloc; 0u8; bytes.len()]?;
    put_over(list, at, &zeros);
    Ok(())
}

/// What a write leaves newest at a place.
pub fn renewed(
    alloc: Global,
    bytes: &[u8],
    old: &[Option<u8>],
    at: usize,
) -> Result<Vec<Option<u8>>, AllocError>
    requires { at + length bytes.now ≤ length old.now }
    ensures items { IfOk result (λ cells. cells.items ≡ renewed bytes.now (drop at old.now)) }
    ensures len { IfOk result (λ cells. vec_len cells ≡ length bytes.now) }
{
    if bytes.len() == 1 && old[at].is_some() {
        return vec![in alloc; Some(bytes[0]); 1];
    }
    vec![in alloc; None; bytes.len()]
}

/// The cells of bytes that are all newest.
pub fn cells_of(alloc: Global, bytes: &[u8]) -> Result<Vec<Option<u8>>, AllocError>
    ensures { IfOk result (λ cells. cells.items ≡ map Some bytes.now) }
{
    bytes.iter().map(|byte| Some(*byte)).collect(alloc)
}

/// The byte that the worst file has at a place.
pub fn worst(cell: Option<u8>) -> u8
    ensures { result ≡ worst cell }
{
    match cell {
        Some(byte) => byte,
        None => 255,
    }
}
