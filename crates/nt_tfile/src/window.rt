//! Windows of a file, read into memory.

ghost use Rattle.std.specs.Prelude.{◌≡◌, ◌+◌, ◌≤◌, ℕ, List, ◌++◌, take, drop, Some, IfOk, OnOk};
ghost use Rattle.nt_outside.specs.Faults.{RoseOnFailed};
ghost use Rattle.nt_format.specs.Pieces.{window};
ghost use Rattle.nt_tfile.specs.Calls.{HasSize, most_at_once};

use nt_outside::{ReadAt, Refused};
use std::alloc::Global;

/// How many bytes are read at once, at most.
const MOST_AT_ONCE: usize = 1 << 20;

/// Appends `step` bytes of a file from place `at` on, or as many as it gives.
fn read_more<F: ReadAt>(
    file: &mut F,
    at: u64,
    step: usize,
    bytes: &mut Vec<u8>,
) -> Result<(), Refused>
    requires { step ≤ most_at_once }
    ensures same { (F.state file.new).bytes ≡ (F.state file.old).bytes }
    ensures cause { RoseOnFailed (F.state file.old).faults (F.state file.new).faults result }
    ensures bytes { (told : List ℕ) → (F.state file.old).bytes ≡ Some told
        → OnOk result (bytes.new.items ≡ bytes.old.items ++ take step (drop at told)) }
{
    let filled = bytes.len();
    bytes.resize(filled + step, 0)?;
    let count = file.read_at(at, &mut bytes[filled..])?;
    bytes.truncate(filled + count);
    Ok(())
}

/// The bytes of a file of this size from place `at` on, at most so many. Memory is taken only for a
/// piece that is read next.
pub fn read_window<F: ReadAt>(
    alloc: Global,
    file: &mut F,
    size: u64,
    at: u64,
    most: u64,
) -> Result<Vec<u8>, Refused>
    requires { HasSize (F.state file.old) size }
    ensures same { (F.state file.new).bytes ≡ (F.state file.old).bytes }
    ensures cause { RoseOnFailed (F.state file.old).faults (F.state file.new).faults result }
    ensures bytes { (told : List ℕ) → (F.state file.old).bytes ≡ Some told → IfOk result (λ bytes. bytes.items ≡ window most told at) }
{
    let count = size.saturating_sub(at).min(most) as usize;
    let mut bytes = Vec::new(alloc);
    for i in 0..count.div_ceil(MOST_AT_ONCE) {
        let from = i * MOST_AT_ONCE;
        let step = (count - from).min(MOST_AT_ONCE);
        read_more(file, at + from as u64, step, &mut bytes)?;
    }
    Ok(bytes)
}
