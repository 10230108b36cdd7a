//! Writes at places of a file, which need no cursor.

ghost use Rattle.std.specs.Prelude.{◌≤◌, length};

use std::io::ErrorKind;
use std::os::unix::fs::FileExt;

/// Writes bytes from place `at` of a file, and says how many of them before a failure. A write may take only some of them, and a
/// signal may interrupt it: both are no failure, and the next write goes on.
pub fn write_from<F: FileExt>(file: &F, at: u64, bytes: &[u8]) -> usize
    ensures { result ≤ length bytes.now }
{
    let mut written = 0;
    for _ in 0..u64::MAX {
        if written >= bytes.len() {
            return written;
        }
        match file.write_at(&bytes[written..], at.saturating_add(written as u64)) {
            Ok(count) if count > 0 => written += count,
            Err(error) if error.kind() == ErrorKind::Interrupted => {}
            _ => return written,
        }
    }
    written
}
