//! Faults of a container.

ghost use Rattle.std.specs.Prelude.{◌≡◌};
ghost use Rattle.nt_num.specs.Faults as faults;

use nt_num::ReadError;

/// A fault at a place.
pub fn fault(code: u8, at: u64) -> ReadError
    ensures { result ≡ faults.fault code at }
{
    fault_with(code, at, 0, 0)
}

/// A fault with what is kept and what is found there.
pub fn fault_with(code: u8, at: u64, kept: u64, found: u64) -> ReadError
    ensures { result ≡ faults.with_values kept found (faults.fault code at) }
{
    ReadError {
        code,
        at,
        cluster: 0,
        column: 0,
        element: 0,
        kept,
        found,
    }
}

pub const UNFINISHED: u8 = 1;

pub const NOT_ROOT: u8 = 2;

pub const BAD_FILE_HEADER: u8 = 3;

pub const BAD_DIRECTORY: u8 = 4;

pub const BAD_KEY_LIST: u8 = 5;

pub const NO_NTUPLE: u8 = 6;

pub const BAD_ANCHOR: u8 = 7;

pub const BAD_EPOCH: u8 = 8;

pub const COMPRESSED: u8 = 9;

pub const OUT_OF_FILE: u8 = 10;
