//! A cursor over borrowed bytes, numbers as bytes in either order, and the faults of a file.
//!
//! Each reader of files stands on this crate. The codes of faults are shared by all layers: touch
//! `specs/Faults` only to add one at the end.
//!
//! Where to start: `cursor.rt`, with `specs/Place` (a place and the bytes left from it on) and
//! `specs/Cursor` (what is read there).
//!
//! Words: a *place* counts bytes from some beginning; a read is *short* where fewer bytes are left
//! than it needs; *little* and *big* are the orders of bytes.
//!
//! Proved: each reader gives the value of the next bytes and moves behind them, or stays exactly
//! where fewer are left (`reading`, `moves`); each writer appends the number's bytes, or nothing
//! (`ok`, `err`); the name of a fault is that of the table (`ReadError::name`).
//!
//! Only tested: that the orders, signs and names are the usual ones.
#![tactic(auto)]

mod cursor;
mod fault;
mod put;

pub use cursor::{Cur, Short};
pub use fault::ReadError;
pub use put::{put_u16be, put_u16le, put_u32be, put_u32le, put_u64be, put_u64le};

#[cfg(test)]
mod tests;
