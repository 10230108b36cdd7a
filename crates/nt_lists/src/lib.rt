//! Plain words on lists, with their laws, and `Bytes`, a list of bytes that is owned: the base on
//! which the other crates stand.
//!
//! Take a word from here before a crate defines its own; add one here once a second crate needs it,
//! and nothing that speaks of files, columns or events. It stands on std alone. `Bytes` says nothing
//! of capacity and allocator, so contracts of several crates can speak of its bytes alone.
//!
//! Where to start: `specs/Chunks` (a list cut into groups), `specs/Places` (bytes at a place),
//! `specs/Parts` (parts with their places), `specs/Beside` (what belongs to groups),
//! `specs/Chaining` (steps that can be refused, one after the other) and `specs/Answering` (a call
//! answers what is defined, or want of memory). `proofs/` has lemmas that other crates' proofs cite.
//!
//! Proved, as laws: `groups_are_cut` (the groups joined are the list; each is full but the last),
//! `writes_keep_the_rest` (what is put at a place stands there, and all else stays),
//! `lists_stand_beside` (items, and what belongs to groups of them, are added behind all there is),
//! `parts_make_the_whole` (parts that lie in order without a gap are the whole). The calls of
//! `Bytes` keep the list (`from_vec`, `as_slice`, `into_vec`) or put bytes over as many others
//! (`put_over`), and take no memory. Nothing is only tested.
#![tactic(auto)]

mod bytes;
mod laws;

pub use bytes::Bytes;
pub use laws::{groups_are_cut, lists_stand_beside, parts_make_the_whole, writes_keep_the_rest};
