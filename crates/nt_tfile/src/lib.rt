//! ROOT's container around an ntuple, read from any file and written into slices. It follows places
//! alone: file header, directory, list of keys, the first key of the class `ROOT::RNTuple`, and the
//! anchor that stands behind it. What the bytes mean is said in `nt_container`.
//!
//! The writers put each part into a slice of its length, without memory, exactly as `nt_container`
//! spells it: `begin_bytes`, `header_bytes`, `directory_bytes`, `blob_key`, `anchor_bytes`,
//! `key_list_bytes` and `free_bytes`.
//!
//! Start with `read_tfile`. Its clause `read` says that the answer is exactly that reading wherever
//! the file tells its bytes, the fault's code, place and values included; its clause `file` that a
//! fault of the outside comes only where the file's count rose. That it reads few and large pieces,
//! and takes memory for no more than it reads next, no clause says.
#![tactic(auto)]

mod anchor_object;
mod failure;
mod faults;
mod file_header;
mod key_list;
mod keys;
mod reading;
mod window;
mod words;
mod writing_anchor;
mod writing_file;
mod writing_key;

pub use failure::ReadFailure;
pub use reading::{read_block, read_tfile};
pub use writing_anchor::{anchor_bytes, free_bytes, key_list_bytes};
pub use writing_file::{begin_bytes, directory_bytes, header_bytes};
pub use writing_key::blob_key;
