//! The columns of a cluster, decoded, for who goes over all values of a file.
//!
//! Start with `decode_cluster` (`cluster`), which reads the pages of a cluster's open columns (`columns`, `pages`), decodes each while its
//! bytes are in the cache (`window`), and looks at the values; it takes the memory of a cluster of before (`reuse`).
//! `DecodedCluster::write_entries` gives the lines of entries, and `DecodedCluster::columns` all elements; `choosing` has some of the trees
//! of an entry, a number of it, and by which plans its columns are read.
//!
//! `ClusterRead` of nt_reader keeps the pages of a cluster as they are stored, and lends them. It takes no memory for a text, and decodes
//! only what it is asked for; printing all entries takes longer by it.
//!
//! Words: those of nt_file_meaning and nt_reader; a *window* is a run of bytes of a file that were read at once.
//!
//! Proved: wherever the file tells its bytes, `decode_cluster` answers exactly `cluster_of` of nt_file_meaning, the first fault and its
//! place included (`read`), as `Reader::cluster` does, and the elements of a cluster's columns are those of its pages (`columns`); a fault
//! of the outside comes only where the file's count rose (`file`); the lines of entries are those of event text (`write_entries`); each entry
//! fits the schema (`entries_fit`), and is what the plans read in its columns (`readable`), also of a file that doesn't tell its bytes.
//!
//! Not proved: that pages which follow one another in the file are read by one call, at most 128 KiB at
//! once (only tested); that memory is that of one cluster, the largest of those that use it one after the other.
//!
//! Choices that bind nobody else:
//! - `DecodedCluster` borrows the schema of its reader.
//! - A closed column whose type isn't known is kept as an empty column of bits.
#![tactic(auto)]

mod choosing;
mod cluster;
mod columns;
mod pages;
mod reuse;
mod window;

pub use cluster::{DecodedCluster, decode_cluster};
pub use reuse::KeptMemory;
