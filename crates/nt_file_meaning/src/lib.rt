//! What a whole file means, in definitions and laws: nothing here runs.
//!
//! Start with `specs/Holds.antt` and `specs/Describes.antt`. They say in the standard's words when a
//! file holds the entries of a schema: the container embeds an anchor, the anchor leads to header and
//! footer, which describe the schema, the links of the cluster groups lead to the page lists, the
//! listed pages give the columns, and the columns give the trees of the entries. Beside them stands
//! the reading, `read_file` of `specs/Files.antt`: the schema and the entries, or the first fault in
//! the order in which a reader meets it; `Outlines` and `Clusters` are its two halves.
//!
//! Words: an *outline* is the schema of a file with the clusters that its page lists list; a *block*
//! is so many bytes at a place, with their length once they are uncompressed; an envelope is *sealed*
//! by the checksum at its end; a file *means* what is read of it, and has a *defect* where that is a
//! fault.
//!
//! Proved, each as the contract of a function with an empty body: a file is read as an outline, and
//! as a schema and entries, exactly where it has and holds them (`outlines_are_described`,
//! `files_hold_what_they_mean`); a file means one schema and the entries of its clusters, or has one
//! first fault, and never both (`files_have_one_meaning`); a header that is written is read back
//! (`headers_are_read_back`); the entries of a cluster are those that its columns give
//! (`clusters_are_of_their_columns`), and each column has as many elements of its type as its pages
//! list (`columns_are_as_listed`). That the definitions are the standard's
//! rests on reading them.
#![tactic(auto)]

mod cluster_laws;
mod laws;

pub use cluster_laws::{clusters_are_of_their_columns, columns_are_as_listed};
pub use laws::{
    files_have_one_meaning, files_hold_what_they_mean, headers_are_read_back,
    outlines_are_described,
};
