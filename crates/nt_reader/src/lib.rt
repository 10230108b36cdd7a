//! The whole reader of a file.
//!
//! Start with `Reader::attach`, which reads the anchor, header and footer of a file and the page lists
//! of its groups (`describing`, `groups`), and then `Reader::cluster`, which loads the pages of a
//! cluster's open columns by nt_listing and looks at their values (`cluster`), or
//! `Reader::cluster_in`, which does that in the memory of pages of before.
//! `ClusterRead::entry` gives the trees of an entry, `ClusterRead::write_entry` its line,
//! `ClusterRead::columns` single elements and texts, which are borrowed where they lie in one page, and
//! `pages`, `page` and `page_bytes` the pages as they are stored. Before
//! any page is read, `Reader::pages_of`, `count_of` and `zeros_of` say how many elements a column has
//! (`listed`). What they answer is said in nt_file_meaning.
//!
//! Who goes over all values of a cluster decodes it by nt_decoded, which is faster then; it also has some of the trees of an entry and
//! single numbers of it.
//!
//! Words: those of nt_file_meaning and nt_view; an `Envelope` here is one that was read, its payload and its checksum.
//!
//! Proved: wherever the file tells its bytes, `attach` answers exactly `outline_of`, and `cluster` and
//! `cluster_in` exactly `cluster_of` of nt_file_meaning, the first fault and its place included (`read`);
//! the elements of a cluster's columns are those of its pages (`columns`), and these are all pages of its open
//! columns, with the bytes that the file tells (`loaded`); a fault of the outside comes
//! only where the file's count rose (`file`); an entry is that of the cluster (`entry`), its line is
//! that of event text (`write_entry`), and it fits the schema (`entries_fit`), also of a file that doesn't tell its bytes.
//!
//! Not proved: that memory is that of the page lists and of one cluster, the largest of those
//! that use it one after the other, whatever a file claims: nothing is reserved for a number in it
//! before the bytes that bear it out were found, but for a cluster as much as the file has.
//!
//! Choices that bind nobody else:
//! - `ClusterRead` borrows the schema of its reader, so that `entry` takes none.
//! - A fault or a frame whose place in the file doesn't fit 64 bits, which no machine can hold, is want of memory.
//! - The clusters of a page list are copied once, with places that count from the file's beginning.
#![tactic(auto)]

mod cluster;
mod describing;
mod envelope;
mod faults;
mod groups;
mod known;
mod listed;
mod moving;
mod reader;

pub use cluster::{ClusterRead, check_cluster};
pub use envelope::{Block, Envelope, read_sealed};
pub use reader::Reader;
