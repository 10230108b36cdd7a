//! What the bytes of page lists and footers mean, in definitions, laws and plain structs: nothing
//! here runs (RNTuple Binary Format Specification 1.0.0.0, sections Page List Envelope and Footer
//! Envelope).
//!
//! A *page list* tells of the clusters of a group, and where the pages of each column lie in them;
//! a *footer* tells of a schema's extension, and where the page list of each group lies. Start at
//! `PageLists` and `Footers` in specs, the readings: what stands there, or the first fault in the
//! order of the bytes. `Writing` and `FooterWriting` are the spellings, `ReadingBack` says what
//! these can hold and what they are read as.
//!
//! Words: a *summary* tells the entries of a cluster; what is *known* of a column is what a schema
//! tells of it; a column is *listed* where a cluster has pages of it or a list of none; its
//! *offset* is the index of its first element in a cluster; *progress* is what was read of earlier
//! page lists.
//!
//! Proved, each as the contract of a function with an empty body: what is written of clusters and
//! of groups is read back, whatever follows (`page_lists_are_read_back`, `footers_are_read_back`);
//! so are the clusters of a book whose columns have what they must have (`books_are_read_back`); the
//! page list of clusters stays what it is while the book grows behind them (`lists_stay`).
//! That the definitions are the standard's is tested by the crates above, on bytes from outside.
//!
//! Choices that bind nobody else: the fault of a cluster's first entry, of its flags, or of too
//! many columns carries the cluster, with column 0.
#![tactic(auto)]

mod cluster;
mod column;
mod group;
mod laws;
mod page;

pub use cluster::{ClusterList, ClusterLists, ClusterSummary, ColumnList, ColumnLists};
pub use column::KnownColumn;
pub use group::{Group, Groups};
pub use laws::{books_are_read_back, footers_are_read_back, lists_stay, page_lists_are_read_back};
pub use page::{PageItem, PageItems};
