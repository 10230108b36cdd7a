//! Images of clusters: the pages of all columns with their checksums, and where they lie.
//!
//! An image is written to the file in one piece, so its memory is taken at once and each page is
//! hashed right after it is encoded. Keep both.
//!
//! Where to start: `building.rt` with `specs/Image` (the bytes of a cluster) and `specs/Metas`
//! (where its pages lie); `page.rt` for one page; `partial.rt` for an image while it is written.
//!
//! Words: the *payload* is all pages one after the other; the *image* is the payload behind the
//! *room* for its key; a *stored page* has its checksum behind it; a *place* counts from the
//! beginning of the payload; a *meta* is what is kept of a page or of a cluster.
//!
//! Proved: `build` gives the image and its metas (`bytes`, `meta`), and so does `build_in`, in the memory of an earlier one;
//! the size that is reserved is the image's (`image_size`); at the place of each page lie its bytes and their checksum
//! (`pages_lie_where_said`); what is kept of a cluster is what a book asks (`clusters_are_paged`); a key is written into its
//! room (`put_key`); an image can move to another thread (`images_can_move`).
//!
//! Only tested: that no more memory is taken than that; images against tables made outside.
//!
//! Choices that bind nobody else:
//! - An image is too large where its size is no number of 64 bits, or memory refuses it; both are want of memory. It is reserved
//!   at once, and its size is computed before.
//! - Memory of an earlier image isn't filled before it is written over. Filled with zeros, page by page, is what no earlier image
//!   had, since a slice is of bytes that have values: the first image, the end of one that is longer than the one before it, and
//!   an image whose memory is taken anew.
//! - Zeros that are kept as their count are written as pages like any others: an image is that of the elements, however they are
//!   kept.
#![tactic(auto)]

mod building;
mod columns;
mod image;
mod laws;
mod page;
mod partial;
mod size;

pub use building::{build, build_in};
pub use image::{ClusterImage, images_can_move};
pub use laws::{clusters_are_paged, pages_lie_where_said};
