//! Images of clusters that are copied from other files, page by page as they are stored there.
//!
//! Start at `copied_image` in `image.rt`: of a cluster whose pages were loaded by nt_view it makes the image that goes to a file, and
//! what is kept of it (`specs/Copied.antt`). No element is decoded. Which file such images make is said in nt_copied.
//!
//! Words: those of nt_view, nt_pages and nt_copied; a *part* of pages are those from one place of a cluster's list to before another.
//!
//! Proved of `copied_image`: behind the room for its key the image has, column by column, the stored pages that have elements, each with
//! its checksum behind it, where the checksums that were loaded are right, as those of a file are that tells its bytes (`bytes`); the
//! image is as long as is kept of it (`len`), each page lies where is kept of it (`meta`), and that is what a book asks of a cluster (`paged`). The pages that
//! nt_listing loads of a file that tells its bytes are copied just as nt_copied says of a source (`loaded_pages_are_stored`), so that the image with the key of
//! its place is a copy of the cluster (`keyed_images_are_copies`).
//!
//! Not proved: that a page is hashed only where it had no checksum: one that had it was hashed when it was loaded, and its checksum is
//! copied with it. That memory is taken at once, and none for a page.
//!
//! Choices that bind nobody else: pages without elements are left out; a page of 2^31 elements or more, which no page list tells, and more
//! entries than bits, which no cluster has, are want of memory.
#![tactic(auto)]

mod image;
mod laws;

pub use image::copied_image;
pub use laws::{keyed_images_are_copies, loaded_pages_are_stored};
