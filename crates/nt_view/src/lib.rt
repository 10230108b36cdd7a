//! The pages of a cluster, loaded as they are stored.
//!
//! All of it is on the hot path of a reader: each byte of a page is read once, straight to where it stays, and hashed while it is in
//! the cache. Keep that; memory is taken for the lists alone, and `load_over` takes it from the cluster before.
//!
//! Where to start: `cluster.rt` (`ClusterBytes`) with `specs/Loaded` (what was loaded, and what columns it gives) and `specs/Loads`
//! (what a file gives of a list of pages, or its first fault). `reading.rt` reads the stored bytes (`specs/Stores`), `table.rt` says
//! of each column where its elements lie (`specs/Table`), `lookup.rt` looks up elements by that, `place.rt` finds the page of an element
//! and `column.rt` reads values of pages (`specs/Pages`); `view.rt` sees one page by itself (`specs/Views`).
//!
//! Words: the *stored* bytes of a page are its own and, where it has one, the checksum behind them; the *store* has those of all
//! pages, one page behind the other; a page is *laid* where it has its place there; numbers of a split index are *added up* once,
//! since each is the sum of those before it in its page.
//!
//! Proved: a load gives the stored bytes of each page, as the file has them, or the first fault: a page that doesn't lie in the file,
//! or whose checksum is another (`read`, by `load_of`); a fault of the outside is answered only where its count rose (`file`); the
//! bytes of a page without its checksum (`page_bytes`), and each of its values (`view`, `value`); and of what is kept beside the store,
//! that it says of each column just the elements that its pages give (the invariant of `ClusterBytes`, `IsClusterLaid`). So a cluster
//! answers as the decoded columns would (`Columns`, by `loaded_elements`): lengths, numbers, tags, texts and runs of numbers, of each
//! type of column and of zeros; and a text
//! is borrowed exactly where its elements are of 8 bits and lie in one page, or are none (`lent`, `only`).
//!
//! Choices that bind nobody else:
//! - Pages that follow one another closely in the file are read at once, up to 128 KiB, so that they are hashed in the cache.
//! - Room for all pages is taken once, but never more than the file has: pages that overlap are legal, and may say more.
//! - A list of more than 2^32 pages, or a column of more than 2^64 elements, is want of memory.
//! - The page of an element is found by one division where all pages have as many elements, else by halves.
//! - A page of a split index is seen with the sums of its column; where its own begin there is counted over the pages before it.
//! - A column of zeros has no type (`kind`): it is told by its pages, and zeros are elements of each type.
//! - Elements of 8 bits that lie in one page and sums of split indices are lent as they lie (`words`); of the others one block after the
//!   other is read (`read`), each up to the end of its page.
#![tactic(auto)]

mod cluster;
mod column;
mod fault;
mod lookup;
mod page_place;
mod place;
mod reading;
mod table;
mod view;
mod wanting;

pub use cluster::ClusterBytes;
pub use fault::ViewFault;
pub use page_place::{PagePlace, ZeroColumn};
pub use view::PageView;
