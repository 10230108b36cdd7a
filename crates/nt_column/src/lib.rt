//! Columns in memory: buffers that keep each element at its own width, and sets of them by column.
//!
//! `push`, `push_at_width`, `push_page` and `number` are on the hot path of every event: they take no memory, and `reserve`
//! does it before, or `ready`, which gives the count too. `Columns` is how others read columns; keep it free of buffers.
//!
//! A reader fills a column by `begin`, a `push_page` of the `PageBuf` for each page, and `end`; before the next cluster it calls
//! `recycle`. Pages are then decoded over the elements of the cluster before, and only the elements that the column has more of
//! than there were are set to zero first.
//!
//! Where to start: `buffer.rt` with `specs/Column` (what a buffer holds) and `specs/Elements` (the
//! elements and their page); `adding.rt` for how elements are added, `page_buf.rt` with `filling.rt` for how pages are read,
//! `store_page.rt` for the pages of each width; `set.rt` and `columns.rt` for columns by id.
//!
//! Words: an *element* is a number and a tag, which is 0 but in a Switch; a *plain* element has
//! tag 0; *zeros* are a column kept as its count; *spare* is how many elements can still be pushed; *kept*
//! memory is for pages, and its elements mean nothing; *filled* is how many first elements of such memory are those of pages.
//!
//! Proved: a push adds its element and takes no memory (`column`, `spare`), also where its caller names the width; a reserve changes no
//! element; a page is read straight into a buffer (`push_page`, by `page_elements`), also over elements of before (`PageBuf`:
//! `page`, and where memory is wanting `failed`), which the column then has as its own (`begin`, `end`); a buffer
//! is cut to its first elements (`cut`); the page of any part (`encode`, by `page_of`); the number of pages (`page_cut`, by
//! nt_lists' `chunks`); a page's size (`pages_have_their_size`); a set lends its buffers and
//! answers elements, tags and texts (`Columns`), a text of 8 bits without a copy (`lent`); a column's
//! elements are lent as they lie (`words`), but those of a Switch or of a count of zeros; each
//! element is one of its column's type (`in_range`, of a buffer and of `Columns`).
//!
//! Only tested: pages against tables that were made outside, and a set handed to another thread.
//!
//! Choices that bind nobody else:
//! - A buffer keeps elements in a vector of their width: bytes for types of 8 bits, single truth values, words of 16, 32 and 64
//!   bits; a Switch in one of indices and one of tags. All are coded as they lie.
//! - Memory for pages is beside that for pushes, so that no push looks at it. A `PageBuf` counts its own elements, since those
//!   behind them are those of before.
//! - The text of a column that hasn't 8 bits is the low bytes of its elements, as a copy: the call has an answer for each column,
//!   and needs no condition on types. A text is lent where the column has 8 bits and keeps its elements.
//! - A column that isn't in a set has no elements: `len` has an answer for each number.
#![tactic(auto)]

mod adding;
mod buffer;
mod columns;
mod cow;
mod filling;
mod laws;
mod low_bytes;
mod page_buf;
mod pairs;
mod ranges;
mod set;
mod store;
mod store_page;
mod widths;
mod words;
mod zero_page;

pub use buffer::ColumnBuf;
pub use columns::Columns;
pub use cow::CowSlice;
pub use laws::{buffers_can_be_shared, pages_have_their_size};
pub use page_buf::PageBuf;
pub use set::ColumnSet;
pub use words::WordSlice;
