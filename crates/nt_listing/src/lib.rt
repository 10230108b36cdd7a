//! The pages of the open columns of a cluster, listed and loaded at once.
//!
//! Start at `read_columns` in `columns.rt`. It lists the pages by what a page list tells of the cluster (`page_listing.rt`), up to the
//! first whose size isn't that of its elements, loads them by nt_view, and only then tells that wrong size.
//!
//! Words: those of nt_file_meaning and nt_view; pages are *listed* in the order of columns and of their pages.
//!
//! Proved of `read_columns`: wherever the file tells its bytes, the elements are those that nt_file_meaning reads column by column, or the
//! first fault is that one (`read`), so it makes no difference that all pages are loaded at once; the pages are all those of the open
//! columns, none of a wrong size, with the bytes that the file tells (`loaded`); a column with pages is of the type of its row (`types`);
//! the outside is blamed only where the file's count rose (`file`). Nothing is only tested.
//!
//! nt_reader keeps what is loaded here. nt_decoded decodes a cluster page by page while it reads it, and loads none. Both take from here
//! what a row and a page list say of a column (`known_column`, `kind_of_row`, `begins_behind`, `pages_listed`), the faults of pages
//! (`faults.rt`) and want of memory (`Wanting`).
//!
//! A choice that binds nobody else: the pages of a cluster are listed in memory of their own.
#![tactic(auto)]

mod columns;
mod faults;
mod known;
mod page_listing;
mod wanting;

pub use columns::read_columns;
pub use faults::{BAD_PAGE, COMPRESSED, OUT_OF_FILE, fault_with, in_column};
pub use known::known_column;
pub use page_listing::{begins_behind, kind_of_row, pages_listed};
pub use wanting::Wanting;
