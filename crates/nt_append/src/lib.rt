//! Clusters that one writer puts behind each other, with page lists beside them.
//!
//! Start at `append_image` in `appending.rt`: the image of a cluster becomes the next one of a disk and
//! its book. Where the book is due a page list, that list goes in front of it and is noted, in the same
//! call. nt_commit does the same for contexts that write beside each other, and fills its ranges
//! outside the turn; here a range is appended as it is, and entered as settled at once. `laws.rt` has
//! what a caller needs who appends one cluster after the other.
//!
//! Words: those of nt_book and nt_commit. A page list is *due* where the last full group lacks its
//! own (`is_due`); the book *with its due list* is the book once that list is noted (`with_due_list`).
//!
//! Proved: what stands on the disk after each answer, by the bytes of each append in its order, and
//! what the book is then (`ok`, `kept`, `fault` of `append_image`, with `specs/Appending`). The limit that
//! is named is just the first that the image or that list passes (`limits`). Before the first step of
//! the disk all memory is taken and all limits are tested, so a refusal but for a fault leaves disk
//! and book as they were (`kept`). After a fault, which the disk's count tells, the fault is entered; a list
//! that failed tears the book where the disk ends, one that was appended is noted (`fault`). With one cluster
//! more the parts of the file so far go on by just what was appended, and each page list is noted with its size
//! (`appended_parts_go_on`); columns that are added change nothing of that (`added_columns_change_no_part`). Nothing is only
//! tested.
//!
//! Neither proved nor promised: that a limit is named where memory is wanting for the page list that is
//! due, since its length is known once it is made.
#![tactic(auto)]

mod appending;
mod laws;
mod lists;
mod ranges;

pub use appending::append_image;
pub use laws::{added_columns_change_no_part, appended_parts_go_on};
