//! The work of `scan`: the totals of every number in a file.
//!
//! Start at `scanning.rt` (`scan`, the totals of columns) and `lines.rt` (`scan_file`, a line for each number leaf). `leaf.rt` says which
//! fields are such leaves, `counting.rt` counts their elements by the page lists before any page is read, and `adding.rt` goes over
//! the clusters; the numbers of a column in a cluster are totalled by nt_total.
//!
//! Words: a *number leaf* is a field of integers, characters or bytes that lies in an open field; a column has *too many* elements
//! where they are more than 2^60.
//!
//! Proved: of a file that tells its bytes, the totals are those of the elements of each column in all clusters, joined (`scan`, by
//! `IsScanOf`), and the lines are theirs (`scan_file`, by `ScansAs`); a defect is the file's first fault, and `TooMany` comes exactly
//! where a column has too many elements, of the lowest such column; a fault comes only where the file's count rose.
//!
//! Choices that bind nobody else: the count of elements that is told is at most 2^64 - 1, also where the page lists say more. The
//! lines are gathered, since there is at most one for each field.
#![tactic(auto)]

mod adding;
mod counting;
mod error;
mod leaf;
mod lines;
mod scanning;
mod totals;

pub use counting::MOST_ELEMENTS;
pub use error::ScanError;
pub use leaf::{Leaf, leaves_of};
pub use lines::scan_file;
pub use scanning::scan;
pub use totals::Totals;
