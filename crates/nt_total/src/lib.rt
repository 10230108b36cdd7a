//! What the numbers of a column come to: how many there are, their sum, the least and the greatest. They are totalled by several threads.
//!
//! Start at `running.rt` (`Running`, what the numbers so far came to, to which a column is added) and `total.rt`
//! (`Running::total`, the integers of it all); `parallel.rt` cuts a column into blocks for the threads, and `piece.rt` is
//! what a block comes to. `lent.rt` totals a block that the column lends as it lies, by its width; another is read into 64 bits first.
//!
//! Words: the *bias* of a width is how many of its elements stand for integers below zero: half of them where there is a sign, and
//! else none. The *key* of an element is its integer plus the bias (excess code), which is its place in the order of these integers.
//! A *piece* is what keys come to. So all sums are of natural numbers, and keep the order.
//!
//! Proved: pieces that are joined, in whatever order the threads end, are the piece of the whole (`keys_in_parallel`), so the total is
//! that of one thread; and it is the total of the integers that the elements stand for, where there are at most 2^60 of them
//! (`Running::total`). That several threads run is claimed nowhere.
//!
//! Choices that bind nobody else: a position of the parallel iterator is a block of 512 numbers, so that no closure is called for each
//! number; fewer than 256 blocks are no work for a second thread; and a block of numbers of at most 32 bits is summed in 64 bits, since
//! no such sum is larger; of numbers of 64 bits the lower and the higher halves are summed apart, each in 64 bits, so that many are
//! added at once.
#![tactic(auto)]

mod lent;
mod parallel;
mod piece;
mod running;
mod total;

pub use parallel::keys_in_parallel;
pub use piece::Piece;
pub use running::Running;
pub use total::{Total, is_integral};
