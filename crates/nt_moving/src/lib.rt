//! Entries of columns to other columns: the elements of chosen values, moved without trees.
//!
//! Start at `entry.rt` with `move_chosen`, then `moving.rt`, the walk over the plans of the columns that get
//! elements and the levels that others give (`level.rt`), `forms.rt`, what a level of a known form holds,
//! `words.rt` and `texts.rt`, numbers and bytes as they lie, `leaves.rt` and `integers.rt`, one number,
//! `ends.rt`, an end, and `room.rt`, how many elements there will be at most. Ends and indices count from the beginning of a
//! cluster (RNTuple Binary Format Specification 1.0.0.0, section Column Description), so they are counted anew, and only
//! what lies inside is moved.
//!
//! Words: those of nt_trees, nt_join and nt_shred; a *level* is what an element says: a number, or where what lies inside stands;
//! to *move* a value is to add the elements that its tree would add, read from other columns.
//!
//! Proved: what is added for an entry is exactly what nt_shred's `shred` adds of its chosen trees (`added`), so that columns stay
//! sound and these trees are those of the new element (`last`); types stay (`set`); where memory is wanting, no column has
//! changed (`refused`), since all growth comes first.
//!
//! Only tested: nothing. Not proved: that nothing but room for elements takes memory, and how long it takes.
//!
//! Choices that bind nobody else:
//! - The walk follows the plans of the columns that get elements. Of the others nothing is required but that they can be read and that
//!   their values fit: an optional there may be a plain value here, and an integer may have another width.
//! - Numbers of a list are moved as they lie where both columns have one width and sign, and else one by one.
//! - Bytes of texts are moved as they lie, or one by one where they don't lie together. So nothing can fail once there is room.
//! - Room is made as nt_shred makes it for trees: as many elements in each column as the entry adds to any one of them at most.
#![tactic(auto)]

mod ends;
mod entry;
mod forms;
mod integers;
mod leaves;
mod level;
mod moving;
mod room;
mod texts;
mod words;

pub use entry::move_chosen;
