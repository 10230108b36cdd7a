//! Contexts that write the clusters of one file beside each other.
//!
//! Begin at `Committer`. It holds a disk and its book under a turn. `Committer::new` makes it and its first pass; `enter` gives a
//! context a pass and a pen. `commit` reserves the range of a cluster and enters it in the book, in one hold of the turn, and
//! hands out a `Claim`. If the book is due the page list of a full group, it appends and notes that list first, in the same
//! hold. Outside the turn the context fills the claim's extent with its pen. `settle` hands the range back, or `spoil` after the
//! pen failed. `leave` joins the pass of a context, and `finish` gives disk and book back. Where clusters are staged, which the
//! book of the birth says, `stage` comes in the place of `commit`: it reserves a range, and `publish` makes all ranges of a
//! context the next clusters, once each is settled.
//!
//! Disk and book are *in step*: both are what one history makes of the disk as it was begun, and page lists beside it (`IsInStep`
//! in `specs/Locked.antt`, which is the invariant of `Locked`). What a call does in its hold of the turn, and what its pass knows
//! of that, stands in `specs/Holds.antt`; what is said of page lists in `specs/Lists.antt`.
//!
//! Proved: `commit` adds just the one cluster to the pass's own list, and hands out an extent of the book's start and length that
//! isn't filled; its limits are those of the history that the pass has then seen, and of no earlier one, behind the page list
//! that is due (`limit`); a fault only where the disk's count rose in this hold, with that count in the own list; the key of the
//! place stands in the image (`commits`, `image`). `stage` does the same with a range that is no cluster yet, and no page list;
//! `publish` adds the one entry with all ranges of the pass, in their order, or leaves all as it was (`publishes`). `settle` adds the bytes of the extent (`settles`), `spoil` the disk's count,
//! which rose (`spoils`). `finish` gives one history with each pass's own entries (`closes`), of which disk and book are made,
//! none of its ranges is longer than the limits let it be, and where the disk told what it held, each that is settled has its
//! bytes; the page lists that the book notes were appended where it notes them, each the list of its group of the book as it is
//! now; a list whose append failed tore the book, and is entered as a fault (`in_step`). No step covers what stood before: so a
//! crash at any step leaves a file that isn't finished, if the disk came with one that is shut (`disk`).
//!
//! Neither proved nor promised: that a pass ever gets the turn, or that two contexts run beside each other; that a limit is named
//! where memory is wanting for the page list that is due: its length is known once it is made.
#![tactic(auto)]

mod claim;
mod clusters;
mod committer;
mod committing;
mod contexts;
mod error;
mod key;
mod lists;
mod locked;
mod pens;
mod ranges;
mod shared;

pub use claim::Claim;
pub use committer::{Committer, CommitterOf};
pub use error::CommitError;
pub use key::write_key;
pub use lists::{blob_at, link_of};
pub use locked::{Birth, Locked};
pub use shared::committers_cross_threads;
