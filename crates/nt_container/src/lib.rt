//! The container around an ntuple, ROOT's TFile: what its bytes mean, how a writer spells it, and the
//! laws that join the two. No code here runs; `nt_tfile` reads and writes by these definitions.
//!
//! Start with `specs/Embeds.antt`: in the words of the layout, when a file embeds an anchor. Beside it
//! stands the reading, `anchor_of` of `specs/Anchors.antt`: the anchor, or the first fault.
//! `anchors_are_embedded` proves that the two agree, `finished_is_read` that a file of the writer's
//! parts (`specs/Spelling.antt`, `specs/Finished.antt`) is read as its anchor.
#![tactic(auto)]

mod anchor;
mod laws;
mod parts;

pub use anchor::Anchor;
pub use laws::{
    anchors_are_embedded, begin_is_gated, blobs_are_found, finished_is_read, middles_are_found,
    parts_have_lengths, unfinished_is_first, words_are_read,
};
pub use parts::{Directory, FileFields, FileHeader, Key, Sizes};
