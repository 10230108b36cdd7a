//! Contexts that gather entries in columns, and write them as clusters of one file beside each
//! other.
//!
//! Begin at `FillContext` in `context.rt`. `fill` gathers an entry, and `fill_line` that of a line of event text: it does what
//! nt_event's `read_line` and then `fill` do, without a tree in between, or refuses the line, which is then to be read. A
//! context that is `full` has a cluster's entries, and `flush` writes what is gathered: it makes the image, commits it in one
//! hold of the turn, fills its range with the context's own pen outside the turn, and hands it back in another hold
//! (`writing.rt`). Where clusters are *staged* a flush only reserves their ranges, and `publish` makes them all the next
//! clusters of the file, in one hold (`publishing.rt`). `end` gives pass and pen back. A context is *alive* until its pen fails.
//!
//! Words: those of nt_commit; what a context has *gathered* are the entries that its columns give
//! (`specs/Context`). A pass *gains* entries in its own list.
//!
//! Proved: a flush adds just the Committed (of a staged cluster the Reserved) and the Settled entry of one cluster to the
//! pass's own list, whose bytes and metadata, of this context, are the blob of the gathered entries, and the pen has met no
//! fault more (`ok`, by `WritesCluster`); the limit that it names is the one that this blob passes behind the history that the
//! pass has then seen (`limits`); a fault only where the own list gained a Faulted or a Spoiled entry, and then the pen is gone
//! just where its range was spoiled, which was reserved with the metadata of the gathered entries (`refused.fault`); after any
//! other refusal all is as before but what the pass has seen (`refused.kept`); a flush publishes nothing
//! (`refused.unpublished`), and `publish` adds the one Published entry of all ranges of the pass, each of which is filled, or
//! after a refusal nothing (`publishes`); an entry is gathered whole or not at all (`fill`); of a line that `fill_line` takes,
//! the entry that `read_line` reads is gathered, and of one that it refuses nothing. What holds of each context at any moment
//! is `IsGathering`, the invariant.
//!
//! Neither proved nor promised: when the gate is called, which promises nothing; that a flush ever
//! gets the turn.
//!
//! Choices that bind nobody else:
//! - Columns and image keep their memory from flush to flush; an image takes what it lacks in one
//!   piece. After a refused flush the next image takes its memory anew.
//! - After a pen's failure the gathered entries stay, and nothing can be done with them: a context
//!   that isn't alive takes no entry and no flush.
//! - That the texts of an entry are bytes is read off the columns that hold them (`in_range`), which
//!   costs nothing an element.
//! - The type is generic in what is locked, as a committer and its passes are; `Gathering` is how the
//!   invariant names the one value that is meant.
//! - Nothing is said of contexts that go to another thread: a thread is handed a pass and a pen, makes
//!   its context of them, and ends it.
#![tactic(auto)]

mod columns;
mod context;
mod filling;
mod flushing;
mod publishing;
mod writing;

pub use columns::empty_columns;
pub use context::{FillContext, FillContextOf, Gathering};
