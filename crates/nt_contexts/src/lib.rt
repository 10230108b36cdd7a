//! The contexts of a writer, one for each source: they come in, run beside each other, and leave one disk and one book.
//!
//! Start at `run_contexts` in `run.rt`. It makes a committer over the disk and the book, lets a context in for each source
//! (`opening.rt`), runs them (`run_all` in `seats.rt`), lets them go (`leaving.rt`), and ends the committer (`ending.rt`).
//! Each seat has the lines of one input, a pass and a pen, and is the job of a worker (nt_pool), which makes a fill context of the last
//! two, runs it to its end and takes it apart again (`run` of the job in `seats.rt`), so that no fill context goes to another thread.
//! A context takes line by line (`running.rt`, `taking.rt`): a line's entry is gathered, and written as a cluster with those before it
//! once they are enough; the rest is written at the end. Staged clusters are published behind the last line, all together, and never
//! where their context failed. It goes on to its own end, whatever the others do.
//!
//! Words: a context is *let in* when it gets its seat, with the lines of its source, a pass and a pen; it *leaves* when its pass is
//! joined, its pen goes back and its source is taken out; the *first pass* is that of the committer, to which all others are joined.
//! Contexts have the numbers of their sources, from 0. A seat is *fresh* before its context ran; a context is *open* while it is alive,
//! has gathered no whole cluster and hasn't published; an entry is *taken* once it is gathered or written; a context *halts* where a
//! cluster of its chunks isn't written, or staged ones aren't published.
//!
//! Proved of `run_contexts`, by `RunsContexts` in `specs/Contexts.antt`: after `Ok` each text is sound, and the clusters of the book
//! are the chunks of all texts, dealt out in the order of the commits, those of each text together where clusters are staged, with
//! their blobs on the disk (`told`), none of them spoiled, no page list torn and no range left that is no cluster (`undamaged`); a
//! bad line is the first of its text, and no text of a lower number has one; a limit is one that the file of all chunks passes, in
//! whatever order they come; the outside is blamed only where the count of the disk or of a source rose
//! (`failed`). Whatever the answer: the disk tells the steps of one legal history behind what it held, with page lists between them
//! (`held`), the book notes each of these as that of its group (`noted`), no range is out, no cluster is longer than a range may get
//! (`short`), the book begins where it did, and the sources come back in their order.
//!
//! Proved of each seat (`Ran` in `specs/Seats.antt`): a context that ended well has written just the entries of its text, in clusters
//! of so many, the last maybe shorter, and has published all of them, once, where clusters are staged. However it ended, it has
//! committed (or reserved, for staged clusters) just the first of the chunks of the entries before the first bad line of its text, one
//! after the other, whole, even where their ranges were spoiled. Each other end has its cause: the first bad
//! line of the text, by its number from 1; a limit that the next chunk, or the page list before it, passes behind a history that its
//! pass has seen; a fault that its source counted or that stands among its own entries; or want of memory. Its pass comes back with
//! no range out.
//!
//! Neither proved nor promised: that contexts run at the same time, or that one ever gets its turn.
#![tactic(auto)]

mod ending;
mod error;
mod leaving;
mod opening;
mod room;
mod run;
mod running;
mod seats;
mod shared;
mod taking;
mod working;

pub use error::RunError;
pub use run::{Ended, run_contexts};
pub use shared::Shared;
