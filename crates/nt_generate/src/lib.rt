//! Writes a file of events that are made, reads it back, and tells the totals of its contexts: the work of the command `gen`.
//!
//! Start at `generating.rt` (`generate`). `made.rt` has the fields of the events and a text for each context, `writing.rt` writes their
//! file on a disk, by the calls that nt_store has for it, `telling.rt` reads it back and prints its totals; `error.rt` is why a file
//! isn't made. What the totals of the contexts are by the order of the commits is said in `specs/Totals.antt`: `reading.rt` adds them up
//! as it reads a file (`totals_in` of `specs/ReadTotals.antt`), by `clusters.rt` a cluster and by `entries.rt` an entry; `lines.rt` makes
//! their lines, and `total_laws.rt` says how clusters add up, and what the totals of drawn events are.
//!
//! Words: what is *made* is so many events of each of so many contexts (`Making` of nt_draws); a file *is made* that is whole, laid out
//! within the limits for the chunks of these events in some order of commits, and means them (`specs/Made.antt`). The clusters *of* a
//! context are those at whose places the order of the commits names it; its *total* is what they come to; what is *counted* stands still at
//! the last number of its type.
//!
//! Proved: after `Ok` the file is made, and out has the lines of the totals of what is made, which are the same at each run; a limit
//! is one that the chunks of what is made pass, in whatever order they are committed, and then the file is left open; after `Memory` it is
//! left open or made, or there is none, and after `Outside` too, unless its first append failed. It is opened to be read only once it is
//! made and its disk came back behind a sync; before that nothing is printed, and then a prefix of these lines, all of them or fewer. A
//! fault of the file that is read back never comes where the host tells its bytes. Wherever a crash comes behind the first sync, it leaves a file that is
//! refused as unfinished, or, where the first byte was written over before, one that is made; behind all steps of `Ok` just that.
//! `Outside` comes only where the host's count rose, and each object that was opened comes back (all by `Generates`).
//!
//! Proved of totals: the numbers of an entry are added to a sum, which stands still at the last number of its type (`add_entry`); one
//! cluster after the other adds up to the totals (`clusters_add_up`); of the bytes of a file that tells them, the totals are exactly those
//! of the entries that nt_file_meaning reads of it, or the defect is exactly its first fault (`tell_totals`); the lines are those of the
//! totals (`total_lines`); in whatever order chunks are dealt out, the clusters of each context are its own chunks
//! (`dealt_chunks_come_back`); the totals of drawn events are their number, that of their chunks, and the sum of their runs and ids
//! (`made_events_have_totals`). That memory is that of one cluster and one entry, no clause says. Tested in
//! test_trials: lines and files that were worked out by hand, and each call of the outside failing in turn.
//!
//! A choice that binds nobody else: the numbers are taken from the trees of an entry, one entry after the other, since totals are stated
//! over trees.
#![tactic(auto)]

mod clusters;
mod entries;
mod error;
mod generating;
mod laws;
mod lines;
mod made;
mod reading;
mod telling;
mod total;
mod total_laws;
mod writing;

pub use error::GenerateError;
pub use generating::generate;
pub use total_laws::{clusters_add_up, dealt_chunks_come_back, made_events_have_totals};
