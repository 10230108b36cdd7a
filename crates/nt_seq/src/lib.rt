//! A writer of clusters one after the other, on a disk of its own, to whose schema fields can be
//! added between clusters.
//!
//! Start at `SeqWriter` in `writer.rt`. `new` begins the file; `fill` gathers an entry, and
//! `fill_line` that of a line of event text: it does what nt_event's `read_line` and then `fill`
//! do, without a tree in between, or refuses the line, whose trees are then to be read. `fill_from` gathers
//! what is chosen of an entry of other columns, also without trees. `flush` writes
//! what is gathered as the next cluster, in one append, and before it the page list that is due; `extend` adds a field behind all entries
//! so far; `close` closes the file, and `abandon` gives the disk back as it is.
//!
//! Words: those of nt_fill and nt_finished. The *clusters* of a writer are the lists of the entries
//! that it has written, each entry with the zeros of the fields that were added behind it
//! (`HasWritten` in `specs/Written`); a writer is *alive* until a call on its disk fails, or
//! memory is wanting while a field is added; *given* is the disk as it was before all calls, by
//! which it is known what is told; *begun* is the schema with which the file was begun, whose
//! header stands in it whatever was added since.
//!
//! Proved, as a relation of what the writer is before and after each call (`specs/Changing`): an
//! entry is gathered whole or not at all (`fill`, `fill_line`, `fill_from`); a flush makes the gathered
//! entries the next cluster, behind the page list that its book is due (`ok` of `FlushesNext`), names exactly the limit of its
//! book that they or that list pass (`limits`), leaves all as it was where it is refused, and fails only where the disk's count of
//! faults rose, with a part of their image or of that list behind its ranges (`refused`); a field is added exactly where none at the top level has its name and
//! there aren't too many, behind as many entries as are written, and each earlier entry gets its
//! zero (`extend`). Once it is closed, the file is laid out for the clusters, none of them longer
//! than a range may get, and as any other where no field was added; after a refusal its first byte
//! is 0, or it stands there whole, its last step being over that byte; and its steps are in order in any case (`file`). The cause of
//! each answer is that of nt_close, where no range is spoiled and no page list failed (`cause`). Whatever was done, the disk that
//! `abandon` gives back holds the writer's own file: that of `begun`, not closed, with ranges and page lists, and perhaps a part of one
//! more (`unclosed`). Of a file that isn't closed the first byte is 0 (`unclosed_files_are_shut`). Wherever a crash comes behind the first
//! sync, in `new`, `flush`, `extend` or `close`, it leaves a file that isn't finished, or, once the
//! first byte was written over, the closed one; behind all steps of `close` just that: `crash` in what
//! `new`, `flush` and `close` (`file`) say, by the law `crashes_leave_closed_or_unfinished` on
//! what `keeps` and `close` say of the steps. What holds of each writer at any moment
//! is `IsSequential`, the invariant, with `IsBookKept` of its book (`keeps`). Nothing is only
//! tested.
//!
//! Choices that bind nobody else:
//! - Fields are described once more before the file is begun, since the columns are made of their
//!   schema, and want of memory for these leaves the disk empty.
//! - The columns are made anew when a field is added. Columns and image keep their memory from
//!   flush to flush; after a refused flush the next image takes its memory anew.
//! - A range is neither reserved nor settled on the disk: there is no pen, so its image is
//!   appended as it is (nt_append). In the book it is both, at once, for the context 0.
//! - The file is begun with groups, so the page list of each full group stands right behind its last cluster, and `close` writes the
//!   ones that are left.
#![tactic(auto)]

mod appending;
mod closing;
mod crashing;
mod extending;
mod filling;
mod flushing;
mod keeping;
mod laws;
mod moving;
mod widening;
mod writer;

pub use crashing::crashes_leave_closed_or_unfinished;
pub use laws::{unclosed_files_are_shut, written_clusters_are_counted};
pub use writer::SeqWriter;
