//! A finished file means its schema and the entries of its clusters, in order: the laws that lead
//! from a file's layout (nt_layout) to its reading (nt_file_meaning). Nothing here runs.
//!
//! Start with `src/laws.rt`. What is written is read back part by part: the anchor leads to header
//! and footer, which describe the schema and the groups; the page lists of the groups list the
//! clusters, each page where it lies (`specs/Listed`); the pages of an open column give its
//! elements, and sound columns the trees of the entries. `src/late.rt` goes on with fields that were
//! added behind entries (`specs/AddedFields`): an earlier cluster lists none of their columns
//! (`specs/LeftOut`), of which those with an element for each entry are read as zeros, and the
//! others have no element (`specs/Missing`), so the field has its zero in each of these entries
//! (`specs/Zeros`).
//!
//! Words: a file is *laid out* for a schema and the entries of its clusters where nt_layout says so;
//! it *means* what nt_file_meaning reads of it; a cluster is *listed* as what a page list tells of it.
//!
//! Proved, each as the contract of a function: a file that is laid out means its schema and its
//! entries (`finished_files_mean_their_entries`), and so does one whose schema is that of fields
//! that keep their rules (`files_of_fields_mean_their_entries`); on the way, which outline it has
//! (`finished_files_are_outlined`), and any other finished file whose clusters a reader takes
//! (`ranged_files_are_outlined`), page lists beside their clusters or behind all of them. For who
//! writes the file: how long it is (`finished_files_are_as_long`), and of which parts, in order
//! (`finished_files_are_parts`), both whatever stands in the ranges of the clusters; that it is laid
//! out where all page lists stand behind the ranges (`files_are_laid_behind`), or beside their
//! clusters, the last ones left to who closes it (`files_are_laid_beside`), and so wherever its book
//! has them (`arranged_files_are_laid`); that before this each of
//! its bytes is known (`filled_files_are_known`, with `specs/Filled`); and which books are of
//! the schema of fields (`books_of_fields_are_of_their_schema`). And of the machine of contexts
//! (nt_machine): a run of it that closes, whatever its steps are, means the chunks of its contexts,
//! those of each together where clusters are staged, in the file that holds its ranges
//! (`closed_runs_mean_their_chunks`, with `specs/RunFiles`).
//!
//! Proved of added fields: missing columns have no fault, and their trees are the zero of the field
//! (`missing_fields_are_zero`), which is that of its shape (`plans_have_the_zeros_of_their_shapes`);
//! the entries before a field leave it out (`added_fields_are_left_out`), and those before several
//! lack the zeros of their shapes (`added_fields_are_lacked`); a cluster that was written before
//! holds its entries with these zeros behind them (`earlier_clusters_are_filled`), and a file of such
//! clusters means these (`files_mean_filled_entries`), as does the one that is laid out for them
//! (`late_files_mean_their_entries`, with `specs/LateFiles`); the finished file of a kept book is
//! laid out so (`late_files_are_laid_behind`, `late_files_are_laid_beside`). Nothing is only tested.
//!
//! Choices that bind nobody else:
//! - The readings are followed as equations and not by the grammar beside them, which asks that each number of the file is a byte:
//!   names of fields would have to be shown to be bytes for nothing.
//! - Of what is asked of a schema only the ranges of its rows are left (`IsDescribed` of nt_grammar): that it has few rows follows
//!   from the limit of header and footer.
#![tactic(auto)]

mod added;
mod arrangement;
mod filled;
mod late;
mod laws;
mod missing;
mod runs;

pub use added::{added_fields_are_lacked, added_fields_are_left_out};
pub use arrangement::arranged_files_are_laid;
pub use filled::filled_files_are_known;
pub use late::{
    earlier_clusters_are_filled, files_mean_filled_entries, late_files_are_laid_behind,
    late_files_are_laid_beside, late_files_mean_their_entries,
};
pub use laws::{
    books_of_fields_are_of_their_schema, files_are_laid_behind, files_are_laid_beside,
    files_of_fields_mean_their_entries, finished_files_are_as_long, finished_files_are_outlined,
    finished_files_are_parts, finished_files_mean_their_entries, ranged_files_are_outlined,
};
pub use missing::{missing_fields_are_zero, plans_have_the_zeros_of_their_shapes};
pub use runs::closed_runs_mean_their_chunks;
