//! What a writer of many contexts leaves: from what each context wrote, and from the texts that it
//! read, to the clusters of the file. Definitions and laws alone; no code runs.
//!
//! Start at `specs/Dealt.antt`: the clusters of a file are the chunks of its contexts, *dealt out*
//! in the commit order. `specs/Begun.antt` says which file was begun, `specs/Written.antt` when a
//! context has written its chunks, each as the blob of its entries, or committed the first of them,
//! `specs/EventText.antt` which entries an event text gives, up to its first bad line,
//! `specs/Texts.antt` which chunks texts make, `specs/Lengths.antt` how long a file of such clusters
//! is, and `specs/Limits.antt` which limits the file of some chunks passes, in whatever order they
//! are committed.
//!
//! Proved: whatever contexts did, the disk has the steps of one history behind those that it had,
//! with page lists between them, and what it held stays (`histories_fill`). However they interleave,
//! where each wrote its chunks, the book that their committer hands back has these chunks, dealt out,
//! those of each context together where clusters are staged; each range is a cluster and was settled
//! with its blob, no page list failed, and the disk holds blobs and lists behind what it held before
//! (`commits_are_dealt`). Such chunks
//! are all chunks in another order (`dealt_chunks_are_all_chunks`), and where the next chunk of a
//! context passes a limit, the file of all chunks passes it (`next_chunks_pass_limits_of_all`), since
//! the file of some chunks is no longer than that of all (`whole_files_are_longest`). Chunks that fit
//! pass none (`whole_files_pass_no_limit`), and those that were committed pass none of a commit
//! (`committed_chunks_fit`). `specs/Failing.antt` says what is written where a text fails. The
//! lines of a text come off one by one (`lines_come_in_order`), and what is read of a line fits its
//! fields and the rows that describe them (`entries_fit`). Page lists, footer and file are as long as
//! what is kept of each cluster says, in whatever order they stand, the file where each of its ranges
//! is a cluster (`files_are_as_long_as_their_clusters_say`).
#![tactic(auto)]

mod laws;
mod limits;
mod sizes;
mod texts;

pub use laws::{commits_are_dealt, histories_fill};
pub use limits::{
    committed_chunks_fit, dealt_chunks_are_all_chunks, next_chunks_pass_limits_of_all,
    whole_files_are_longest, whole_files_pass_no_limit,
};
pub use sizes::files_are_as_long_as_their_clusters_say;
pub use texts::{entries_fit, lines_come_in_order};
