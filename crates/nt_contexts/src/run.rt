//! The contexts of a writer, from the disk and the book to the disk and the book.

ghost use Rattle.std.specs.Prelude.{◌≤◌, ◌<◌, map, length};
ghost use Rattle.nt_types.specs.Views.{members_view};
ghost use Rattle.nt_contexts.specs.Contexts.{IsReady, RunsContexts};

use crate::ending::end;
use crate::error::RunError;
use crate::shared::Shared;
use crate::working::work;
use nt_book::Book;
use nt_commit::Committer;
use nt_outside::{Disk, Gate, Source};
use std::sync::Wait;
use std::thread::Threads;

/// What contexts hand back once all have ended.
pub struct Ended<D, S> {
    pub disk: D,
    pub book: Book,
    pub sources: Vec<S>,
    pub ended: Result<(), RunError>,
}

/// Runs a context for each source, as many of them beside each other as there are workers: each writes the entries of its text in
/// clusters. Where some fail, the answer is that of the lowest number.
pub fn run_contexts<R, D, S, G>(
    rt: &R,
    disk: D,
    book: Book,
    sources: Vec<S>,
    shared: &Shared<'_, G>,
) -> Ended<D, S>
where
    R: Threads + Wait + Sync,
    D: Disk + Send,
    D::Pen: Send,
    D::Ext: Send,
    S: Source + Send,
    G: Gate + Sync,
    requires ready { IsReady (members_view shared.now.fields.now) shared.now.params.now shared.now.schema.now book (D.state disk)
        (length sources.items) }
    requires workers { (0 < shared.now.workers) × (shared.now.workers ≤ 64) }
    ensures { RunsContexts shared.now.schema.now (members_view shared.now.fields.now) shared.now.params.now (D.state disk)
        (D.state result.disk) book result.book (map S.state sources.items) (map S.state result.sources.items) result.ended }
{
    let contexts = sources.len() as u32;
    match Committer::new(shared.alloc, disk, book, contexts) {
        Ok((committer, first)) => {
            let mut first = first;
            let (sources, ended) = work(rt, &committer, &mut first, shared, sources);
            let (disk, book) = end(committer, first);
            Ended {
                disk,
                book,
                sources,
                ended,
            }
        }
        Err((disk, book, _)) => Ended {
            disk,
            book,
            sources,
            ended: Err(RunError::Memory),
        },
    }
}
