//! Staged books whose ranges aren't all clusters.

ghost use Rattle.std.specs.Prelude.{◌≡◌, [], length, IfOk};
ghost use Rattle.nt_book.specs.Pages.{IsPaged};
ghost use Rattle.nt_close.specs.Unpublished.{IsAllUnpublished};

use crate::damage::refuse_damaged;
use crate::error::CloseError;
use nt_book::{Book, ClusterMeta, Limits, PageLists};
use std::alloc::Global;
use std::test::Fail;

/// What is kept of a range of 58 bytes and no columns.
fn meta_of(alloc: Global, context: u32) -> ClusterMeta
    ensures paged { IsPaged result }
    ensures none { result.pages ≡ [] }
{
    ClusterMeta {
        context,
        entries: 2,
        len: 58,
        pages: PageLists::from_vec(Vec::new(alloc)),
    }
}

/// Reserves a range, and hands it back filled.
fn fill(book: &mut Book, meta: &mut ClusterMeta) -> Result<(), Fail>
    requires unpublished { IsAllUnpublished book.old }
    requires paged { IsPaged meta.old }
    requires lists { length meta.old.pages ≡ length book.old.firsts }
    ensures unpublished { IsAllUnpublished book.new }
    ensures columns { book.new.firsts ≡ book.old.firsts }
{
    book.check(meta.len)?;
    book.room()?;
    let context = meta.context;
    let range = book.reserve(meta);
    book.settle(range, context);
    Ok(())
}

/// A staged book of four ranges, which contexts 0, 1, 1 and 0 filled.
fn filled(alloc: Global) -> Result<Book, Fail>
    ensures { IfOk result IsAllUnpublished }
{
    let Some(limits) = Limits::new(100, 1000, 7) else {
        return Err(Fail::new("limits that are too large"));
    };
    let mut book = Book::new(alloc, 445, 0, limits)?;
    book.stage_all();
    fill(&mut book, &mut meta_of(alloc, 0))?;
    fill(&mut book, &mut meta_of(alloc, 1))?;
    fill(&mut book, &mut meta_of(alloc, 1))?;
    fill(&mut book, &mut meta_of(alloc, 0))?;
    Ok(book)
}

/// A context publishes its ranges.
fn publish(book: &mut Book, context: u32) -> Result<(), Fail>
    requires { IsAllUnpublished book.old }
{
    book.room_to_publish(context)?;
    book.publish(context);
    Ok(())
}

#[test]
fn the_lowest_unpublished_range_is_told(rt: HostRuntime) -> Result<(), Fail> {
    for (context, lowest) in [(0, 1), (1, 0), (2, 0)] {
        let mut book = filled(rt.alloc())?;
        publish(&mut book, context)?;
        let told = CloseError::Unpublished { range: lowest };
        assert_eq!(rt; refuse_damaged(&book), Err(told));
    }
    Ok(())
}
