//! A book of three clusters, one that is full, and one whose clusters are staged.

ghost use Rattle.std.specs.Prelude.{◌≡◌, ◌+◌, ◌≤◌, ◌∷◌, [], length, IfOk};
ghost use Rattle.nt_book.specs.Books.{book_clusters};
ghost use Rattle.nt_book.specs.Pages.{IsPaged};
ghost use Rattle.test_book.specs.Filling.{HasFilledAll};

use nt_book::{
    Book, ClusterMeta, LimitError, Limits, ListPlace, PageList, PageLists, PageMeta, RangeState,
};
use std::alloc::{AllocError, Global};
use std::test::Fail;

/// What is kept of a cluster of so many bytes: two entries, and one column with so many elements on a page of three bytes.
fn cluster(alloc: Global, context: u32, len: u64, count: u32) -> Result<ClusterMeta, AllocError>
    requires len { 11 ≤ len }
    requires count { count ≤ 24 }
    ensures paged { IfOk result (λ meta. IsPaged meta) }
    ensures one { IfOk result (λ meta. length meta.pages ≡ 1) }
{
    let page = PageMeta {
        count,
        place: 0,
        size: 3,
    };
    let list = PageList::from_vec(vec![in alloc; page]?);
    Ok(ClusterMeta {
        context,
        entries: 2,
        len,
        pages: PageLists::from_vec(vec![in alloc; list]?),
    })
}

/// The same with a second column, which has no page.
fn wide_cluster(alloc: Global, len: u64, count: u32) -> Result<ClusterMeta, AllocError>
    requires len { 11 ≤ len }
    requires count { count ≤ 24 }
    ensures paged { IfOk result (λ meta. IsPaged meta) }
    ensures two { IfOk result (λ meta. length meta.pages ≡ 2) }
{
    let page = PageMeta {
        count,
        place: 0,
        size: 3,
    };
    let second = PageList::from_vec(vec![in alloc; page]?);
    let first = PageList::from_vec(Vec::new(alloc));
    Ok(ClusterMeta {
        context: 0,
        entries: 2,
        len,
        pages: PageLists::from_vec(vec![in alloc; first, second]?),
    })
}

/// How a range is handed back.
#[derive(Clone, Copy)]
enum Back {
    Filled,
    AfterFaults(u64),
}

/// Appends a cluster, and hands its range back; or the limit that it passes.
fn append(book: &mut Book, meta: &mut ClusterMeta, back: Back) -> Result<(), Fail>
    requires paged { IsPaged meta.old }
    requires lists { length meta.old.pages ≡ length book.old.firsts }
    ensures firsts { book.new.firsts ≡ book.old.firsts }
    ensures limits { book.new.limits ≡ book.old.limits }
{
    book.check(meta.len)?;
    book.room()?;
    if book.due() || book.staged() {
        return Err(Fail::new("a page list is due, or clusters are staged"));
    }
    let context = meta.context;
    let number = book.append(meta);
    match back {
        Back::Filled => book.settle(number, context),
        Back::AfterFaults(faults) => book.spoil(number, context, faults),
    }
    Ok(())
}

/// Limits of a range, of the file and of its clusters.
fn limits(range: u64, file: u64, clusters: u32) -> Result<Limits, Fail>
    ensures { IfOk result (λ limits. limits.file ≡ file) }
{
    let Some(limits) = Limits::new(range, file, clusters) else {
        return Err(Fail::new("limits that are too large"));
    };
    Ok(limits)
}

/// What a book tells of a cluster: its start, its first entry, the offset of its column, and its state.
/// The first and the last are those of its range.
fn told(book: &Book, cluster: u32) -> Option<(u64, u64, u64, RangeState)>
    requires { length book.now.firsts ≡ 1 }
{
    if cluster >= book.clusters() {
        return None;
    }
    let range = book.range_of(cluster);
    if range >= book.ranges() {
        return None;
    }
    Some((
        book.start(range),
        book.first(cluster),
        book.offset(cluster, 0),
        book.state(range),
    ))
}

/// How many columns a cluster lists, and the offsets of two.
fn listed(book: &Book, cluster: u32) -> Option<(usize, u64, u64)>
    requires { length book.now.firsts ≡ 2 }
{
    if cluster >= book.clusters() {
        return None;
    }
    Some((
        book.meta(cluster).pages.as_slice().len(),
        book.offset(cluster, 0),
        book.offset(cluster, 1),
    ))
}

#[test]
fn a_book_tells_what_was_appended(rt: HostRuntime) -> Result<(), Fail> {
    let alloc = rt.alloc();
    let mut book = Book::new(alloc, 300, 1, limits(100, 1000, 7)?)?;
    append(&mut book, &mut cluster(alloc, 1, 50, 5)?, Back::Filled)?;
    append(
        &mut book,
        &mut cluster(alloc, 0, 60, 24)?,
        Back::AfterFaults(4),
    )?;
    append(&mut book, &mut cluster(alloc, 1, 11, 0)?, Back::Filled)?;
    let order = book.order(alloc)?;
    assert_eq!(rt; order.as_slice(), [1, 0, 1].as_slice());
    assert_eq!(rt; book.entries(), 6);
    assert_eq!(rt; book.end(), 421);
    let spoiled = RangeState::Spoiled { faults: 4 };
    assert_eq!(rt; told(&book, 0), Some((300, 0, 0, RangeState::Settled)));
    assert_eq!(rt; told(&book, 1), Some((350, 2, 5, spoiled)));
    assert_eq!(rt; told(&book, 2), Some((410, 4, 29, RangeState::Settled)));
    assert_eq!(rt; told(&book, 3), None);
    Ok(())
}

#[test]
fn a_column_is_added_behind_a_cluster(rt: HostRuntime) -> Result<(), Fail> {
    let alloc = rt.alloc();
    let mut book = Book::new(alloc, 300, 1, limits(100, 1000, 7)?)?;
    append(&mut book, &mut cluster(alloc, 0, 50, 5)?, Back::Filled)?;
    let entries = book.entries();
    if book.staged() {
        return Err(Fail::new("staged clusters"));
    }
    book.widen(&[entries])?;
    append(&mut book, &mut wide_cluster(alloc, 20, 7)?, Back::Filled)?;
    append(&mut book, &mut wide_cluster(alloc, 20, 1)?, Back::Filled)?;
    assert_eq!(rt; listed(&book, 0), Some((1, 0, 2)));
    assert_eq!(rt; listed(&book, 1), Some((2, 5, 2)));
    assert_eq!(rt; listed(&book, 2), Some((2, 5, 9)));
    assert_eq!(rt; listed(&book, 3), None);
    Ok(())
}

#[test]
fn a_full_book_takes_no_more(rt: HostRuntime) -> Result<(), Fail> {
    let alloc = rt.alloc();
    let mut book = Book::new(alloc, 900, 1, limits(100, 1000, 1)?)?;
    let mut meta = cluster(alloc, 0, 50, 8)?;
    append(&mut book, &mut meta, Back::Filled)?;
    assert_eq!(rt; book.check(10), Err(LimitError::TooManyClusters));
    // the limits of a range and of the file are told first
    assert_eq!(rt;
        book.check(51),
        Err(LimitError::FileTooLarge {
            end: 1001,
            limit: 1000
        })
    );
    assert_eq!(rt;
        book.check(101),
        Err(LimitError::RangeTooLarge {
            len: 101,
            limit: 100
        })
    );
    Ok(())
}

/// A book of groups of one cluster, that ends at 500.
fn grouped(alloc: Global) -> Result<Book, Fail>
    ensures firsts { IfOk result (λ book. length book.firsts ≡ 1) }
    ensures limits { IfOk result (λ book. book.limits.file ≡ 1000) }
{
    let mut book = Book::new(alloc, 450, 1, limits(100, 1000, 2)?)?;
    if book.clusters() != 0 {
        return Err(Fail::new("a new book with clusters"));
    }
    book.group_by(1, 77);
    append(&mut book, &mut cluster(alloc, 0, 50, 5)?, Back::Filled)?;
    Ok(book)
}

/// Where the page list of the first group stands.
const FIRST_LIST: ListPlace = ListPlace {
    length: 48,
    size: 48,
    place: 542,
};

/// Notes a page list of 90 bytes, if one is due.
fn note(book: &mut Book) -> Result<(), Fail>
    ensures { book.new.firsts ≡ book.old.firsts }
{
    book.room()?;
    if !book.due() || book.check_with(0, 90).is_err() {
        return Err(Fail::new("no page list can be noted"));
    }
    book.note_list(FIRST_LIST, 90);
    Ok(())
}

#[test]
fn a_list_counts_in_limits(rt: HostRuntime) -> Result<(), Fail> {
    let book = grouped(rt.alloc())?;
    let list = LimitError::RangeTooLarge {
        len: 120,
        limit: 100,
    };
    assert_eq!(rt; book.check_with(50, 120), Err(list));
    assert_eq!(rt; book.check_with(90, 90), Ok(()));
    let range = LimitError::RangeTooLarge {
        len: 101,
        limit: 100,
    };
    assert_eq!(rt; book.check_with(101, 120), Err(range));
    Ok(())
}

#[test]
fn a_list_is_due_and_noted(rt: HostRuntime) -> Result<(), Fail> {
    let alloc = rt.alloc();
    let mut book = grouped(alloc)?;
    assert_eq!(rt; book.group(), Some((1, 77)));
    assert!(rt; book.due());
    assert_eq!(rt; book.lists(), 0);
    assert_eq!(rt; book.end(), 500);
    note(&mut book)?;
    assert!(rt; !book.due());
    assert_eq!(rt; book.lists(), 1);
    assert_eq!(rt; book.end(), 590);
    if book.lists() > 0 {
        assert_eq!(rt; book.list(0), FIRST_LIST);
    }
    append(&mut book, &mut cluster(alloc, 0, 50, 5)?, Back::Filled)?;
    assert_eq!(rt; told(&book, 1), Some((590, 2, 5, RangeState::Settled)));
    assert!(rt; book.due());
    Ok(())
}

#[test]
fn a_torn_book_stays_torn(rt: HostRuntime) -> Result<(), Fail> {
    let alloc = rt.alloc();
    let mut book = grouped(alloc)?;
    assert_eq!(rt; book.torn(), None);
    if book.due() && book.end() <= 512 && book.check_with(0, 12).is_ok() {
        book.tear(512, 3);
    }
    assert_eq!(rt; book.torn(), Some((0, 3)));
    assert_eq!(rt; book.end(), 512);
    assert!(rt; !book.due());
    append(&mut book, &mut cluster(alloc, 0, 50, 5)?, Back::Filled)?;
    assert_eq!(rt; told(&book, 1), Some((512, 2, 5, RangeState::Settled)));
    assert!(rt; !book.due());
    assert_eq!(rt; book.torn(), Some((0, 3)));
    Ok(())
}

/// Reserves a range of a staged book, and hands it back filled.
fn reserve(book: &mut Book, meta: &mut ClusterMeta) -> Result<(), Fail>
    requires filled { HasFilledAll book.old }
    requires paged { IsPaged meta.old }
    requires lists { length meta.old.pages ≡ length book.old.firsts }
    ensures filled { HasFilledAll book.new }
    ensures firsts { book.new.firsts ≡ book.old.firsts }
{
    book.check(meta.len)?;
    book.room()?;
    let context = meta.context;
    let range = book.reserve(meta);
    book.settle(range, context);
    Ok(())
}

/// A staged book of one column, in which contexts 0, 1, 1 and 0 reserved and filled ranges.
fn reserved(alloc: Global) -> Result<Book, Fail>
    ensures filled { IfOk result (λ book. HasFilledAll book) }
    ensures firsts { IfOk result (λ book. length book.firsts ≡ 1) }
{
    let mut book = Book::new(alloc, 445, 1, limits(100, 1000, 7)?)?;
    book.stage_all();
    reserve(&mut book, &mut cluster(alloc, 0, 58, 1)?)?;
    reserve(&mut book, &mut cluster(alloc, 1, 58, 2)?)?;
    reserve(&mut book, &mut cluster(alloc, 1, 58, 3)?)?;
    reserve(&mut book, &mut cluster(alloc, 0, 58, 4)?)?;
    Ok(book)
}

/// Context 1 publishes its ranges, and then context 0.
fn publish_both(book: &mut Book) -> Result<(), Fail>
    requires { HasFilledAll book.old }
    ensures { book.new.firsts ≡ book.old.firsts }
{
    book.room_to_publish(1)?;
    book.publish(1);
    book.room_to_publish(0)?;
    book.publish(0);
    Ok(())
}

#[test]
fn contexts_publish_their_ranges(rt: HostRuntime) -> Result<(), Fail> {
    let alloc = rt.alloc();
    let mut book = reserved(alloc)?;
    assert_eq!(rt; book.ranges(), 4);
    assert_eq!(rt; book.clusters(), 0);
    assert_eq!(rt; book.entries(), 0);
    publish_both(&mut book)?;
    let order = book.order(alloc)?;
    assert_eq!(rt; order.as_slice(), [1, 1, 0, 0].as_slice());
    assert_eq!(rt; book.entries(), 8);
    assert_eq!(rt; book.end(), 677);
    // ranges 1, 2, 0 and 3
    assert_eq!(rt; told(&book, 0), Some((503, 0, 0, RangeState::Settled)));
    assert_eq!(rt; told(&book, 1), Some((561, 2, 2, RangeState::Settled)));
    assert_eq!(rt; told(&book, 2), Some((445, 4, 5, RangeState::Settled)));
    assert_eq!(rt; told(&book, 3), Some((619, 6, 6, RangeState::Settled)));
    assert_eq!(rt; told(&book, 4), None);
    Ok(())
}
