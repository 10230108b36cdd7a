//! What is written of a book and of groups, beside the payloads as they are laid out.

ghost use Rattle.std.specs.Prelude.{◌≡◌, ◌*◌, ◌≤◌, ◌<◌, ◌^◌, ◌∷◌, [], length, IfOk};
ghost use Rattle.nt_book.specs.Pages.{IsPaged};

use crate::payloads::{FOOTER, NO_GROUP, ONE, SUM};
use nt_book::{Book, ClusterMeta, Limits, PageList, PageLists, PageMeta};
use nt_format::{Link, Locator};
use nt_meta::{write_footer, write_page_list};
use nt_pagelists::Group;
use nt_schema::Schema;
use std::alloc::{AllocError, Global};

/// The cluster of the file of 1137 bytes: two entries, one column, one page.
fn cluster(alloc: Global) -> Result<ClusterMeta, AllocError>
    ensures paged { IfOk result (λ meta. IsPaged meta) }
    ensures one { IfOk result (λ meta. length meta.pages ≡ 1) }
    ensures len { IfOk result (λ meta. meta.len ≡ 66) }
{
    let page = PageMeta {
        count: 2,
        place: 0,
        size: 16,
    };
    let column = PageList::from_vec(vec![in alloc; page]?);
    Ok(ClusterMeta {
        context: 0,
        entries: 2,
        len: 66,
        pages: PageLists::from_vec(vec![in alloc; column]?),
    })
}

fn group() -> Group {
    Group {
        first: 0,
        span: 2,
        clusters: 1,
        link: Link {
            length: 124,
            at: Locator {
                size: 124,
                place: 553,
            },
        },
    }
}

/// Whether a book is written as it is laid out.
fn a_book_is_written(alloc: Global) -> Result<bool, AllocError> {
    let Some(limits) = Limits::new(1024, 2048, 7) else {
        return Ok(false);
    };
    let mut book = Book::new(alloc, 445, 1, limits)?;
    book.room()?;
    let mut meta = cluster(alloc)?;
    if book.check(66).is_err() || book.due() {
        return Ok(false);
    }
    book.append(&mut meta);
    let sealed = write_page_list(alloc, &book, 0, 1, SUM)?;
    Ok(sealed.len() == 124 && sealed.get(8..116) == Some(ONE.as_slice()))
}

/// Whether groups are written as they are laid out, and none too.
fn groups_are_written(alloc: Global) -> Result<bool, AllocError> {
    let schema = Schema::new(alloc);
    let one = write_footer(alloc, &schema, &[group()], SUM)?;
    let none = write_footer(alloc, &schema, &[], SUM)?;
    let is_one = one.len() == 100 && one.get(8..92) == Some(FOOTER.as_slice());
    Ok(is_one && none.len() == 52 && none.get(8..44) == Some(NO_GROUP.as_slice()))
}

#[test]
fn writing(rt: HostRuntime) {
    let alloc = rt.alloc();
    for (holds, name) in [
        (a_book_is_written(alloc), "a book is written"),
        (groups_are_written(alloc), "groups are written"),
    ] {
        assert!(rt; holds == Ok(true), "{name}");
    }
}
