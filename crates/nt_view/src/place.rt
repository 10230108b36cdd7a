//! Which page an element stands in.

ghost use Rattle.std.specs.Prelude.{◌≡◌, ◌+◌, ◌^◌, ◌<◌, ◌≤◌, ℕ, length, take, drop, slice_index, IfSome};
ghost use Rattle.nt_encode.specs.Pages.{page_size};
ghost use Rattle.nt_view.specs.Pages.{bytes_of_page, count_of, Follow, IsIn};

use nt_encode::size_of;
use nt_types::ColumnType;

/// Where a page lies among the bytes of its cluster, and which elements it has.
#[derive(Clone, Copy)]
pub struct PageAt {
    /// The elements of the pages before it.
    pub first: u64,
    pub count: u32,
    /// The place of its first byte.
    pub at: usize,
}

/// The page that has element i, if all have as many as the first one.
fn page_guessed(pages: &[PageAt], i: u64) -> Option<usize>
    ensures { IfSome result (λ j. IsIn pages.now j i) }
{
    let each = pages.first()?.count;
    if each == 0 {
        return None;
    }
    let j = (i / u64::from(each)) as usize;
    let page = pages.get(j)?;
    if page.first <= i && i - page.first < u64::from(page.count) {
        return Some(j);
    }
    None
}

/// The page that has element i.
fn page_searched(pages: &[PageAt], i: u64) -> usize
    requires follow { Follow pages.now }
    requires within { i < count_of pages.now }
    ensures { IsIn pages.now result i }
{
    let mut low = 0;
    let mut high = pages.len();
    while high - low > 1 {
        let middle = low + (high - low) / 2;
        if pages[middle].first <= i {
            low = middle;
        } else {
            high = middle;
        }
    }
    low
}

/// The page that has element i: one look where all pages but the last have as many elements.
pub fn page_with(pages: &[PageAt], i: u64) -> usize
    requires follow { Follow pages.now }
    requires within { i < count_of pages.now }
    ensures { IsIn pages.now result i }
{
    match page_guessed(pages, i) {
        Some(j) => j,
        None => page_searched(pages, i),
    }
}

/// So many bytes of a store from a place on.
#[inline(always)]
pub fn part_of(store: &[u8], at: usize, size: usize) -> &[u8]
    requires { at + size ≤ length store.now }
    ensures { result.now ≡ take size (drop at store.now) }
{
    let (_, rest) = store.split_at(at);
    let (bytes, _) = rest.split_at(size);
    bytes
}

/// The bytes of a page.
#[inline(always)]
pub fn page_bytes(kind: ColumnType, store: &[u8], page: PageAt) -> &[u8]
    requires { page.at + page_size kind page.count ≤ length store.now }
    ensures { result.now ≡ bytes_of_page kind store.now page }
{
    part_of(
        store,
        page.at,
        size_of(kind, u64::from(page.count)) as usize,
    )
}

/// Each byte of a store is one.
pub fn are_bytes(store: &[u8])
    ensures { (i : ℕ) → slice_index store.now i < 2 ^ 8 }
{
    let _len = store.len();
}
