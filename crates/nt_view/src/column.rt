//! A column of pages whose values stand each for itself.

ghost use Rattle.std.specs.Prelude.{◌≡◌, ◌+◌, ◌<◌, ◌≤◌, ◌↔◌, length, map, take, slice_index, IfSome, IsSome};
ghost use Rattle.std.specs.List.{slice_range};
ghost use Rattle.nt_types.specs.ColumnTable.{bits_of};
ghost use Rattle.nt_types.specs.declared.column_type.ColumnType.TheVariants.{Switch};
ghost use Rattle.nt_encode.specs.Pages.{page_values};
ghost use Rattle.nt_column.specs.Elements.{plain, numbers, tags};
ghost use Rattle.nt_view.specs.Pages.{elements_of_pages, count_of, ArePages, AreOwnPages, IsOwnPart, HaveRange, LieInOne};

use crate::place::{PageAt, page_bytes, page_with};
use nt_encode::{decode_part, index_of_pair, own_value_at, tag_of_pair};
use nt_types::ColumnType;

/// Value i of a page of so many; of a Switch the index of its pair.
#[inline(always)]
pub fn value_of(kind: ColumnType, bytes: &[u8], count: usize, i: usize) -> u64
    requires { IsOwnPart kind count bytes.now i (i + 1) }
    ensures { result ≡ slice_index (page_values kind count bytes.now) i }
{
    if kind == ColumnType::Switch {
        index_of_pair(bytes, count, i)
    } else {
        own_value_at(kind, bytes, count, i)
    }
}

/// Reads the indices of a Switch page from a place on, as many as there is room for.
fn read_indices(bytes: &[u8], count: usize, from: usize, out: &mut [u64])
    requires { IsOwnPart Switch count bytes.now from (from + length out.old) }
    ensures { out.new ≡ slice_range (page_values Switch count bytes.now) from (from + length out.new) }
{
    for (i, index) in out.iter_mut().enumerate() {
        *index = index_of_pair(bytes, count, from + i);
    }
}

/// Reads the values of a page from a place on, as many as there is room for.
fn read_values(kind: ColumnType, bytes: &[u8], count: usize, from: usize, out: &mut [u64])
    requires { IsOwnPart kind count bytes.now from (from + length out.old) }
    ensures { out.new ≡ slice_range (page_values kind count bytes.now) from (from + length out.new) }
{
    if kind == ColumnType::Switch {
        read_indices(bytes, count, from, out);
    } else {
        decode_part(kind, bytes, count, from, out);
    }
}

/// The number of an element; of a Switch its index.
pub fn number(kind: ColumnType, store: &[u8], pages: &[PageAt], i: u64) -> u64
    requires own { AreOwnPages kind store.now pages.now }
    requires within { i < count_of pages.now }
    ensures { result ≡ slice_index (numbers (elements_of_pages kind store.now pages.now)) i }
{
    let page = pages[page_with(pages, i)];
    let bytes = page_bytes(kind, store, page);
    value_of(kind, bytes, page.count as usize, (i - page.first) as usize)
}

/// The tag of an element of a Switch.
fn pair_tag(store: &[u8], pages: &[PageAt], i: u64) -> u32
    requires pages { ArePages Switch store.now pages.now }
    requires within { i < count_of pages.now }
    ensures { result ≡ slice_index (tags (elements_of_pages Switch store.now pages.now)) i }
{
    let page = pages[page_with(pages, i)];
    let bytes = page_bytes(ColumnType::Switch, store, page);
    tag_of_pair(bytes, page.count as usize, (i - page.first) as usize)
}

/// The tag of an element; 0 but of a Switch.
pub fn tag(kind: ColumnType, store: &[u8], pages: &[PageAt], i: u64) -> u32
    requires pages { ArePages kind store.now pages.now }
    requires within { i < count_of pages.now }
    ensures { result ≡ slice_index (tags (elements_of_pages kind store.now pages.now)) i }
{
    match kind {
        ColumnType::Switch => pair_tag(store, pages, i),
        _ => 0,
    }
}

/// Reads numbers from a place on, as many as stand in its page and as there is room for.
pub fn read(kind: ColumnType, store: &[u8], pages: &[PageAt], from: u64, out: &mut [u64]) -> usize
    requires own { AreOwnPages kind store.now pages.now }
    requires room { (from < count_of pages.now) × (0 < length out.old) }
    ensures some { (0 < result) × (result ≤ length out.new) × (length out.new ≡ length out.old) }
    ensures within { from + result ≤ count_of pages.now }
    ensures read { take result out.new
        ≡ slice_range (numbers (elements_of_pages kind store.now pages.now)) from (from + result) }
{
    let page = pages[page_with(pages, from)];
    let bytes = page_bytes(kind, store, page);
    let at = (from - page.first) as usize;
    let count = page.count as usize;
    let some = (count - at).min(out.len());
    read_values(kind, bytes, count, at, &mut out[..some]);
    some
}

/// The bytes of elements of 8 bits from one place to before another, where they lie in one page or are none.
pub fn lent_bytes<'a>(
    kind: ColumnType,
    store: &'a [u8],
    pages: &[PageAt],
    from: u64,
    to: u64,
) -> Option<&'a [u8]>
    requires pages { ArePages kind store.now pages.now }
    requires kind { bits_of kind ≡ 8 }
    requires part { HaveRange pages.now from to }
    ensures bytes { IfSome result (λ t. map plain t.now
        ≡ slice_range (elements_of_pages kind store.now pages.now) from to) }
    ensures exact { IsSome result ↔ LieInOne pages.now from to }
{
    if from == to {
        return Some(&[]);
    }
    let page = pages[page_with(pages, from)];
    if to - page.first > u64::from(page.count) {
        return None;
    }
    let bytes = page_bytes(kind, store, page);
    Some(&bytes[(from - page.first) as usize..(to - page.first) as usize])
}
