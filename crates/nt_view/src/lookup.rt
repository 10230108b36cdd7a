//! The elements of a column, by what is held of it.

ghost use Rattle.std.specs.Prelude.{◌≡◌, ◌+◌, ◌<◌, ◌≤◌, ◌⊎◌, ◌↔◌, ℕ, length, map, take, replicate, slice_index, None, IfSome, IfOk, IsSome, IsOkAnd, IsTrue};
ghost use Rattle.std.specs.List.{slice_range};
ghost use Rattle.nt_column.specs.Elements.{plain, numbers, tags, text_of};
ghost use Rattle.nt_column.specs.Cow.{cow_items, is_borrowed};
ghost use Rattle.nt_column.specs.Words.{lent_elements};
ghost use Rattle.nt_view.specs.Table.{held_at, elements_in_table, IsColumnOf, IsLent, HasColumnRange, HasSums};
ghost use Rattle.nt_view.specs.declared.table.Held.TheVariants.{Sums};

use crate::column;
use crate::table::{Held, Table};
use nt_column::{ColumnBuf, CowSlice, WordSlice};
use std::alloc::{AllocError, Global};

impl Table {
    /// What is held of a column; no zeros of one that isn't there.
    #[inline(always)]
    fn held(&self, column: u32) -> Held
        ensures { result ≡ held_at self.now.columns.items column }
    {
        match self.columns.get(column as usize) {
            Some(held) => *held,
            None => Held::Zeros(0),
        }
    }
}

/// The buffer of a column whose numbers were added up.
pub fn sums_of<'a>(table: &'a Table, store: &[u8], column: u32) -> Option<&'a ColumnBuf>
    requires { IsColumnOf store.now table.now column }
    ensures some { IfSome result (λ b. HasSums table.now column b.now) }
    ensures none { result ≡ None → (s : ℕ) → held_at table.now.columns.items column ≡ Sums s → ⊥ }
{
    let _store = store;
    match table.held(column) {
        Held::Sums(place) => Some(&table.sums[place]),
        _ => None,
    }
}

/// The number of a column's elements.
pub fn len(table: &Table, store: &[u8], column: u32) -> u64
    requires { IsColumnOf store.now table.now column }
    ensures { result ≡ length (elements_in_table store.now table.now column) }
{
    let _store = store;
    match table.held(column) {
        Held::Zeros(count) => count,
        Held::Pages { count, .. } => count,
        Held::Sums(place) => table.sums[place].len() as u64,
    }
}

/// An element; of a Switch its index.
pub fn number(table: &Table, store: &[u8], column: u32, i: u64) -> u64
    requires column { IsColumnOf store.now table.now column }
    requires within { i < length (elements_in_table store.now table.now column) }
    ensures { result ≡ slice_index (numbers (elements_in_table store.now table.now column)) i }
{
    match table.held(column) {
        Held::Zeros(_) => 0,
        Held::Pages {
            kind,
            begin,
            end,
            ..
        } => column::number(kind, store, &table.places[begin..end], i),
        Held::Sums(place) => table.sums[place].number(i as usize),
    }
}

/// The tag of an element; 0 but of a Switch.
pub fn tag(table: &Table, store: &[u8], column: u32, i: u64) -> u32
    requires column { IsColumnOf store.now table.now column }
    requires within { i < length (elements_in_table store.now table.now column) }
    ensures { result ≡ slice_index (tags (elements_in_table store.now table.now column)) i }
{
    match table.held(column) {
        Held::Zeros(_) => 0,
        Held::Pages {
            kind,
            begin,
            end,
            ..
        } => column::tag(kind, store, &table.places[begin..end], i),
        Held::Sums(place) => table.sums[place].tag(i as usize),
    }
}

/// Reads zeros from a place of so many on, as many as are there and as there is room for.
fn read_zeros(count: u64, from: u64, out: &mut [u64]) -> usize
    requires { (from < count) × (0 < length out.old) }
    ensures some { (0 < result) × (result ≤ length out.new) × (length out.new ≡ length out.old) }
    ensures within { from + result ≤ count }
    ensures read { take result out.new ≡ replicate result 0 }
{
    let some = (count - from).min(out.len() as u64) as usize;
    out[..some].fill(0);
    some
}

/// Reads numbers from a place on, as many as lie together and as there is room for.
pub fn read(table: &Table, store: &[u8], column: u32, from: u64, out: &mut [u64]) -> usize
    requires column { IsColumnOf store.now table.now column }
    requires room { (from < length (elements_in_table store.now table.now column)) × (0 < length out.old) }
    ensures some { (0 < result) × (result ≤ length out.new) × (length out.new ≡ length out.old) }
    ensures within { from + result ≤ length (elements_in_table store.now table.now column) }
    ensures read { take result out.new
        ≡ slice_range (numbers (elements_in_table store.now table.now column)) from (from + result) }
{
    match table.held(column) {
        Held::Zeros(count) => read_zeros(count, from, out),
        Held::Pages {
            kind,
            begin,
            end,
            ..
        } => column::read(kind, store, &table.places[begin..end], from, out),
        Held::Sums(place) => table.sums[place].read(from as usize, out),
    }
}

/// The bytes of elements of 8 bits that lie in one page, or no bytes where there is no element.
pub fn lent<'a>(table: &Table, store: &'a [u8], column: u32, from: u64, to: u64) -> Option<&'a [u8]>
    requires column { IsColumnOf store.now table.now column }
    requires part { HasColumnRange store.now table.now column from to }
    ensures bytes { IfSome result (λ t. map plain t.now
        ≡ slice_range (elements_in_table store.now table.now column) from to) }
    ensures exact { IsSome result
        ↔ ((from ≡ to) ⊎ IsLent table.now.places.items (held_at table.now.columns.items column) from to) }
{
    if from == to {
        return Some(&[]);
    }
    match table.held(column) {
        Held::Pages {
            kind,
            begin,
            end,
            ..
        } => {
            if kind.bits() != 8 {
                return None;
            }
            column::lent_bytes(kind, store, &table.places[begin..end], from, to)
        }
        _ => None,
    }
}

/// A copy of the low bytes of elements.
fn copied(
    alloc: Global,
    table: &Table,
    store: &[u8],
    column: u32,
    from: u64,
    to: u64,
) -> Result<Vec<u8>, AllocError>
    requires column { IsColumnOf store.now table.now column }
    requires part { HasColumnRange store.now table.now column from to }
    ensures { IfOk result (λ v. v.items
        ≡ text_of (slice_range (elements_in_table store.now table.now column) from to)) }
{
    let mut bytes = Vec::with_capacity(alloc, (to - from) as usize)?;
    for i in from..to {
        bytes.push((number(table, store, column, i) % 256) as u8)?;
    }
    Ok(bytes)
}

/// Bytes that are the elements, as they lie.
fn borrowed(bytes: &[u8]) -> CowSlice<'_, u8>
    ensures text { cow_items result ≡ text_of (map plain bytes.now) }
    ensures lent { IsTrue (is_borrowed result) }
{
    CowSlice::Borrowed(bytes)
}

/// The low bytes of elements: borrowed exactly where they are of 8 bits and lie in one page, or are none, and then without memory.
pub fn text<'a>(
    alloc: Global,
    table: &Table,
    store: &'a [u8],
    column: u32,
    from: u64,
    to: u64,
) -> Result<CowSlice<'a, u8>, AllocError>
    requires column { IsColumnOf store.now table.now column }
    requires part { HasColumnRange store.now table.now column from to }
    ensures text { IfOk result (λ t. cow_items t
        ≡ text_of (slice_range (elements_in_table store.now table.now column) from to)) }
    ensures lent { (from ≡ to) ⊎ IsLent table.now.places.items (held_at table.now.columns.items column) from to
        → IsOkAnd result (λ t. IsTrue (is_borrowed t)) }
    ensures only { IfOk result (λ t. IsTrue (is_borrowed t)
        → (from ≡ to) ⊎ IsLent table.now.places.items (held_at table.now.columns.items column) from to) }
{
    match lent(table, store, column, from, to) {
        Some(bytes) => Ok(borrowed(bytes)),
        None => Ok(CowSlice::Owned(copied(alloc, table, store, column, from, to)?)),
    }
}

/// The elements from one place to before another as they lie: those of 8 bits in their page, and sums.
pub fn words<'a>(
    table: &'a Table,
    store: &'a [u8],
    column: u32,
    from: u64,
    to: u64,
) -> Option<WordSlice<'a>>
    requires column { IsColumnOf store.now table.now column }
    requires part { HasColumnRange store.now table.now column from to }
    ensures { IfSome result (λ w. lent_elements w
        ≡ slice_range (elements_in_table store.now table.now column) from to) }
{
    match table.held(column) {
        Held::Sums(place) => table.sums[place].words(from as usize, to as usize),
        _ => match lent(table, store, column, from, to) {
            Some(bytes) => Some(WordSlice::Bytes(bytes)),
            None => None,
        },
    }
}
