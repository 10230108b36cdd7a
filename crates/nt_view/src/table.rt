//! Where the elements of each column lie.

ghost use Rattle.std.specs.Prelude.{◌≡◌, ◌+◌, ◌<◌, ◌≤◌, ◌^◌, ◌++◌, ◌↔◌, [], ℕ, length, All, IsTrue, IfOk, OnOk};
ghost use Rattle.nt_column.specs.Column.{empty, with_more};
ghost use Rattle.nt_view.specs.Pages.{elements_of_pages, ArePages, IsSplitIndex};
ghost use Rattle.nt_view.specs.Stores.{lens_of};
ghost use Rattle.nt_view.specs.Loaded.{AreLoadable, zeros_listed};
ghost use Rattle.nt_view.specs.Table.{held_at, laid_from, elements_counted, IsPageGroup, IsColumnAt, GainsSums, GainsColumn, IsLaidTo};
ghost use Rattle.nt_view.specs.Table.{zeros_held, AreZeros, HasSamePages, IsEmptyTable};

use crate::page_place::{PagePlace, ZeroColumn};
use crate::place::{PageAt, page_bytes};
use crate::reading::stored_len;
use crate::wanting::Wanting;
use nt_column::ColumnBuf;
use nt_types::ColumnType;
use std::alloc::Global;

/// What the elements of a column are.
#[derive(Clone, Copy)]
pub enum Held {
    /// So many zeros.
    Zeros(u64),
    /// Those of pages, from one place of the list of pages to before another: how many they are together.
    Pages {
        kind: ColumnType,
        begin: usize,
        end: usize,
        count: u64,
    },
    /// Those of a split index, added up: the place in the list of such columns.
    Sums(usize),
}

/// The place of each page in the store, what is held of each column, and the numbers of split index columns.
#[derive(Drop)]
pub struct Table {
    pub places: Vec<PageAt>,
    pub columns: Vec<Held>,
    pub sums: Vec<ColumnBuf>,
    /// Buffers whose memory can be taken.
    pub spare: Vec<ColumnBuf>,
}

/// Makes the list one of so many columns, where it has fewer.
fn fill_up(columns: &mut Vec<Held>, len: usize) -> Result<(), Wanting>
    ensures same { (k : ℕ) → held_at columns.new.items k ≡ held_at columns.old.items k }
    ensures len { OnOk result (length columns.old.items ≤ len → length columns.new.items ≡ len) }
    ensures enough { OnOk result (len ≤ length columns.new.items) }
{
    while columns.len() < len {
        columns.push(Held::Zeros(0))?;
    }
    Ok(())
}

/// The end of the pages that are of the column of page i.
fn group_end(pages: &[PagePlace], i: usize) -> usize
    requires { i < length pages.now }
    ensures { IsPageGroup pages.now i result }
{
    let column = pages[i].column;
    let mut end = i + 1;
    while end < pages.len() && pages[end].column == column {
        end += 1;
    }
    end
}

/// Adds the places of a column's pages, which stand from a place of the store on: how many elements they have, and where they end.
fn lay_pages(
    pages: &[PagePlace],
    at: usize,
    places: &mut Vec<PageAt>,
) -> Result<(u64, usize), Wanting>
    requires { at + lens_of pages.now < 2 ^ 64 }
    ensures places { OnOk result (places.new.items ≡ places.old.items ++ laid_from 0 at pages.now) }
    ensures count { IfOk result (λ n. (n.0 ≡ elements_counted pages.now) × (n.1 ≡ at + lens_of pages.now)) }
{
    let mut first = 0u64;
    let mut here = at;
    for page in pages {
        places.push(PageAt {
            first,
            count: page.count,
            at: here,
        })?;
        first = match first.checked_add(u64::from(page.count)) {
            Some(sum) => sum,
            None => return Err(Wanting),
        };
        here += stored_len(page) as usize;
    }
    Ok((first, here))
}

/// Adds the elements of pages to an empty buffer of their type.
fn add_up(
    kind: ColumnType,
    store: &[u8],
    pages: &[PageAt],
    buffer: &mut ColumnBuf,
) -> Result<(), Wanting>
    requires pages { ArePages kind store.now pages.now }
    requires empty { buffer.old.column ≡ empty kind }
    ensures { OnOk result (buffer.new.column ≡ with_more (empty kind) (elements_of_pages kind store.now pages.now)) }
{
    for i in 0..pages.len() {
        let count = pages[i].count as usize;
        buffer.reserve(count)?;
        buffer.push_page(page_bytes(kind, store, pages[i]), count);
    }
    Ok(())
}

/// Whether the numbers of a type are sums of those before.
fn is_split_index(kind: ColumnType) -> bool
    ensures { IsTrue result ↔ IsSplitIndex kind }
{
    matches!(kind, ColumnType::SplitIndex32 | ColumnType::SplitIndex64)
}

/// A buffer of a type without elements, in the memory of another where that is of the type.
fn empty_buffer(alloc: Global, kind: ColumnType, spare: &mut Vec<ColumnBuf>) -> ColumnBuf
    ensures { result.column ≡ empty kind }
{
    match spare.pop() {
        Some(mut buffer) => {
            if buffer.kind() == kind {
                buffer.clear();
                return buffer;
            }
            ColumnBuf::new(alloc, kind)
        }
        None => ColumnBuf::new(alloc, kind),
    }
}

/// Adds up the numbers of a column of a split index: their place in the list of such columns.
fn new_sums(
    alloc: Global,
    kind: ColumnType,
    store: &[u8],
    pages: &[PageAt],
    spare: &mut Vec<ColumnBuf>,
    sums: &mut Vec<ColumnBuf>,
) -> Result<usize, Wanting>
    requires { ArePages kind store.now pages.now }
    ensures place { IfOk result (λ s. s ≡ length sums.old.items) }
    ensures gains { OnOk result (GainsSums kind (elements_of_pages kind store.now pages.now) sums.old.items sums.new.items) }
{
    let mut buffer = empty_buffer(alloc, kind, spare);
    add_up(kind, store, pages, &mut buffer)?;
    let place = sums.len();
    sums.push(buffer)?;
    Ok(place)
}

/// Adds a column that has these pages, which stand from a place of the store on: where they end.
fn add_column(
    alloc: Global,
    store: &[u8],
    pages: &[PagePlace],
    at: usize,
    table: &mut Table,
) -> Result<usize, Wanting>
    requires { IsColumnAt store.now pages.now at }
    ensures gains { OnOk result (GainsColumn store.now pages.now at table.old table.new) }
    ensures end { IfOk result (λ n. n ≡ at + lens_of pages.now) }
{
    let kind = pages[0].kind;
    let begin = table.places.len();
    let (count, behind) = lay_pages(pages, at, &mut table.places)?;
    let end = table.places.len();
    if !is_split_index(kind) {
        table.columns.push(Held::Pages {
            kind,
            begin,
            end,
            count,
        })?;
        return Ok(behind);
    }
    let pages_at = &table.places[begin..end];
    let place = new_sums(
        alloc,
        kind,
        store,
        pages_at,
        &mut table.spare,
        &mut table.sums,
    )?;
    table.columns.push(Held::Sums(place))?;
    Ok(behind)
}

/// Adds the columns of pages that stand one behind the other in the store.
pub fn add_columns(
    alloc: Global,
    store: &[u8],
    pages: &[PagePlace],
    table: &mut Table,
) -> Result<(), Wanting>
    requires empty { IsEmptyTable table.old }
    requires listed { AreLoadable pages.now [] }
    requires len { length store.now ≡ lens_of pages.now }
    ensures { OnOk result (IsLaidTo store.now pages.now (length pages.now) table.new) }
{
    let mut i = 0;
    let mut at = 0;
    while i < pages.len() {
        let end = group_end(pages, i);
        fill_up(&mut table.columns, pages[i].column as usize)?;
        at = add_column(alloc, store, &pages[i..end], at, table)?;
        i = end;
    }
    Ok(())
}

/// Makes each column that is listed one of so many zeros.
pub fn set_zeros(zeros: &[ZeroColumn], columns: &mut Vec<Held>) -> Result<(), Wanting>
    requires none { (k : ℕ) → zeros_held (held_at columns.old.items k) ≡ 0 }
    requires apart { All (λ z. AreZeros (held_at columns.old.items z.column)) zeros.now }
    ensures zero { OnOk result ((k : ℕ) → zeros_listed 0 k zeros.now ≡ zeros_held (held_at columns.new.items k)) }
    ensures pages { OnOk result ((k : ℕ) → HasSamePages (held_at columns.old.items k) (held_at columns.new.items k)) }
{
    for zero in zeros {
        let column = zero.column as usize;
        fill_up(columns, column + 1)?;
        columns[column] = Held::Zeros(zero.count);
    }
    Ok(())
}

impl Table {
    /// No column, in the memory of these.
    pub fn emptied(self, alloc: Global) -> Table
        ensures { IsEmptyTable result }
    {
        let mut places = self.places;
        places.clear();
        let mut columns = self.columns;
        columns.clear();
        Table {
            places,
            columns,
            sums: Vec::new(alloc),
            spare: self.sums,
        }
    }
}
