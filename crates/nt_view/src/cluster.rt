//! The pages of a cluster, loaded as they are stored.

ghost use Rattle.std.specs.Prelude.{◌≡◌, ◌<◌, ◌^◌, [], length, take, Some, slice_get, slice_index_or, IfOk};
ghost use Rattle.nt_view.specs.declared.page_place.PagePlace.{PagePlace};
ghost use Rattle.nt_view.specs.Loads.{loaded_len, load_of, LoadsFile, ServesView};
ghost use Rattle.nt_view.specs.Loaded.{AreLoadable, nothing_loaded, loaded_with};
ghost use Rattle.nt_view.specs.Stores.{cut_up, lens_of};
ghost use Rattle.nt_view.specs.Views.{page_seen};

use crate::fault::ViewFault;
use crate::lookup;
use crate::page_place::{PagePlace, ZeroColumn};
use crate::place::{are_bytes, part_of};
use crate::reading::{read_pages, stored_len};
use crate::table::{Table, add_columns, set_zeros};
use crate::view::{PageView, count_before};
use crate::wanting::Wanting;
use nt_column::{Columns, CowSlice, WordSlice};
use nt_outside::ReadAt;
use std::alloc::{AllocError, Global};
use std::marker::Model;

/// The pages of the columns of a cluster, as they are stored, and the columns that they give.
///
/// A page's bytes are kept as they were read. Of a column of a split index, whose numbers are sums of those before, the sums are kept
/// beside its pages. Contracts see the pages, their stored bytes and the
/// columns of zeros; `loaded_elements` says what elements these give.
#[derive(Drop)]
pub struct ClusterBytes {
    store: Vec<u8>,
    pages: Vec<PagePlace>,
    zeros: Vec<ZeroColumn>,
    table: Table,
}

impl Model for ClusterBytes {
    ghost use Rattle.nt_view.specs.Loaded.{Loaded};
    ghost use Rattle.nt_view.specs.Stores.{cut_up};
    ghost use Rattle.nt_view.specs.Table.{IsClusterLaid};

    ghost Value = { Loaded };

    ghost view = { λ c. record { pages = c.pages.items; stored = cut_up c.pages.items c.store.items; zeros = c.zeros.items } };

    ghost invariant = { λ c. IsClusterLaid c.store.items c.pages.items c.zeros.items c.table.places.items c.table.columns.items c.table.sums.items };
}

impl ClusterBytes {
    /// No page and no column.
    pub fn new(alloc: Global) -> ClusterBytes
        ensures { result ≡ nothing_loaded }
    {
        ClusterBytes {
            store: Vec::new(alloc),
            pages: Vec::new(alloc),
            zeros: Vec::new(alloc),
            table: Table {
                places: Vec::new(alloc),
                columns: Vec::new(alloc),
                sums: Vec::new(alloc),
                spare: Vec::new(alloc),
            },
        }
    }

    /// Loads pages, and columns of zeros, from a file. Pages that follow one another closely in the file are read at once. Of the
    /// first page that doesn't lie in the file or has another checksum the fault is told.
    pub fn load<F: ReadAt>(
        alloc: Global,
        file: &mut F,
        pages: &[PagePlace],
        zeros: &[ZeroColumn],
    ) -> Result<ClusterBytes, ViewFault>
        requires listed { AreLoadable pages.now zeros.now }
        ensures file { ServesView (F.state file.old) (F.state file.new) result }
        ensures read { LoadsFile (λ c. c) (λ told. load_of told pages.now zeros.now) (F.state file.old) result }
        ensures listed { IfOk result (λ c. (c.pages ≡ pages.now) × (c.zeros ≡ zeros.now)) }
    {
        ClusterBytes::new(alloc).load_over(alloc, file, pages, zeros)
    }

    /// Loads pages, and columns of zeros, as `load` does, in the memory of these.
    pub fn load_over<F: ReadAt>(
        self,
        alloc: Global,
        file: &mut F,
        pages: &[PagePlace],
        zeros: &[ZeroColumn],
    ) -> Result<ClusterBytes, ViewFault>
        requires listed { AreLoadable pages.now zeros.now }
        ensures file { ServesView (F.state file.old) (F.state file.new) result }
        ensures read { LoadsFile (λ c. c) (λ told. load_of told pages.now zeros.now) (F.state file.old) result }
        ensures listed { IfOk result (λ c. (c.pages ≡ pages.now) × (c.zeros ≡ zeros.now)) }
    {
        let store = read_pages(file, pages, self.store)?;
        let kept = Kept {
            pages: self.pages,
            zeros: self.zeros,
            table: self.table,
        };
        Ok(assembled(alloc, store, pages, zeros, kept)?)
    }

    /// The number of pages, each of which has its stored bytes.
    pub fn pages(&self) -> u32
        ensures pages { result ≡ length self.now.pages }
        ensures stored { result ≡ length self.now.stored }
    {
        self.pages.len() as u32
    }

    /// A page as it was listed.
    pub fn page(&self, i: u32) -> PagePlace
        requires { i < length self.now.pages }
        ensures { slice_get self.now.pages i ≡ Some result }
    {
        self.pages[i as usize]
    }

    /// The bytes of a page as they are stored, without its checksum.
    pub fn page_bytes(&self, i: u32) -> &[u8]
        requires { i < length self.now.pages }
        ensures { (d : PagePlace) → result.now ≡ take (slice_index_or self.now.pages i d).size (slice_index_or self.now.stored i []) }
    {
        let at = self.table.places[i as usize].at;
        part_of(&self.store, at, self.pages[i as usize].size as usize)
    }

    /// A page seen by itself.
    pub fn view(&self, page: u32) -> PageView<'_>
        requires { page < length self.now.pages }
        ensures { (d : PagePlace) → result
            ≡ page_seen (slice_index_or self.now.pages page d) (slice_index_or self.now.stored page []) }
    {
        let place = self.pages[page as usize];
        let bytes = self.page_bytes(page);
        match lookup::sums_of(&self.table, &self.store, place.column) {
            None => PageView {
                kind: place.kind,
                count: place.count,
                bytes,
                sums: None,
                first: 0,
            },
            Some(sums) => {
                let _all = sums.len();
                PageView {
                    kind: place.kind,
                    count: place.count,
                    bytes,
                    sums: Some(sums),
                    first: count_before(&self.pages, place.column, page as usize),
                }
            }
        }
    }

    /// The bytes of a page as they are stored, with its checksum behind them where it has one.
    pub fn page_stored(&self, i: u32) -> &[u8]
        requires { i < length self.now.pages }
        ensures bytes { slice_get self.now.stored i ≡ Some result.now }
        ensures len { (d : PagePlace) → length result.now ≡ loaded_len (slice_index_or self.now.pages i d) }
    {
        let at = self.table.places[i as usize].at;
        let len = stored_len(&self.pages[i as usize]);
        part_of(&self.store, at, len as usize)
    }
}

impl Columns for ClusterBytes {
    ghost use Rattle.std.specs.Prelude.{◌≡◌, ◌≤◌, length, IsTrue, IfOk, IsOkAnd};
    ghost use Rattle.std.specs.List.{slice_range};
    ghost use Rattle.nt_column.specs.Elements.{text_of};
    ghost use Rattle.nt_column.specs.Cow.{cow_items, is_borrowed};
    ghost use Rattle.nt_view.specs.Loaded.{loaded_elements, loaded_kind, AreLent};

    ghost elements = { λ l k. loaded_elements l k };

    ghost kind = { λ l k. loaded_kind l k };

    fn in_range(&self) {
        for buffer in &self.table.sums {
            buffer.in_range();
        }
        are_bytes(&self.store);
    }

    fn len(&self, column: u32) -> u64 {
        lookup::len(&self.table, &self.store, column)
    }

    fn number(&self, column: u32, i: u64) -> u64 {
        lookup::number(&self.table, &self.store, column, i)
    }

    fn tag(&self, column: u32, i: u64) -> u32 {
        lookup::tag(&self.table, &self.store, column, i)
    }

    fn text(
        &self,
        alloc: Global,
        column: u32,
        from: u64,
        to: u64,
    ) -> Result<CowSlice<'_, u8>, AllocError>
        requires order { from ≤ to }
        requires within { to ≤ length (loaded_elements self.now column) }
        ensures text { IfOk result
            (λ t. cow_items t ≡ text_of (slice_range (loaded_elements self.now column) from to)) }
        // Exactly where they lie in one page of 8-bit elements, or are none, nothing is copied, and no memory is taken.
        ensures lent { AreLent self.now column from to → IsOkAnd result (λ t. IsTrue (is_borrowed t)) }
        ensures only { IfOk result (λ t. IsTrue (is_borrowed t) → AreLent self.now column from to) }
    {
        lookup::text(alloc, &self.table, &self.store, column, from, to)
    }

    fn words(&self, column: u32, from: u64, to: u64) -> Option<WordSlice<'_>> {
        lookup::words(&self.table, &self.store, column, from, to)
    }

    fn read(&self, column: u32, from: u64, out: &mut [u64]) -> usize {
        lookup::read(&self.table, &self.store, column, from, out)
    }
}

/// Lists of other loaded pages, whose memory is taken.
#[derive(Drop)]
struct Kept {
    pages: Vec<PagePlace>,
    zeros: Vec<ZeroColumn>,
    table: Table,
}

/// The cluster whose pages stand one behind the other in a store.
fn assembled(
    alloc: Global,
    store: Vec<u8>,
    pages: &[PagePlace],
    zeros: &[ZeroColumn],
    kept: Kept,
) -> Result<ClusterBytes, Wanting>
    requires listed { AreLoadable pages.now zeros.now }
    requires len { (length store.items ≡ lens_of pages.now) × (length pages.now < 2 ^ 32) }
    ensures { IfOk result (λ c. c ≡ loaded_with pages.now (cut_up pages.now store.items) zeros.now) }
{
    let mut table = kept.table.emptied(alloc);
    add_columns(alloc, &store, pages, &mut table)?;
    set_zeros(zeros, &mut table.columns)?;
    let pages = copied(pages, kept.pages)?;
    let zeros = copied(zeros, kept.zeros)?;
    Ok(ClusterBytes {
        store,
        pages,
        zeros,
        table,
    })
}

/// A copy of a list, in the memory of another.
fn copied<T: Copy>(list: &[T], kept: Vec<T>) -> Result<Vec<T>, Wanting>
    ensures { IfOk result (λ v. v.items ≡ list.now) }
{
    let mut copy = kept;
    copy.clear();
    copy.extend_from_slice(list)?;
    Ok(copy)
}
