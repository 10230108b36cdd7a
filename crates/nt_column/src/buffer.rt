//! A column in memory, whose elements are added one after the other.

ghost use Rattle.std.specs.Prelude.{◌≡◌, ◌≢◌, ◌+◌, ◌-◌, ◌<◌, ◌≤◌, ◌^◌, [], ◌∷◌, length, map, take, slice_index, IsSomeAnd, IfSome, OnOk, IfOk};
ghost use Rattle.std.specs.List.{slice_range};
ghost use Rattle.nt_types.specs.declared.column_type.ColumnType.TheVariants.{Switch};
ghost use Rattle.nt_types.specs.ColumnTable.{bits_of};
ghost use Rattle.nt_encode.specs.Pages.{page_size};
ghost use Rattle.nt_column.specs.Elements.{plain, numbers, tags, page_of, page_elements};
ghost use Rattle.nt_column.specs.Words.{lent_elements, lent_width};
ghost use Rattle.nt_column.specs.Column.{empty, zeroed, with_more, cut_to, IsInRange, TakesNumber};
ghost use Rattle.nt_lists.specs.Chunks.{chunks};

use crate::page_buf::PageBuf;
use crate::store::Store;
use crate::store_page::encode_store;
use crate::words::{WordSlice, words_of};
use crate::zero_page::encode_zeros;
use nt_types::ColumnType;
use std::alloc::{AllocError, Global};
use std::marker::Model;
use std::mem;

/// A column's elements, each kept at its own width: a byte where the type has 8 bits. Signed
/// values are given as their two's complement.
#[derive(Drop)]
pub struct ColumnBuf {
    kind: ColumnType,
    store: Store,
    /// So many zeros are the column; then `store` is empty.
    zeros: usize,
    /// Memory for pages; its elements mean nothing.
    kept: Store,
    alloc: Global,
}

impl Model for ColumnBuf {
    ghost use Rattle.nt_column.specs.Column.{Buffer};

    ghost Value = { Buffer };

    ghost use Rattle.std.specs.Prelude.{◌≡◌, ◌<◌, [], ◌++◌, replicate};
    ghost use Rattle.nt_types.specs.ColumnTable.{bits_of};
    ghost use Rattle.nt_column.specs.Elements.{plain};
    ghost use Rattle.nt_column.specs.Store.{elements_of, width_of, spare_of};

    ghost view = { λ b. record { column = record { kind = b.kind; elements = replicate b.zeros (plain 0) ++ elements_of b.store; zeros = b.zeros }; spare = spare_of b.store } };

    ghost invariant = { λ b. (width_of b.store ≡ bits_of b.kind) × (0 < b.zeros → elements_of b.store ≡ []) × (width_of b.kept ≡ bits_of b.kind) };
}

impl ColumnBuf {
    /// No element.
    pub fn new(alloc: Global, kind: ColumnType) -> ColumnBuf
        ensures { result.column ≡ empty kind }
    {
        ColumnBuf {
            kind,
            store: Store::new(alloc, kind),
            zeros: 0,
            kept: Store::new(alloc, kind),
            alloc,
        }
    }

    /// The type of the column.
    pub fn kind(&self) -> ColumnType
        ensures { result ≡ self.now.column.kind }
    {
        self.kind
    }

    /// Each element is one of the column's type.
    pub fn in_range(&self)
        ensures { IsInRange self.now.column }
    {
        self.store.in_range(self.kind);
    }

    /// The number of elements.
    #[inline(always)]
    pub fn len(&self) -> usize
        ensures { result ≡ length self.now.column.elements }
    {
        self.zeros + self.store.len() // one of them is 0
    }

    /// The number of pages of at most so many elements.
    pub fn page_cut(&self, page: u32) -> usize
        requires { 0 < page }
        ensures { result ≡ length (chunks page self.now.column.elements) }
    {
        self.len().div_ceil(page as usize)
    }

    /// Takes the memory that so many more elements need. It is called before any push.
    pub fn reserve(&mut self, more: usize) -> Result<(), AllocError>
        ensures column { self.new.column ≡ self.old.column }
        ensures ok { OnOk result (more ≤ self.new.spare) }
        ensures spare { self.old.spare ≤ self.new.spare }
    {
        self.store.reserve(more)
    }

    /// Takes the memory that so many more elements need, as `reserve` does, and gives how many there are.
    #[inline(always)]
    pub fn ready(&mut self, more: usize) -> Result<usize, AllocError>
        ensures column { self.new.column ≡ self.old.column }
        ensures ok { OnOk result (more ≤ self.new.spare) }
        ensures len { IfOk result (λ n. n ≡ length self.old.column.elements) }
        ensures spare { self.old.spare ≤ self.new.spare }
    {
        self.store.reserve(more)?;
        Ok(self.len())
    }

    /// How many more elements there is memory for.
    #[inline(always)]
    pub fn spare(&self) -> usize
        ensures { result ≡ self.now.spare }
    {
        self.store.spare()
    }

    /// Adds an element of any type but Switch.
    pub fn push(&mut self, value: u64)
        requires takes { TakesNumber self.old.column value }
        requires spare { 1 ≤ self.old.spare }
        ensures column { self.new.column ≡ with_more self.old.column (plain value ∷ []) }
        ensures spare { self.old.spare ≤ self.new.spare + 1 }
    {
        self.store.push(value);
    }

    /// Adds an element to a column whose width the caller knows. Where it is a constant, no width is looked at.
    #[inline(always)]
    pub fn push_at_width(&mut self, bits: u8, value: u64)
        requires width { bits_of self.old.column.kind ≡ bits }
        requires takes { TakesNumber self.old.column value }
        requires spare { 1 ≤ self.old.spare }
        ensures column { self.new.column ≡ with_more self.old.column (plain value ∷ []) }
        ensures spare { self.old.spare ≤ self.new.spare + 1 }
    {
        self.store.push_at_width(bits, value);
    }

    /// Adds an element of a Switch.
    pub fn push_switch(&mut self, index: u64, tag: u32)
        requires kind { self.old.column.kind ≡ Switch }
        requires stored { self.old.column.zeros ≡ 0 }
        requires spare { 1 ≤ self.old.spare }
        ensures column { self.new.column ≡ with_more self.old.column ((index, tag) ∷ []) }
        ensures spare { self.old.spare ≤ self.new.spare + 1 }
    {
        self.store.push_pair(index, tag);
    }

    /// Adds an element for each byte.
    pub fn push_bytes(&mut self, bytes: &[u8])
        requires kind { bits_of self.old.column.kind ≡ 8 }
        requires stored { self.old.column.zeros ≡ 0 }
        requires spare { length bytes.now ≤ self.old.spare }
        ensures column { self.new.column ≡ with_more self.old.column (map plain bytes.now) }
        ensures spare { self.old.spare ≤ self.new.spare + length bytes.now }
    {
        self.store.push_bytes(bytes);
    }

    /// Adds the elements of a page of so many, read from its bytes. For many pages there is `begin`.
    pub fn push_page(&mut self, bytes: &[u8], count: usize)
        requires stored { self.old.column.zeros ≡ 0 }
        requires length { length bytes.now ≡ page_size self.old.column.kind count }
        requires spare { count ≤ self.old.spare }
        ensures column { self.new.column ≡ with_more self.old.column
            (page_elements self.old.column.kind count bytes.now) }
        ensures spare { self.old.spare ≤ self.new.spare + count }
    {
        let len = self.store.len();
        match self.store.fill(self.kind, len, bytes, count) {
            Ok(_) => {}
            Err(_) => unreachable!(),
        }
    }

    /// Drops the elements behind the first ones, and keeps their memory.
    pub fn cut(&mut self, len: usize)
        ensures column { self.new.column ≡ cut_to len self.old.column }
        ensures spare { self.old.spare ≤ self.new.spare }
    {
        self.store.cut(len);
        self.zeros = self.zeros.min(len);
    }

    /// Takes all elements away, and keeps their memory.
    pub fn clear(&mut self)
        ensures column { self.new.column ≡ empty self.old.column.kind }
        ensures spare { self.old.spare ≤ self.new.spare }
    {
        self.store.clear();
        self.zeros = 0;
    }

    /// Takes all elements away, and keeps their memory for pages.
    pub fn recycle(&mut self)
        ensures { self.new.column ≡ empty self.old.column.kind }
    {
        // What was last filled, or else the larger of the two, is for pages.
        if self.store.len() > 0 || self.kept.spare() < self.store.spare() {
            mem::swap(&mut self.store, &mut self.kept);
        }
        self.store.clear();
        self.zeros = 0;
    }

    /// No elements of pages yet, in the memory that is kept here for them. `end` gives them to the column.
    pub fn begin(&mut self) -> PageBuf
        ensures pages { result ≡ empty self.old.column.kind }
        ensures same { self.new ≡ self.old }
    {
        PageBuf {
            kind: self.kind,
            store: mem::replace(&mut self.kept, Store::new(self.alloc, self.kind)),
            filled: 0,
        }
    }

    /// Takes the elements of pages in place of its own, without a copy.
    pub fn end(&mut self, pages: PageBuf)
        requires { pages.kind ≡ self.old.column.kind }
        ensures { self.new.column ≡ pages }
    {
        let mut store = pages.store;
        store.cut(pages.filled);
        self.store = store;
        self.zeros = 0;
    }

    /// Makes the empty column one of so many zeros, kept as their count. It isn't pushed to.
    pub(crate) fn zeros(&mut self, count: u64)
        requires { self.old.column.elements ≡ [] }
        ensures column { self.new.column ≡ zeroed self.old.column.kind count }
        ensures spare { self.old.spare ≤ self.new.spare }
    {
        self.zeros = count as usize;
    }

    /// Element i; of a Switch its index.
    #[inline(always)]
    pub fn number(&self, i: usize) -> u64
        requires { i < length self.now.column.elements }
        ensures { result ≡ slice_index (numbers self.now.column.elements) i }
    {
        if self.zeros > 0 {
            0
        } else {
            self.store.number(i)
        }
    }

    /// The tag of element i; 0 but in a Switch.
    pub fn tag(&self, i: usize) -> u32
        requires { i < length self.now.column.elements }
        ensures { result ≡ slice_index (tags self.now.column.elements) i }
    {
        if self.zeros > 0 { 0 } else { self.store.tag(i) }
    }

    /// Writes the page of the elements from one place to before another, in the coding of the
    /// column's type.
    pub fn encode(&self, from: usize, to: usize, out: &mut [u8])
        requires order { from ≤ to }
        requires within { to ≤ length self.now.column.elements }
        requires length { length out.old ≡ page_size self.now.column.kind (to - from) }
        ensures { out.new ≡ page_of self.now.column.kind
            (slice_range self.now.column.elements from to) }
    {
        if self.zeros > 0 {
            encode_zeros(self.kind, to - from, out);
        } else {
            encode_store(&self.store, self.kind, from, to, out);
        }
    }

    /// Reads the numbers from a place on, as many as are there and as there is room for, and gives how
    /// many.
    pub fn read(&self, from: usize, out: &mut [u64]) -> usize
        requires within { from < length self.now.column.elements }
        requires room { 0 < length out.old }
        ensures some { (0 < result) × (result ≤ length out.new) × (length out.new ≡ length out.old) }
        ensures within { from + result ≤ length self.now.column.elements }
        ensures read { take result out.new
            ≡ slice_range (numbers self.now.column.elements) from (from + result) }
    {
        let count = out.len().min(self.len() - from);
        for i in 0..count {
            out[i] = self.number(from + i);
        }
        count
    }

    /// The elements from one place to before another as they lie here, where they are neither kept as a
    /// count nor pairs.
    #[inline(always)]
    pub fn words(&self, from: usize, to: usize) -> Option<WordSlice<'_>>
        requires order { from ≤ to }
        requires within { to ≤ length self.now.column.elements }
        ensures words { IfSome result
            (λ w. lent_elements w ≡ slice_range self.now.column.elements from to) }
        ensures found { self.now.column.kind ≢ Switch → self.now.column.zeros ≡ 0
            → IsSomeAnd result (λ w. lent_width w ≡ bits_of self.now.column.kind) }
    {
        if self.zeros > 0 {
            None
        } else {
            words_of(&self.store, from, to)
        }
    }
}
