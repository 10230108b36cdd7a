//! The elements of a buffer, each kept at the width of its type.

ghost use Rattle.std.specs.Prelude.{◌≡◌, ◌<◌, ◌≤◌, [], length, take, slice_index, OnOk};
ghost use Rattle.nt_types.specs.ColumnTable.{bits_of};
ghost use Rattle.nt_column.specs.Elements.{numbers, tags, AreElementsOf};
ghost use Rattle.nt_column.specs.Store.{elements_of, width_of, spare_of};

use crate::pairs::PairList;
use crate::ranges::{bits_in_range, bytes_in_range, in_range_16, in_range_32, in_range_64};
use nt_types::ColumnType;
use std::alloc::{AllocError, Global};

/// Numbers in a list of their own width, or the pairs of a Switch.
#[derive(Drop)]
pub enum Store {
    Bits(Vec<bool>),
    Bytes(Vec<u8>),
    Words16(Vec<u16>),
    Words32(Vec<u32>),
    Words64(Vec<u64>),
    Pairs(PairList),
}

impl Store {
    /// No element of this type.
    pub fn new(alloc: Global, kind: ColumnType) -> Store
        ensures elements { elements_of result ≡ [] }
        ensures width { width_of result ≡ bits_of kind }
    {
        match kind.bits() {
            1 => Store::Bits(Vec::new(alloc)),
            8 => Store::Bytes(Vec::new(alloc)),
            16 => Store::Words16(Vec::new(alloc)),
            32 => Store::Words32(Vec::new(alloc)),
            64 => Store::Words64(Vec::new(alloc)),
            _ => Store::Pairs(PairList::new(alloc)),
        }
    }

    /// The number of elements.
    #[inline(always)]
    pub fn len(&self) -> usize
        ensures { result ≡ length (elements_of self.now) }
    {
        match self {
            Store::Bits(list) => list.len(),
            Store::Bytes(list) => list.len(),
            Store::Words16(list) => list.len(),
            Store::Words32(list) => list.len(),
            Store::Words64(list) => list.len(),
            Store::Pairs(pairs) => pairs.len(),
        }
    }

    /// How many more elements there is room for.
    #[inline(always)]
    pub fn spare(&self) -> usize
        ensures { result ≡ spare_of self.now }
    {
        match self {
            Store::Bits(list) => list.capacity() - list.len(),
            Store::Bytes(list) => list.capacity() - list.len(),
            Store::Words16(list) => list.capacity() - list.len(),
            Store::Words32(list) => list.capacity() - list.len(),
            Store::Words64(list) => list.capacity() - list.len(),
            Store::Pairs(pairs) => pairs.spare(),
        }
    }

    /// Takes the memory for so many more elements. Mostly there is room, which is seen without a look at their width.
    #[inline(always)]
    pub fn reserve(&mut self, more: usize) -> Result<(), AllocError>
        ensures elements { elements_of self.new ≡ elements_of self.old }
        ensures width { width_of self.new ≡ width_of self.old }
        ensures ok { OnOk result (more ≤ spare_of self.new) }
        ensures spare { spare_of self.old ≤ spare_of self.new }
    {
        if more <= self.spare() {
            return Ok(());
        }
        self.grow(more)
    }

    /// Takes the memory for so many more elements, for which there is no room yet.
    #[inline(never)]
    fn grow(&mut self, more: usize) -> Result<(), AllocError>
        ensures elements { elements_of self.new ≡ elements_of self.old }
        ensures width { width_of self.new ≡ width_of self.old }
        ensures ok { OnOk result (more ≤ spare_of self.new) }
        ensures spare { spare_of self.old ≤ spare_of self.new }
    {
        match self {
            Store::Bits(list) => list.reserve(more),
            Store::Bytes(list) => list.reserve(more),
            Store::Words16(list) => list.reserve(more),
            Store::Words32(list) => list.reserve(more),
            Store::Words64(list) => list.reserve(more),
            Store::Pairs(pairs) => pairs.reserve(more),
        }
    }

    /// Each element is one of a type of this width.
    pub fn in_range(&self, kind: ColumnType)
        requires { width_of self.now ≡ bits_of kind }
        ensures { AreElementsOf kind (elements_of self.now) }
    {
        match self {
            Store::Bits(list) => bits_in_range(kind, list),
            Store::Bytes(list) => bytes_in_range(kind, list),
            Store::Words16(list) => in_range_16(kind, list),
            Store::Words32(list) => in_range_32(kind, list),
            Store::Words64(list) => in_range_64(kind, list),
            Store::Pairs(pairs) => pairs.in_range(kind),
        }
    }

    /// Drops the elements behind the first ones.
    pub fn cut(&mut self, len: usize)
        ensures elements { elements_of self.new ≡ take len (elements_of self.old) }
        ensures width { width_of self.new ≡ width_of self.old }
        ensures spare { spare_of self.old ≤ spare_of self.new }
    {
        match self {
            Store::Bits(list) => list.truncate(len),
            Store::Bytes(list) => list.truncate(len),
            Store::Words16(list) => list.truncate(len),
            Store::Words32(list) => list.truncate(len),
            Store::Words64(list) => list.truncate(len),
            Store::Pairs(pairs) => pairs.cut(len),
        }
    }

    /// Takes all elements away, and keeps their memory.
    pub fn clear(&mut self)
        ensures elements { elements_of self.new ≡ [] }
        ensures width { width_of self.new ≡ width_of self.old }
        ensures spare { spare_of self.old ≤ spare_of self.new }
    {
        match self {
            Store::Bits(list) => list.clear(),
            Store::Bytes(list) => list.clear(),
            Store::Words16(list) => list.clear(),
            Store::Words32(list) => list.clear(),
            Store::Words64(list) => list.clear(),
            Store::Pairs(pairs) => pairs.clear(),
        }
    }

    /// Element i; of a Switch its index.
    #[inline(always)]
    pub fn number(&self, i: usize) -> u64
        requires { i < length (elements_of self.now) }
        ensures { result ≡ slice_index (numbers (elements_of self.now)) i }
    {
        match self {
            Store::Bits(list) => u64::from(list[i]),
            Store::Bytes(list) => u64::from(list[i]),
            Store::Words16(list) => u64::from(list[i]),
            Store::Words32(list) => u64::from(list[i]),
            Store::Words64(list) => list[i],
            Store::Pairs(pairs) => pairs.index(i),
        }
    }

    /// The tag of element i; 0 but in a Switch.
    pub fn tag(&self, i: usize) -> u32
        requires { i < length (elements_of self.now) }
        ensures { result ≡ slice_index (tags (elements_of self.now)) i }
    {
        match self {
            Store::Pairs(pairs) => pairs.tag(i),
            _ => 0,
        }
    }
}
