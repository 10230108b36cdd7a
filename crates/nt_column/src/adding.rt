//! Elements that are added to a store which has room for them, or written behind its first ones.

ghost use Rattle.std.specs.Prelude.{◌≡◌, ◌+◌, ◌<◌, ◌≤◌, [], ◌∷◌, ◌++◌, length, map, IfOk, OnOk, OnErr, IsOk};
ghost use Rattle.nt_column.specs.Elements.{plain, page_elements};
ghost use Rattle.nt_column.specs.Store.{elements_of, width_of, spare_of, TakesPage, TakesValue};
ghost use Rattle.nt_column.specs.Filled.{HasPageBehind, KeepsFirst};
ghost use Rattle.nt_column.specs.Widths.{pair_width};

use crate::filling::{fill_8, fill_16, fill_32, fill_64, fill_bits};
use crate::store::Store;
use nt_types::ColumnType;
use std::alloc::AllocError;

impl Store {
    /// Adds an element of any type but Switch.
    pub fn push(&mut self, value: u64)
        requires takes { TakesValue self.old value }
        requires spare { 0 < spare_of self.old }
        ensures elements { elements_of self.new ≡ elements_of self.old ++ plain value ∷ [] }
        ensures width { width_of self.new ≡ width_of self.old }
        ensures spare { spare_of self.old ≤ spare_of self.new + 1 }
    {
        match self {
            Store::Bits(list) => list.push_reserved(value == 1),
            Store::Bytes(list) => list.push_reserved(value as u8),
            Store::Words16(list) => list.push_reserved(value as u16),
            Store::Words32(list) => list.push_reserved(value as u32),
            Store::Words64(list) => list.push_reserved(value),
            Store::Pairs(_) => unreachable!(),
        }
    }

    /// Adds an element of a width that the caller knows. Where it is a constant, the store isn't asked for its own.
    #[inline(always)]
    pub fn push_at_width(&mut self, bits: u8, value: u64)
        requires takes { (width_of self.old ≡ bits) × TakesValue self.old value }
        requires spare { 0 < spare_of self.old }
        ensures elements { elements_of self.new ≡ elements_of self.old ++ plain value ∷ [] }
        ensures width { width_of self.new ≡ width_of self.old }
        ensures spare { spare_of self.old ≤ spare_of self.new + 1 }
    {
        match bits {
            8 => match self {
                Store::Bytes(bytes) => bytes.push_reserved(value as u8),
                _ => unreachable!(),
            },
            16 => match self {
                Store::Words16(words) => words.push_reserved(value as u16),
                _ => unreachable!(),
            },
            32 => match self {
                Store::Words32(words) => words.push_reserved(value as u32),
                _ => unreachable!(),
            },
            64 => match self {
                Store::Words64(words) => words.push_reserved(value),
                _ => unreachable!(),
            },
            _ => self.push(value),
        }
    }

    /// Adds an element of a Switch.
    pub fn push_pair(&mut self, index: u64, tag: u32)
        requires kind { width_of self.old ≡ pair_width }
        requires spare { 0 < spare_of self.old }
        ensures elements { elements_of self.new ≡ elements_of self.old ++ (index, tag) ∷ [] }
        ensures width { width_of self.new ≡ width_of self.old }
        ensures spare { spare_of self.old ≤ spare_of self.new + 1 }
    {
        match self {
            Store::Pairs(pairs) => pairs.push(index, tag),
            _ => unreachable!(),
        }
    }

    /// Adds elements of 8 bits.
    pub fn push_bytes(&mut self, bytes: &[u8])
        requires kind { width_of self.old ≡ 8 }
        requires spare { length bytes.now ≤ spare_of self.old }
        ensures elements { elements_of self.new ≡ elements_of self.old ++ map plain bytes.now }
        ensures width { width_of self.new ≡ width_of self.old }
        ensures spare { spare_of self.old ≤ spare_of self.new + length bytes.now }
    {
        match self {
            Store::Bytes(list) => match list.extend_from_slice(bytes) {
                Ok(()) => {}
                Err(_) => unreachable!(),
            },
            _ => unreachable!(),
        }
    }

    /// Writes the elements of a page of so many behind the first elements, and gives how many there are
    /// then. What stood there is written over.
    pub fn fill(
        &mut self,
        kind: ColumnType,
        filled: usize,
        bytes: &[u8],
        count: usize,
    ) -> Result<usize, AllocError>
        requires { TakesPage self.old kind count bytes.now × (filled ≤ length (elements_of self.old)) }
        ensures page { IfOk result (λ n. (n ≡ filled + count) × HasPageBehind filled count (page_elements kind count bytes.now)
            (elements_of self.old) (elements_of self.new) (spare_of self.old) (spare_of self.new)) }
        ensures width { width_of self.new ≡ width_of self.old }
        ensures failed { OnErr result (KeepsFirst filled (elements_of self.old) (elements_of self.new)) }
        ensures succeeds { count ≤ spare_of self.old → IsOk result }
    {
        match self {
            Store::Bits(list) => fill_bits(list, kind, filled, bytes, count),
            Store::Bytes(list) => fill_8(list, kind, filled, bytes, count),
            Store::Words16(list) => fill_16(list, kind, filled, bytes, count),
            Store::Words32(list) => fill_32(list, kind, filled, bytes, count),
            Store::Words64(list) => fill_64(list, kind, filled, bytes, count),
            Store::Pairs(pairs) => pairs.fill(filled, bytes, count),
        }
    }
}
