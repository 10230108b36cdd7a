//! The pairs of a Switch column.

ghost use Rattle.std.specs.Prelude.{◌≡◌, ◌+◌, ◌-◌, ◌*◌, ◌<◌, ◌≤◌, [], ◌∷◌, ◌++◌, length, take, slice_index, IfOk, OnOk, OnErr, IsOk};
ghost use Rattle.std.specs.List.{slice_range};
ghost use Rattle.nt_encode.specs.Switch.{switch_bytes};
ghost use Rattle.nt_column.specs.Elements.{numbers, tags, page_elements, AreElementsOf};
ghost use Rattle.nt_types.specs.declared.column_type.ColumnType.TheVariants.{Switch};
ghost use Rattle.nt_types.specs.ColumnTable.{bits_of};
ghost use Rattle.nt_column.specs.Filled.{HasPageBehind, KeepsFirst};
ghost use Rattle.nt_column.specs.Widths.{pair_width};

use crate::filling::{push_indices, push_tags};
use crate::ranges::pairs_in_range;
use nt_encode::encode_switch;
use nt_types::ColumnType;
use std::alloc::{AllocError, Global};
use std::marker::Model;

/// An index and a tag for each element.
#[derive(Drop)]
pub struct PairList {
    indices: Vec<u64>,
    tags: Vec<u32>,
}

impl Model for PairList {
    ghost use Rattle.nt_column.specs.Kept.{Kept};

    ghost Value = { Kept };

    ghost use Rattle.std.specs.Prelude.{◌≡◌, ◌-◌, min, vec_len, vec_capacity};
    ghost use Rattle.std.specs.List.{zip};

    ghost view = { λ p. record { elements = zip p.indices.items p.tags.items; spare = min (vec_capacity p.indices - vec_len p.indices) (vec_capacity p.tags - vec_len p.tags) } };

    ghost invariant = { λ p. vec_len p.tags ≡ vec_len p.indices };
}

impl PairList {
    /// No pair.
    pub fn new(alloc: Global) -> PairList
        ensures { result.elements ≡ [] }
    {
        PairList {
            indices: Vec::new(alloc),
            tags: Vec::new(alloc),
        }
    }

    /// The number of pairs.
    pub fn len(&self) -> usize
        ensures { result ≡ length self.now.elements }
    {
        self.indices.len()
    }

    /// How many more pairs there is room for.
    pub fn spare(&self) -> usize
        ensures { result ≡ self.now.spare }
    {
        let spare = self.indices.capacity() - self.indices.len();
        spare.min(self.tags.capacity() - self.tags.len())
    }

    /// Takes the memory for so many more pairs.
    pub fn reserve(&mut self, more: usize) -> Result<(), AllocError>
        ensures elements { self.new.elements ≡ self.old.elements }
        ensures ok { OnOk result (more ≤ self.new.spare) }
        ensures spare { self.old.spare ≤ self.new.spare }
        ensures succeeds { more ≤ self.old.spare → IsOk result }
    {
        self.indices.reserve(more)?;
        self.tags.reserve(more)?;
        Ok(())
    }

    /// Each pair is an element of a Switch.
    pub fn in_range(&self, kind: ColumnType)
        requires { bits_of kind ≡ pair_width }
        ensures { AreElementsOf kind self.now.elements }
    {
        pairs_in_range(kind, &self.indices, &self.tags);
    }

    /// Adds a pair.
    pub fn push(&mut self, index: u64, tag: u32)
        requires { 0 < self.old.spare }
        ensures elements { self.new.elements ≡ self.old.elements ++ (index, tag) ∷ [] }
        ensures spare { self.old.spare ≤ self.new.spare + 1 }
    {
        self.indices.push_reserved(index);
        self.tags.push_reserved(tag);
    }

    /// Writes the pairs of a page of so many behind the first pairs, and gives how many there are then.
    pub fn fill(&mut self, filled: usize, bytes: &[u8], count: usize) -> Result<usize, AllocError>
        requires length { length bytes.now ≡ 12 * count }
        requires within { filled ≤ length self.old.elements }
        ensures page { IfOk result (λ n. (n ≡ filled + count) × HasPageBehind filled count (page_elements Switch count bytes.now)
            self.old.elements self.new.elements self.old.spare self.new.spare) }
        ensures failed { OnErr result (KeepsFirst filled self.old.elements self.new.elements) }
        ensures succeeds { count ≤ self.old.spare → IsOk result }
    {
        self.cut(filled);
        self.reserve(count)?;
        push_indices(&mut self.indices, bytes, count);
        push_tags(&mut self.tags, bytes, count);
        Ok(filled + count)
    }

    /// Drops the pairs behind the first ones.
    pub fn cut(&mut self, len: usize)
        ensures elements { self.new.elements ≡ take len self.old.elements }
        ensures spare { self.old.spare ≤ self.new.spare }
    {
        self.indices.truncate(len);
        self.tags.truncate(len);
    }

    /// Takes all pairs away, and keeps their memory.
    pub fn clear(&mut self)
        ensures elements { self.new.elements ≡ [] }
        ensures spare { self.old.spare ≤ self.new.spare }
    {
        self.indices.clear();
        self.tags.clear();
    }

    /// The index of pair i.
    pub fn index(&self, i: usize) -> u64
        requires { i < length self.now.elements }
        ensures { result ≡ slice_index (numbers self.now.elements) i }
    {
        self.indices[i]
    }

    /// The tag of pair i.
    pub fn tag(&self, i: usize) -> u32
        requires { i < length self.now.elements }
        ensures { result ≡ slice_index (tags self.now.elements) i }
    {
        self.tags[i]
    }

    /// Writes the page of the pairs from one place to before another.
    pub fn encode(&self, from: usize, to: usize, out: &mut [u8])
        requires order { from ≤ to }
        requires within { to ≤ length self.now.elements }
        requires length { length out.old ≡ 12 * (to - from) }
        ensures { out.new ≡ switch_bytes (numbers (slice_range self.now.elements from to))
            (tags (slice_range self.now.elements from to)) }
    {
        encode_part(&self.indices, &self.tags, from, to, out);
    }
}

/// Writes the page of a part of two lists.
fn encode_part(indices: &[u64], tags: &[u32], from: usize, to: usize, out: &mut [u8])
    requires same { length tags.now ≡ length indices.now }
    requires order { from ≤ to }
    requires within { to ≤ length indices.now }
    requires length { length out.old ≡ 12 * (to - from) }
    ensures { out.new ≡ switch_bytes (slice_range indices.now from to)
        (slice_range tags.now from to) }
{
    encode_switch(&indices[from..to], &tags[from..to], out);
}
