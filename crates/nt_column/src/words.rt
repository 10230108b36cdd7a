//! The numbers of a column, lent as they lie.

ghost use Rattle.std.specs.Prelude.{◌≡◌, ◌≢◌, ◌≤◌, length, IsSomeAnd, IfSome};
ghost use Rattle.std.specs.List.{slice_range};
ghost use Rattle.nt_column.specs.Store.{elements_of, width_of};
ghost use Rattle.nt_column.specs.Widths.{pair_width};
ghost use Rattle.nt_column.specs.Words.{lent_elements, lent_width};

use crate::store::Store;

/// The elements of a column that isn't a Switch: truth values, or words of a width.
#[derive(Clone, Copy)]
pub enum WordSlice<'a> {
    Bits(&'a [bool]),
    Bytes(&'a [u8]),
    Words16(&'a [u16]),
    Words32(&'a [u32]),
    Words64(&'a [u64]),
}

/// The elements from one place to before another as they lie here, where they aren't pairs.
#[inline(always)]
pub fn words_of(store: &Store, from: usize, to: usize) -> Option<WordSlice<'_>>
    requires order { from ≤ to }
    requires within { to ≤ length (elements_of store.now) }
    ensures words { IfSome result
        (λ w. lent_elements w ≡ slice_range (elements_of store.now) from to) }
    ensures found { width_of store.now ≢ pair_width
        → IsSomeAnd result (λ w. lent_width w ≡ width_of store.now) }
{
    match store {
        Store::Bits(list) => Some(WordSlice::Bits(&list[from..to])),
        Store::Bytes(list) => Some(WordSlice::Bytes(&list[from..to])),
        Store::Words16(list) => Some(WordSlice::Words16(&list[from..to])),
        Store::Words32(list) => Some(WordSlice::Words32(&list[from..to])),
        Store::Words64(list) => Some(WordSlice::Words64(&list[from..to])),
        Store::Pairs(_) => None,
    }
}
