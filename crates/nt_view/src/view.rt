//! A page of loaded bytes, seen by itself.

ghost use Rattle.std.specs.Prelude.{◌≡◌, ◌^◌, ◌<◌, ◌≤◌, length, take, slice_index};
ghost use Rattle.nt_encode.specs.Pages.{page_values};
ghost use Rattle.nt_view.specs.Views.{counted_of};

use crate::column::value_of;
use crate::page_place::PagePlace;
use nt_column::ColumnBuf;
use nt_types::ColumnType;
use std::marker::Model;

/// A page as it is stored. The values of a split index, each the sum of those before it in its page, were added up when the page
/// was loaded; all others are read from the bytes.
#[derive(Drop)]
pub struct PageView<'a> {
    pub(crate) kind: ColumnType,
    pub(crate) count: u32,
    pub(crate) bytes: &'a [u8],
    pub(crate) sums: Option<&'a ColumnBuf>,
    /// Where those of the page begin there.
    pub(crate) first: usize,
}

impl<'a> Model for PageView<'a> {
    ghost use Rattle.std.specs.Prelude.{◌≡◌, length, None, IfSome};
    ghost use Rattle.nt_encode.specs.Pages.{page_size};
    ghost use Rattle.nt_view.specs.Pages.{IsSplitIndex};
    ghost use Rattle.nt_view.specs.Views.{PageSeen, AreSumsFrom};

    ghost Value = { PageSeen };

    ghost view = { λ v. record { kind = v.kind; count = v.count; bytes = v.bytes.now } };

    ghost invariant = { λ v. (length v.bytes.now ≡ page_size v.kind v.count)
        × IfSome v.sums (λ b. AreSumsFrom v.first b.now v.kind v.count v.bytes.now)
        × (v.sums ≡ None → IsSplitIndex v.kind → ⊥) };
}

impl<'a> PageView<'a> {
    /// The type of its elements.
    pub fn kind(&self) -> ColumnType
        ensures { result ≡ self.now.kind }
    {
        self.kind
    }

    /// The number of its elements.
    pub fn len(&self) -> u32
        ensures { result ≡ self.now.count }
    {
        self.count
    }

    /// Value i of the page; of a Switch the index of its pair.
    pub fn value(&self, i: u32) -> u64
        requires { i < self.now.count }
        ensures { result ≡ slice_index (page_values self.now.kind self.now.count self.now.bytes) i }
    {
        match self.sums {
            Some(sums) => {
                let _all = sums.len();
                sums.number(self.first + i as usize)
            }
            None => value_of(self.kind, self.bytes, self.count as usize, i as usize),
        }
    }
}

/// How many elements of a column stand in the pages before one.
pub fn count_before(pages: &[PagePlace], column: u32, page: usize) -> usize
    requires within { page ≤ length pages.now }
    requires few { counted_of column pages.now < 2 ^ 64 }
    ensures { result ≡ counted_of column (take page pages.now) }
{
    let mut count = 0;
    for i in 0..page {
        if pages[i].column == column {
            count += pages[i].count as usize;
        }
    }
    count
}
