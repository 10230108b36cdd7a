//! A slice that is borrowed where it can be, and owned where it can't.

ghost use Rattle.std.specs.Prelude.{◌≡◌, map, IsTrue};
ghost use Rattle.nt_column.specs.Elements.{plain, text_of};
ghost use Rattle.nt_column.specs.Cow.{cow_items, is_borrowed};

/// Items that lie together elsewhere, or a copy of them.
#[derive(Drop)]
pub enum CowSlice<'a, T> {
    Borrowed(&'a [T]),
    Owned(Vec<T>),
}

impl<'a, T> CowSlice<'a, T> {
    /// The items.
    pub fn as_slice(&self) -> &[T]
        ensures { result.now ≡ cow_items self.now }
    {
        match self {
            CowSlice::Borrowed(items) => items,
            CowSlice::Owned(items) => items,
        }
    }
}

/// The elements of 8 bits, as they lie there.
pub(crate) fn lent(bytes: &[u8]) -> CowSlice<'_, u8>
    ensures text { cow_items result ≡ text_of (map plain bytes.now) }
    ensures lent { IsTrue (is_borrowed result) }
{
    CowSlice::Borrowed(bytes)
}
