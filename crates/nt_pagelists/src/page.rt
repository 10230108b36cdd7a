//! Pages, as page lists tell of them.

ghost use Rattle.std.specs.Prelude.{◌≡◌};

use std::marker::Model;

/// A page.
#[derive(Clone, Copy, Debug, PartialEq, Eq)]
pub struct PageItem {
    /// The number of its elements.
    pub count: u32,
    /// Where it begins in the file.
    pub place: u64,
    /// Its bytes, without the checksum behind them.
    pub size: u32,
    /// Its checksum stands behind it.
    pub checked: bool,
}

/// The pages of a column in a cluster, in order.
#[derive(Drop)]
pub struct PageItems {
    items: Vec<PageItem>,
}

impl Model for PageItems {
    ghost use Rattle.std.specs.Prelude.{List};
    ghost use Rattle.nt_pagelists.specs.declared.page.PageItem.{PageItem};

    ghost Value = { List PageItem };

    ghost view = { λ p. p.items.items };
}

impl PageItems {
    pub fn from_vec(items: Vec<PageItem>) -> Self
        ensures { result ≡ items.items }
    {
        PageItems { items }
    }

    pub fn as_slice(&self) -> &[PageItem]
        ensures { result.now ≡ self.now }
    {
        &self.items
    }

    pub fn into_vec(self) -> Vec<PageItem>
        ensures { result.items ≡ self }
    {
        self.items
    }
}
