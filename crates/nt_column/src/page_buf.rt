//! The elements of a column's pages, read one page behind the other into memory that was used before.

ghost use Rattle.std.specs.Prelude.{◌≡◌, length, OnOk, OnErr};
ghost use Rattle.nt_encode.specs.Pages.{page_size};
ghost use Rattle.nt_column.specs.Elements.{page_elements};
ghost use Rattle.nt_column.specs.Column.{with_more};

use crate::store::Store;
use nt_types::ColumnType;
use std::alloc::AllocError;
use std::marker::Model;

/// The elements of pages. A column's buffer gives it out and takes it back.
#[derive(Drop)]
pub struct PageBuf {
    pub(crate) kind: ColumnType,
    pub(crate) store: Store,
    /// So many first elements of the store are those of the pages; the others mean nothing.
    pub(crate) filled: usize,
}

impl Model for PageBuf {
    ghost use Rattle.nt_column.specs.Column.{Column};

    ghost Value = { Column };

    ghost use Rattle.std.specs.Prelude.{◌≡◌, ◌≤◌, length, take};
    ghost use Rattle.nt_types.specs.ColumnTable.{bits_of};
    ghost use Rattle.nt_column.specs.Store.{elements_of, width_of};

    ghost view = { λ p. record { kind = p.kind; elements = take p.filled (elements_of p.store); zeros = 0 } };

    ghost invariant = { λ p. (width_of p.store ≡ bits_of p.kind) × (p.filled ≤ length (elements_of p.store)) };
}

impl PageBuf {
    /// The type of the column.
    pub fn kind(&self) -> ColumnType
        ensures { result ≡ self.now.kind }
    {
        self.kind
    }

    /// Adds the elements of a page of so many, read from its bytes. Memory is taken where none is left.
    pub fn push_page(&mut self, bytes: &[u8], count: usize) -> Result<(), AllocError>
        requires { length bytes.now ≡ page_size self.old.kind count }
        ensures page { OnOk result (self.new ≡ with_more self.old
            (page_elements self.old.kind count bytes.now)) }
        ensures failed { OnErr result (self.new ≡ self.old) }
        ensures kind { self.new.kind ≡ self.old.kind }
        ensures stored { self.new.zeros ≡ 0 }
    {
        self.filled = self.store.fill(self.kind, self.filled, bytes, count)?;
        Ok(())
    }
}
