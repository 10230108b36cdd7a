//! How large the pages of columns are, and that columns can be shared.

ghost use Rattle.std.specs.Prelude.{◌≡◌, List, length};
ghost use Rattle.nt_types.specs.declared.column_type.ColumnType.{ColumnType};
ghost use Rattle.nt_encode.specs.Pages.{page_size};
ghost use Rattle.nt_column.specs.Elements.{Element, page_of};

use crate::buffer::ColumnBuf;
use crate::page_buf::PageBuf;
use crate::set::ColumnSet;

/// The page of elements has the size of a page of so many elements of its type.
pub fn pages_have_their_size()
    ensures { (kind : ColumnType) (es : List Element)
        → length (page_of kind es) ≡ page_size kind (length es) }
{}

/// Buffers and sets of them can be handed to another thread, and be read by several.
pub fn buffers_can_be_shared() {
    is_shared::<ColumnBuf>();
    is_shared::<ColumnSet>();
    is_shared::<PageBuf>();
}

/// What can be handed to another thread, and be read by several.
fn is_shared<T: Send + Sync>() {}
