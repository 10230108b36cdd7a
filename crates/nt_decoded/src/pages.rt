//! The pages of a column.

ghost use Rattle.std.specs.Prelude.{◌≡◌, nat_eq, length, take, OnOk, IsErrOf};
ghost use Rattle.nt_num.specs.Codes.{compressed};
ghost use Rattle.nt_num.specs.Faults.{fault, with_values};
ghost use Rattle.nt_format.specs.Demands.{demand};
ghost use Rattle.nt_encode.specs.Pages.{page_size};
ghost use Rattle.nt_encode.specs.Elements.{page_elements};
ghost use Rattle.nt_column.specs.Column.{with_more};
ghost use Rattle.nt_pagelists.specs.Columns.{in_column};
ghost use Rattle.nt_file_meaning.specs.Clusters.{stored_len, is_checked, sum_fault};
ghost use Rattle.nt_tfile.specs.declared.failure.ReadFailure.TheVariants.{Fault};
ghost use Rattle.nt_tfile.specs.Calls.{Serves, IsReadAs, IsReadOrFails, ReadsFile};
ghost use Rattle.nt_decoded.specs.Windows.{IsSeenBy, window_bytes};
ghost use Rattle.nt_decoded.specs.Pages.{column_with_bytes, column_with_page, column_with_pages, CanRead, IsAtHand, KeepsKind};

use crate::window::{Window, move_to};
use byteorder::{ByteOrder, LittleEndian};
use nt_column::{ColumnBuf, PageBuf};
use nt_encode::size_of;
use nt_listing::{BAD_PAGE, COMPRESSED, OUT_OF_FILE, Wanting, fault_with, in_column};
use nt_num::ReadError;
use nt_outside::ReadAt;
use nt_pagelists::PageItem;
use nt_tfile::ReadFailure;
use nt_types::ColumnType;

/// A column of a cluster, by their numbers, as a fault tells them.
#[derive(Drop)]
pub struct ColumnOf {
    pub cluster: u32,
    pub id: u32,
}

/// Whether a page has the size of its elements; a compressed one has another.
fn check_size(of: &ColumnOf, kind: ColumnType, page: &PageItem) -> Result<(), ReadError>
    ensures plain { let size = page_size kind page.now.count in let found = page.now.size in
        IsReadAs (λ _. tt) result (demand (nat_eq found size)
        (in_column of.now.cluster of.now.id (with_values size found (fault compressed page.now.place)))) }
    ensures same { OnOk result (page.now.size ≡ page_size kind page.now.count) }
{
    let size = size_of(kind, u64::from(page.count));
    if u64::from(page.size) != size {
        let error = fault_with(COMPRESSED, page.place, size, u64::from(page.size));
        return Err(in_column(of.cluster, of.id, error));
    }
    Ok(())
}

/// Whether a page has the checksum that stands behind it, if one does.
fn check_sum(of: &ColumnOf, page: &PageItem, stored: &[u8]) -> Result<(), ReadError>
    requires { length stored.now ≡ stored_len page.now }
    ensures { IsReadAs (λ _. tt) result (demand (is_checked page.now stored.now)
        (in_column of.now.cluster of.now.id (sum_fault page.now stored.now))) }
{
    if !page.checked {
        return Ok(());
    }
    let (bytes, behind) = stored.split_at(page.size as usize);
    let kept = LittleEndian::read_u64(behind);
    let found = nt_xxh3::sum(bytes);
    if kept != found {
        let error = fault_with(BAD_PAGE, page.place, kept, found);
        return Err(in_column(of.cluster, of.id, error));
    }
    Ok(())
}

/// Adds the elements of a page to a column.
fn push_elements(page: &PageItem, stored: &[u8], column: &mut PageBuf) -> Result<(), Wanting>
    requires length { length stored.now ≡ stored_len page.now }
    requires size { page.now.size ≡ page_size column.old.kind page.now.count }
    ensures { OnOk result (column.new ≡ with_more column.old
        (page_elements column.old.kind page.now.count (take page.now.size stored.now))) }
{
    let (bytes, _) = stored.split_at(page.size as usize);
    let count = page.count as usize;
    column.push_page(bytes, count)?;
    Ok(())
}

/// Adds the elements of a page that lies in the window and has the size of its elements.
fn push_stored(
    of: &ColumnOf,
    page: &PageItem,
    window: &Window,
    column: &mut PageBuf,
) -> Result<(), ReadFailure>
    requires { IsAtHand page.now window.now column.old.kind }
    ensures read { IsReadOrFails (λ _. column.new) result
        (column_with_bytes of.now.cluster of.now.id page.now column.old (window_bytes window.now page.now)) }
    ensures grown { OnOk result (KeepsKind column.old column.new) }
    ensures inside { IsErrOf result Fault → ⊥ }
{
    let stored = window.stored(page);
    check_sum(of, page, stored)?;
    push_elements(page, stored, column)?;
    Ok(())
}

/// Adds the elements of a page of a column in a cluster. The pages behind it are read with it where
/// they follow it closely in the file.
fn push_page<F: ReadAt>(
    file: &mut F,
    of: &ColumnOf,
    page: &PageItem,
    behind: &[PageItem],
    window: &mut Window,
    column: &mut PageBuf,
) -> Result<(), ReadFailure>
    requires { IsSeenBy (F.state file.old) window.old }
    ensures file { Serves (F.state file.old) (F.state file.new) result }
    ensures read { ReadsFile (λ _. column.new)
        (column_with_page of.now.cluster of.now.id page.now column.old) (F.state file.old) result }
    ensures window { IsSeenBy (F.state file.new) window.new }
    ensures grown { OnOk result (KeepsKind column.old column.new) }
{
    check_size(of, column.kind(), page)?;
    let outside = in_column(of.cluster, of.id, fault_with(OUT_OF_FILE, page.place, 0, 0));
    move_to(file, page, behind, outside, window)?;
    push_stored(of, page, window, column)
}

/// Fills an empty column with the elements of its pages in a cluster, one page behind the other.
pub fn push_pages<F: ReadAt>(
    file: &mut F,
    of: &ColumnOf,
    pages: &[PageItem],
    window: &mut Window,
    column: &mut ColumnBuf,
) -> Result<(), ReadFailure>
    requires { CanRead (F.state file.old) window.old column.old.column }
    ensures file { Serves (F.state file.old) (F.state file.new) result }
    ensures read { ReadsFile (λ _. column.new.column)
        (column_with_pages of.now.cluster of.now.id pages.now column.old.column) (F.state file.old) result }
    ensures window { IsSeenBy (F.state file.new) window.new }
    ensures grown { OnOk result (KeepsKind column.old.column column.new.column) }
{
    let mut filled = column.begin();
    for i in 0..pages.len() {
        push_page(file, of, &pages[i], &pages[i + 1..], window, &mut filled)?;
    }
    column.end(filled);
    Ok(())
}
