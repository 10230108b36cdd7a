//! The stored bytes of pages, read from a file: pages that follow one another closely at once.

ghost use Rattle.std.specs.Prelude.{◌≡◌, ◌<◌, ◌≤◌, ◌^◌, length, vec_len, IsTrue, IsErrOf, IfOk, OnOk};
ghost use Rattle.nt_view.specs.declared.fault.ViewFault.TheVariants.{Fault};
ghost use Rattle.nt_outside.specs.Faults.{RoseOnFailed};
ghost use Rattle.nt_view.specs.Loads.{loaded_len, found_bytes, checked_bytes, pages_found, LoadsFile, IsLoadedAs, ServesView};
ghost use Rattle.nt_view.specs.Stores.{taken_bytes, next_bytes, with_page, lens_of, cut_up, IsPageRun, IsReadFrom};
ghost use Rattle.nt_view.specs.Stores.{StandsNext, IsSeen, IsBrought, HasPageMore};

use crate::fault::ViewFault;
use crate::page_place::PagePlace;
use byteorder::{ByteOrder, LittleEndian};
use nt_outside::{ReadAt, Refused};

/// How many bytes are read at once, at most, but for a page that is longer: so many stay in the cache until their pages are hashed.
const MOST_AT_ONCE: u64 = 1 << 17;

/// The bytes of a checksum.
const SUM_LEN: u64 = 8;

/// The stored bytes of pages, one page behind the other, and behind them bytes that follow in the file.
#[derive(Drop)]
pub struct PageStore {
    pub bytes: Vec<u8>,
    /// How many of them are those of pages.
    pub taken: usize,
    /// Where in the file those behind them stand.
    pub place: u64,
}

/// The bytes of a page, with its checksum if it has one.
pub fn stored_len(page: &PagePlace) -> u64
    ensures len { result ≡ loaded_len page.now }
    ensures few { result < 2 ^ 33 }
{
    if page.checked {
        u64::from(page.size) + SUM_LEN
    } else {
        u64::from(page.size)
    }
}

/// How many bytes are read for a page: its own, and those of the pages behind it that follow it closely in a file of this size.
fn run_len(page: &PagePlace, behind: &[PagePlace], size: u64) -> u64
    ensures run { IsPageRun page.now size result }
    ensures few { result ≤ 2 ^ 33 }
{
    let most = size.saturating_sub(page.place).min(MOST_AT_ONCE);
    let mut len = stored_len(page);
    for next in behind {
        let more = stored_len(next);
        if next.place.saturating_sub(page.place) != len || len + more > most {
            break;
        }
        len += more;
    }
    len
}

/// Appends so many bytes of a file from a place on, or as many as it gives.
fn read_more<F: ReadAt>(
    file: &mut F,
    at: u64,
    len: usize,
    bytes: &mut Vec<u8>,
) -> Result<(), Refused>
    requires { len ≤ 2 ^ 33 }
    ensures same { (F.state file.new).bytes ≡ (F.state file.old).bytes }
    ensures cause { RoseOnFailed (F.state file.old).faults (F.state file.new).faults result }
    ensures bytes { OnOk result (IsReadFrom (F.state file.old).bytes at len bytes.old.items bytes.new.items) }
{
    let filled = bytes.len();
    bytes.resize(filled + len, 0)?;
    let count = file.read_at(at, &mut bytes[filled..])?;
    bytes.truncate(filled + count);
    Ok(())
}

/// Reads a page, and the pages behind it that follow it closely, behind the pages so far.
fn read_run<F: ReadAt>(
    file: &mut F,
    size: u64,
    i: u32,
    page: &PagePlace,
    behind: &[PagePlace],
    store: &mut PageStore,
) -> Result<(), ViewFault>
    requires seen { IsSeen (F.state file.old).bytes size store.old }
    ensures file { ServesView (F.state file.old) (F.state file.new) result }
    ensures read { LoadsFile (λ _. next_bytes page.now store.new)
        (λ told. found_bytes told i page.now) (F.state file.old) result }
    ensures brought { OnOk result (IsBrought (F.state file.old).bytes size page.now store.old store.new) }
{
    let len = run_len(page, behind, size);
    if u128::from(page.place) + u128::from(len) > u128::from(size) {
        return Err(ViewFault::OutOfFile { page: i });
    }
    store.bytes.truncate(store.taken);
    read_more(file, page.place, len as usize, &mut store.bytes)?;
    if store.bytes.len() - store.taken != len as usize {
        return Err(ViewFault::OutOfFile { page: i });
    }
    store.place = page.place;
    Ok(())
}

/// Whether the bytes behind the pages so far begin with those of a page.
fn has_next(page: &PagePlace, store: &PageStore) -> bool
    requires { store.now.taken ≤ vec_len store.now.bytes }
    ensures { IsTrue result → StandsNext page.now store.now }
{
    store.place == page.place && stored_len(page) <= (store.bytes.len() - store.taken) as u64
}

/// The bytes of a page, with its checksum, that stands behind the pages so far.
fn next_page<'a>(page: &PagePlace, store: &'a PageStore) -> &'a [u8]
    requires { StandsNext page.now store.now }
    ensures { result.now ≡ next_bytes page.now store.now }
{
    let (_, rest) = store.bytes.split_at(store.taken);
    let (stored, _) = rest.split_at(stored_len(page) as usize);
    stored
}

/// Whether the page of this number has the checksum that stands behind it, if one does.
fn check_sum(i: u32, page: &PagePlace, stored: &[u8]) -> Result<(), ViewFault>
    requires { length stored.now ≡ loaded_len page.now }
    ensures read { IsLoadedAs (λ _. stored.now) result (checked_bytes i page.now stored.now) }
    ensures inside { IsErrOf result Fault → ⊥ }
{
    if !page.checked {
        return Ok(());
    }
    let (bytes, behind) = stored.split_at(page.size as usize);
    let kept = LittleEndian::read_u64(behind);
    let found = nt_xxh3::sum(bytes);
    if kept != found {
        return Err(ViewFault::Checksum {
            page: i,
            kept,
            found,
        });
    }
    Ok(())
}

/// Reads a page behind the pages so far, where it isn't there yet.
fn bring_page<F: ReadAt>(
    file: &mut F,
    size: u64,
    i: u32,
    page: &PagePlace,
    behind: &[PagePlace],
    store: &mut PageStore,
) -> Result<(), ViewFault>
    requires seen { IsSeen (F.state file.old).bytes size store.old }
    ensures file { ServesView (F.state file.old) (F.state file.new) result }
    ensures read { LoadsFile (λ _. next_bytes page.now store.new)
        (λ told. found_bytes told i page.now) (F.state file.old) result }
    ensures brought { OnOk result (IsBrought (F.state file.old).bytes size page.now store.old store.new) }
{
    if has_next(page, store) {
        return Ok(());
    }
    read_run(file, size, i, page, behind, store)
}

/// Takes the page of this number to the pages so far, where it lies in the file and has its checksum.
fn take_page<F: ReadAt>(
    file: &mut F,
    size: u64,
    i: u32,
    page: &PagePlace,
    behind: &[PagePlace],
    store: &mut PageStore,
) -> Result<(), ViewFault>
    requires seen { IsSeen (F.state file.old).bytes size store.old }
    ensures file { ServesView (F.state file.old) (F.state file.new) result }
    ensures read { LoadsFile (λ _. taken_bytes store.new)
        (λ told. with_page told i page.now (taken_bytes store.old)) (F.state file.old) result }
    ensures taken { OnOk result (HasPageMore (F.state file.old).bytes size page.now store.old store.new) }
{
    bring_page(file, size, i, page, behind, store)?;
    check_sum(i, page, next_page(page, store))?;
    let len = stored_len(page);
    store.taken += len as usize;
    store.place += len;
    Ok(())
}

/// How many bytes pages have together, or the greatest number where that is more.
fn total_len(pages: &[PagePlace]) -> u64 {
    let mut total = 0u64;
    for page in pages {
        total = total.saturating_add(stored_len(page));
    }
    total
}

/// The stored bytes of pages, one page behind the other, in the memory of other bytes.
pub fn read_pages<F: ReadAt>(
    file: &mut F,
    pages: &[PagePlace],
    kept: Vec<u8>,
) -> Result<Vec<u8>, ViewFault>
    ensures file { ServesView (F.state file.old) (F.state file.new) result }
    ensures read { LoadsFile (λ v. cut_up pages.now v.items)
        (λ told. pages_found told 0 pages.now) (F.state file.old) result }
    ensures len { IfOk result (λ v. (length v.items ≡ lens_of pages.now) × (length pages.now < 2 ^ 32)) }
{
    if pages.len() > u32::MAX as usize {
        return Err(ViewFault::Memory);
    }
    let size = file.size()?;
    let mut bytes = kept;
    bytes.clear();
    bytes.reserve(total_len(pages).min(size) as usize)?;
    let mut store = PageStore {
        bytes,
        taken: 0,
        place: 0,
    };
    for i in 0..pages.len() {
        take_page(file, size, i as u32, &pages[i], &pages[i + 1..], &mut store)?;
    }
    store.bytes.truncate(store.taken);
    Ok(store.bytes)
}
